//! What a command comes to (`docs/FORMATS.md`, "Statuses and outputs"): a text with its status, and the kernel that was run.

use hk_model::{NoMemory, Text};

/// A status, and the text that goes with it.
#[derive(Drop)]
pub struct DueText {
    pub status: u8,
    pub text: Text,
}

/// A text that is due, and the kernel if the text is the record or the summary of its run.
#[derive(Drop)]
pub struct Served<K> {
    pub due: DueText,
    pub kernel: Option<K>,
}

/// Why nothing is written.
#[derive(Clone, Copy)]
pub enum Silence {
    /// A read failed.
    ReadFault,
    /// Want of memory.
    NoMemory,
}

impl From<NoMemory> for Silence {
    ghost use Rattle.std.specs.Prelude.{◌≡◌};
    ghost use Rattle.hk_top.specs.declared.served.Silence.{Silence};

    ghost from_gives = { λ _ error. error ≡ Silence.NoMemory };

    fn from(_error: NoMemory) -> Silence {
        Silence::NoMemory
    }
}
