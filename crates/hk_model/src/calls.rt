//! The kernel calls, and how they are answered (`docs/RULES.md`, "The table of the calls" and
//! "What each call does").

use crate::entries::Making;
use crate::names::Slot;
use crate::paths::{Args, Path};
use hk_rights::{Right, Rights};

/// A kernel call, with its operands. Slots go to 255 here; those from 64 on are refused.
#[derive(Clone, Copy, PartialEq, Eq)]
pub enum Call {
    /// Replies the word at index `at`.
    Get {
        of: Path,
        at: u32,
    },
    /// Writes the word at index `at`.
    Put {
        of: Path,
        at: u32,
        word: u32,
    },
    /// Adds a word after the last.
    Add {
        of: Path,
        word: u32,
    },
    /// Replies the number of words.
    Length {
        of: Path,
    },
    /// Copies the entry at the end of the path into a slot.
    Load {
        from: Path,
        into: Slot,
    },
    /// Writes what a slot holds over the entry at index `at` of a list.
    Store {
        list: Path,
        at: u32,
        from: Slot,
    },
    /// Adds what a slot holds after the last entry of a list.
    Append {
        list: Path,
        from: Slot,
    },
    /// Makes the entry at index `at` of a list empty.
    Erase {
        list: Path,
        at: u32,
    },
    /// Makes a slot empty.
    Drop {
        slot: Slot,
    },
    /// Takes away the rights of the capability in a slot that are not in `keep`.
    Restrict {
        slot: Slot,
        keep: Rights,
    },
    /// Replies what kind of entry stands at the end of the path, and its rights.
    Look {
        of: Path,
    },
    /// Makes a template for the type at the end of the path.
    MakeTemplate {
        of: Path,
        making: Making,
        into: Slot,
    },
    /// Makes a new object by a Create template.
    Create {
        by: Path,
        into: Slot,
    },
    /// Merges the capability in a slot with an Amplify template.
    Merge {
        with: Path,
        cap: Slot,
        into: Slot,
    },
    /// Makes a new object with the words and entries of another.
    Copy {
        of: Path,
        into: Slot,
    },
    /// Calls a procedure.
    Enter {
        proc: Path,
        args: Args,
        into: Slot,
    },
    /// Returns from a procedure, perhaps with a capability, or ends the process.
    Leave {
        give: Option<Slot>,
    },
    /// Takes a token of a semaphore, or waits for one.
    P {
        of: Path,
    },
    /// Gives a token to a semaphore.
    V {
        of: Path,
    },
    /// Gives up the processor.
    Yield,
}

/// What has no room for one more (`docs/RULES.md`, "Limits").
#[derive(Clone, Copy, PartialEq, Eq, Debug)]
pub enum What8 {
    Words,
    Entries,
    Objects,
    Slots,
    Tokens,
}

/// Why a call is refused. `step` numbers the operand of the call that the refusal is about
/// (`docs/RULES.md`, "Step numbers").
#[derive(Clone, Copy, PartialEq, Eq, Debug)]
pub enum Refusal {
    /// An index is not below the length of its list, or a slot not below 64.
    Range { step: u8 },
    /// Something is wanted where nothing stands.
    Empty { step: u8 },
    /// A capability is wanted where a template stands.
    NotCap { step: u8 },
    /// A right is missing: the lowest of those that are wanted and not there.
    Denied { step: u8, right: Right },
    /// The object is of another type.
    WrongType { step: u8 },
    /// A template of another kind is wanted.
    BadTemplate { step: u8 },
    /// The arguments are not as many as the parameters.
    Count,
    /// There is no room for one more.
    Full { what: What8 },
    /// The process has 64 incarnations.
    Deep,
}

/// What a call that nothing refuses is answered.
#[derive(Clone, Copy, PartialEq, Eq, Debug)]
pub enum Answer {
    Done,
    Word(u32),
    Waits,
}

/// The reply to a call: its answer, or the first refusal.
#[derive(Clone, Copy, PartialEq, Eq, Debug)]
pub enum Reply {
    Done,
    Word(u32),
    /// The process waits at the semaphore.
    Waits,
    No(Refusal),
}
