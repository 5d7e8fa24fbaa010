//! The kinds of objects that calls are for.

ghost use Rattle.std.specs.Prelude.{◌≡◌};
ghost use Rattle.hk_calls.specs.Kinds.{is_wanted};

use hk_model::Name;

/// Which types a call is for (`docs/RULES.md`, "Objects, incarnations, processes").
#[derive(Clone, Copy, PartialEq, Eq, Debug)]
pub enum Wanted {
    /// DATA, UNIVERSAL and every type that is no kernel type.
    General,
    /// UNIVERSAL, PROCEDURE and every type that is no kernel type.
    Listed,
    /// TYPE alone.
    Types,
    /// SEMAPHORE alone.
    Semaphores,
    /// PROCEDURE alone.
    Procedures,
}

impl Wanted {
    /// Whether a type is wanted.
    pub fn has(self, of: Name) -> bool
        ensures { result ≡ is_wanted self of }
    {
        match self {
            Wanted::General => of.0 == 1 || of.0 == 2 || of.0 > 6,
            Wanted::Listed => of.0 == 2 || of.0 == 4 || of.0 > 6,
            Wanted::Types => of.0 == 0,
            Wanted::Semaphores => of.0 == 3,
            Wanted::Procedures => of.0 == 4,
        }
    }
}
