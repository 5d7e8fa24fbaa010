//! Why bytes are not read: the first line that is refused with its first cause, or want of memory.

ghost use Rattle.std.specs.Prelude.{◌≡◌};

use crate::causes::{Cause, LoadCause, ParseCause, TextCause};
use std::alloc::AllocError;

/// Why a script or a record is not read, by causes of one kind (`docs/FORMATS.md`, "Text", "Grammar",
/// "Loading" and "Audit lines and records").
#[derive(Clone, Copy, PartialEq, Eq, Debug)]
pub enum ReadError<C> {
    /// The first line that is refused, numbered from 1 in the whole input, and its first cause.
    Refused { line: u32, cause: C },
    /// Want of memory.
    NoMemory,
}

/// Why a single line is not read, whatever its number.
#[derive(Clone, Copy, PartialEq, Eq, Debug)]
pub enum LineError<C> {
    /// The first cause of the line.
    Bad(C),
    /// Want of memory.
    NoMemory,
}

impl<C> From<AllocError> for ReadError<C> {
    ghost use Rattle.hk_format.specs.declared.errors.ReadError.TheVariants.{NoMemory};

    ghost from_gives = { λ _ e. e ≡ NoMemory };

    fn from(_error: AllocError) -> ReadError<C> {
        ReadError::NoMemory
    }
}

impl<C> From<AllocError> for LineError<C> {
    ghost use Rattle.hk_format.specs.declared.errors.LineError.TheVariants.{NoMemory};

    ghost from_gives = { λ _ e. e ≡ NoMemory };

    fn from(_error: AllocError) -> LineError<C> {
        LineError::NoMemory
    }
}

impl From<TextCause> for LineError<TextCause> {
    ghost use Rattle.hk_format.specs.declared.errors.LineError.TheVariants.{Bad};

    ghost from_gives = { λ cause e. e ≡ Bad cause };

    fn from(cause: TextCause) -> LineError<TextCause> {
        LineError::Bad(cause)
    }
}

impl<C> LineError<C> {
    ghost use Rattle.hk_format.specs.Outcomes.{error_on};

    /// The error, on the line of this number.
    pub fn on_line(self, line: u32) -> ReadError<C>
        ensures { result ≡ error_on line self }
    {
        match self {
            LineError::Bad(cause) => ReadError::Refused { line, cause },
            LineError::NoMemory => ReadError::NoMemory,
        }
    }
}

impl From<ReadError<TextCause>> for ReadError<Cause> {
    ghost use Rattle.hk_format.specs.declared.causes.Cause.TheVariants.{OfText};
    ghost use Rattle.hk_format.specs.Outcomes.{with_cause};

    ghost from_gives = { λ error gives. gives ≡ with_cause OfText error };

    fn from(error: ReadError<TextCause>) -> ReadError<Cause> {
        match error {
            ReadError::Refused { line, cause } => ReadError::Refused {
                line,
                cause: Cause::OfText(cause),
            },
            ReadError::NoMemory => ReadError::NoMemory,
        }
    }
}

impl From<ReadError<ParseCause>> for ReadError<Cause> {
    ghost use Rattle.hk_format.specs.declared.causes.Cause.TheVariants.{OfParse};
    ghost use Rattle.hk_format.specs.Outcomes.{with_cause};

    ghost from_gives = { λ error gives. gives ≡ with_cause OfParse error };

    fn from(error: ReadError<ParseCause>) -> ReadError<Cause> {
        match error {
            ReadError::Refused { line, cause } => ReadError::Refused {
                line,
                cause: Cause::OfParse(cause),
            },
            ReadError::NoMemory => ReadError::NoMemory,
        }
    }
}

impl From<ReadError<LoadCause>> for ReadError<Cause> {
    ghost use Rattle.hk_format.specs.declared.causes.Cause.TheVariants.{OfLoad};
    ghost use Rattle.hk_format.specs.Outcomes.{with_cause};

    ghost from_gives = { λ error gives. gives ≡ with_cause OfLoad error };

    fn from(error: ReadError<LoadCause>) -> ReadError<Cause> {
        match error {
            ReadError::Refused { line, cause } => ReadError::Refused {
                line,
                cause: Cause::OfLoad(cause),
            },
            ReadError::NoMemory => ReadError::NoMemory,
        }
    }
}
