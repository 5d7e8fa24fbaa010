//! Why lines are no script (`docs/FORMATS.md`, "Grammar").

use hk_format::{Cause, ParseCause, ReadError};

/// Why lines are no script.
pub type ParseError = ReadError<ParseCause>;

/// Why bytes are no script: a line of them has no text, or the lines are no script.
pub type SourceError = ReadError<Cause>;

/// Why a line does not follow the grammar.
pub type LineError = hk_format::LineError<ParseCause>;
