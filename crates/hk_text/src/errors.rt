//! Why bytes are no text of a script (`docs/FORMATS.md`, "Text").

use hk_format::{ReadError, TextCause};

/// Why bytes have no lines.
pub type TextError = ReadError<TextCause>;

/// Why a line has no pieces.
pub type LineError = hk_format::LineError<TextCause>;
