//! Why the items of a script are no world (`docs/FORMATS.md`, "Loading").

use hk_format::{LoadCause, ReadError};

/// Why a script can not be loaded.
pub type LoadError = ReadError<LoadCause>;

/// Why a line can not be loaded.
pub type LineError = hk_format::LineError<LoadCause>;
