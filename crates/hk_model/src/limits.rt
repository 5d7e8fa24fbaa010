//! How many of each there can be (`docs/RULES.md`, "Limits").

/// Objects, the kernel types counted.
pub const OBJECT_LIMIT: usize = 65_536;

/// Words of an object.
pub const WORD_LIMIT: usize = 4096;

/// Entries of an object.
pub const ENTRY_LIMIT: usize = 256;

/// Slots of an incarnation.
pub const SLOT_LIMIT: usize = 64;

/// Parameters of a procedure.
pub const PARAM_LIMIT: usize = 8;

/// Arguments of a call.
pub const ARGUMENT_LIMIT: usize = 8;

/// Indices of a path.
pub const PATH_LIMIT: usize = 8;

/// What each index of a path is below.
pub const INDEX_BOUND: u32 = 65_536;

/// What each slot that a call can name is below.
pub const SLOT_BOUND: u32 = 256;

/// What each step that a refusal tells is below.
pub const STEP_BOUND: u32 = 256;

/// Registers of a frame.
pub const REGISTER_LIMIT: usize = 8;

/// Incarnations of a process, the base counted.
pub const DEPTH_LIMIT: usize = 64;

/// Tokens of a semaphore.
pub const TOKEN_LIMIT: u32 = 65_535;

/// Codes, and the instructions of a code.
pub const CODE_LIMIT: usize = 4096;

/// Processes.
pub const PROCESS_LIMIT: usize = 256;

/// Processors.
pub const CPU_LIMIT: u8 = 16;

/// Local instructions between two kernel calls.
pub const LOCAL_LIMIT: u32 = 10_000;

/// The largest limit on events.
pub const EVENT_LIMIT: u32 = 1_000_000;

/// The limit on events of a script that names none.
pub const USUAL_LIMIT: u32 = 10_000;

/// Bytes of a line of a script, without its line feed.
pub const LINE_BYTES: usize = 1000;

/// Bytes of a script.
pub const SCRIPT_BYTES: usize = 1_048_576;

/// Bytes of a record.
pub const RECORD_BYTES: usize = 536_870_912;
