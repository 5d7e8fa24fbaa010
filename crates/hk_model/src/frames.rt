//! The control of a process (`docs/RULES.md`, "Control of a process").

use crate::calls::Call;

/// What a process does next.
#[derive(Clone, Copy, PartialEq, Eq)]
pub enum Todo {
    /// It makes this kernel call.
    Do(Call),
    /// It is ended, since it ran too many local instructions.
    Halt,
}

/// The control of one incarnation.
#[derive(Clone, Copy, PartialEq, Eq)]
pub struct Frame {
    /// The number of the code.
    pub code: u16,
    /// The number of the instruction that stands next, or the code's length at its end.
    pub at: u16,
    pub registers: [u32; 8],
    /// Whether the last call was refused.
    pub refused: bool,
}
