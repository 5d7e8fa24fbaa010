//! Notes, the entries of a desk's history (`docs/TURNS.md`, "The desk").

use hk_model::{Cpu, Line};

/// An entry of the history of a desk.
#[derive(Clone, Copy, PartialEq, Eq)]
pub enum Noted {
    /// A processor made this line.
    Event(Line),
    /// This processor's call met want of memory. It is no line, and the last note of a history.
    Stop(Cpu),
}
