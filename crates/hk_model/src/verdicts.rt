//! The verdict on a record, and the first misstep of one that is not legal.

/// How the first line of a record that is no step differs from the step (`docs/FORMATS.md`, "Legal
/// records"). Of several, the first that is listed here.
#[derive(Clone, Copy, PartialEq, Eq, Debug)]
pub enum Misstep {
    /// The processor has no step.
    Cpu,
    /// Another process or incarnation makes the step.
    Process,
    /// The event is another.
    Call,
    /// The reply is another.
    Reply,
    /// All lines are steps, and the end word is not that of the last state.
    EndWord,
}

/// Whether a record is legal (`docs/FORMATS.md`, "Legal records").
#[derive(Clone, Copy, PartialEq, Eq, Debug)]
pub enum Verdict {
    Legal,
    Illegal {
        /// The number of the first bad line, counted from 1 behind the line `record`; for a bad
        /// end word the number of lines plus one.
        line: u32,
        cause: Misstep,
    },
}
