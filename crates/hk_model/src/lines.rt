//! Lines of the audit record (`docs/FORMATS.md`, "Audit lines and records").

use crate::calls::{Call, Reply};
use crate::names::{Cpu, Inc, Proc};

/// What a line of the record tells.
#[derive(Clone, Copy, PartialEq, Eq)]
pub enum What {
    /// The processor got the process.
    Dispatch,
    /// The process made a kernel call.
    Call(Call),
    /// The process was ended after too many local instructions.
    Halt,
}

/// One event: which processor, process and incarnation made it, and the reply.
#[derive(Clone, Copy, PartialEq, Eq)]
pub struct Line {
    pub cpu: Cpu,
    pub proc: Proc,
    /// The current incarnation of the process before the event.
    pub inc: Inc,
    pub what: What,
    pub reply: Reply,
}

/// How a run ended (`docs/RULES.md`, "Steps of processors").
#[derive(Clone, Copy, PartialEq, Eq, Debug)]
pub enum End {
    /// Every process has ended.
    Done,
    /// No process is ready or runs, and some waits.
    Stuck,
    /// The events number the limit, and neither of the others holds.
    Limit,
}
