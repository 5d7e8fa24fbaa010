//! What a desk answers (`docs/TURNS.md`, "The desk").

use hk_model::{Proc, Reply};
use hk_program::Context;

/// How a processor that runs nothing was answered.
#[derive(Drop)]
pub enum Asked {
    /// It got this process, whose control this is.
    Given(Proc, Context),
    /// No process is ready, and some run on other processors. The number counts the lines
    /// that the pass has then seen.
    Idle(u64),
    /// The limit on events is reached, or no process is ready and none runs.
    Over,
    /// A processor has stopped for want of memory.
    Stopped,
}

/// How a call or a halt of the process that a processor runs was answered.
#[derive(Drop)]
pub enum Called {
    /// The reply, and the control of the process, which goes on.
    Goes(Reply, Context),
    /// The reply; the process now waits, has yielded or has ended.
    Gone(Reply),
    /// The limit on events is reached, so no line was made.
    Limit,
    /// A processor has stopped for want of memory, so no line was made.
    Stopped,
    /// Want of memory in this call: the processor has stopped, and no line was made.
    NoMemory,
}
