//! A kernel, by the state that it is in.

ghost use Rattle.std.specs.Prelude.{◌≡◌, ◌<◌, Bool, not, IsTrue, IsSome, IfOk, OnErr, IfSome, IfNone, Some, None};
ghost use Rattle.hk_model.specs.State.{State};
ghost use Rattle.hk_model.specs.declared.calls.Call.{Call};
ghost use Rattle.hk_model.specs.Processors.{runner, may_step, dispatched, acted_on, halted_on, entered_on, has_left, is_over, running_on};
ghost use Rattle.hk_model.specs.Snapshots.{shown};

use crate::calls::{Call, Reply};
use crate::names::{Cpu, Inc, Proc};
use crate::snapshot::Snapshot;
use std::alloc::{AllocError, AllocFailed, Global};

/// Want of memory.
#[derive(Clone, Copy, PartialEq, Eq, Debug)]
pub struct NoMemory;

impl From<AllocError> for NoMemory {
    fn from(_error: AllocError) -> NoMemory {
        NoMemory
    }
}

impl<T: Drop> From<AllocFailed<T>> for NoMemory {
    fn from(_error: AllocFailed<T>) -> NoMemory {
        NoMemory
    }
}

/// How a call was answered (`docs/RULES.md`, "Steps of processors").
#[derive(Clone, Copy, PartialEq, Eq, Debug)]
pub struct Acted {
    pub reply: Reply,
    /// The code of the procedure that was entered, Some exactly for an Enter answered Done.
    pub code: Option<u16>,
    /// Whether the process now waits, has yielded or has ended.
    pub gone: bool,
}

/// A kernel (`docs/RULES.md`, "Steps of processors"). An `act` that is answered, refused or not, a
/// `dispatch` that gives a process, and a `halt` are one event each.
pub trait Kernel: Drop {
    /// The state that it is in.
    ghost state: { Self → State };

    /// Whether a call may be answered with want of memory.
    ghost wants: { Call → Bool };

    /// Makes the call of the process that the processor runs. NoMemory comes only for a call that
    /// the kernel's type names; it is no event and changes nothing.
    fn act(&mut self, alloc: Global, cpu: Cpu, call: Call) -> Result<Acted, NoMemory>
        requires runs { IsSome (runner (state self.old) cpu) }
        requires below { IsTrue (may_step (state self.old)) }
        ensures reply { IfOk result (λ acted. acted_on (state self.old) cpu call ≡ (acted.reply, state self.new)) }
        ensures code { IfOk result (λ acted. acted.code ≡ entered_on (state self.old) cpu call acted.reply) }
        ensures gone { IfOk result (λ acted. acted.gone ≡ has_left (state self.old) cpu (state self.new)) }
        ensures memory { OnErr result (IsTrue (wants call)) }
        ensures err { OnErr result (state self.new ≡ state self.old) };

    /// The same of a call that stays where it stands (`docs/RULES.md`, "Steps of processors"), for a kernel that need
    /// not copy a call to make it. NoMemory is that of `act`.
    fn answer(&mut self, alloc: Global, cpu: Cpu, call: &Call) -> Result<Acted, NoMemory>
        requires runs { IsSome (runner (state self.old) cpu) }
        requires below { IsTrue (may_step (state self.old)) }
        ensures reply { IfOk result (λ acted. acted_on (state self.old) cpu call.now ≡ (acted.reply, state self.new)) }
        ensures code { IfOk result (λ acted. acted.code ≡ entered_on (state self.old) cpu call.now acted.reply) }
        ensures gone { IfOk result (λ acted. acted.gone ≡ has_left (state self.old) cpu (state self.new)) }
        ensures memory { OnErr result (IsTrue (wants call.now)) }
        ensures err { OnErr result (state self.new ≡ state self.old) }
    {
        self.act(alloc, cpu, *call)
    }

    /// Gives the processor the first ready process. None exactly where none is ready; then nothing
    /// changes.
    fn dispatch(&mut self, cpu: Cpu) -> Option<Proc>
        requires cpu { cpu.0 < 16 }
        requires idle { runner (state self.old) cpu ≡ None }
        requires below { IsTrue (may_step (state self.old)) }
        ensures given { IfSome result (λ proc. dispatched (state self.old) cpu ≡ Some (proc, state self.new)) }
        ensures none { IfNone result ((dispatched (state self.old) cpu ≡ None) × (state self.new ≡ state self.old)) };

    /// Ends the process that the processor runs, with all its incarnations.
    fn halt(&mut self, cpu: Cpu)
        requires runs { IsSome (runner (state self.old) cpu) }
        requires below { IsTrue (may_step (state self.old)) }
        ensures { state self.new ≡ halted_on (state self.old) cpu };

    /// The process that the processor runs, and its current incarnation. None exactly where it runs
    /// nothing.
    fn current(&self, cpu: Cpu) -> Option<(Proc, Inc)>
        ensures { result ≡ running_on (state self.now) cpu };

    /// Whether no process is ready and none runs.
    fn over(&self) -> bool
        ensures { result ≡ is_over (state self.now) };

    /// Whether the events number the limit.
    fn limit_reached(&self) -> bool
        ensures { result ≡ not (may_step (state self.now)) };

    /// The state as plain data. NoMemory is want of memory.
    fn snapshot(&self, alloc: Global) -> Result<Snapshot, NoMemory>
        ensures { IfOk result (λ s. s ≡ shown (state self.now)) };
}
