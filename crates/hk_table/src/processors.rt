//! What processors run: the dispatch, the halt, and who runs where.

ghost use Rattle.std.specs.Prelude.{◌≡◌, ◌<◌, ◌+◌, ◌^◌, true, length, not, IsTrue, IfSome, IfNone, Some, None};
ghost use Rattle.hk_model.specs.State.{process};
ghost use Rattle.hk_model.specs.Rule.{counted};
ghost use Rattle.hk_model.specs.Processors.{runner, running_on, is_running, may_step, dispatched, halted, is_over};

use crate::parts::Parts;
use hk_model::{Cpu, Inc, Proc, ProcessState};

impl Parts {
    /// The process that the processor runs. None exactly where it runs nothing.
    pub(crate) fn runner(&self, cpu: Cpu) -> Option<Proc>
        ensures value { result ≡ runner self.now cpu }
        ensures known { IfSome result (λ proc. proc.0 < length self.now.processes) }
        ensures runs { IfSome result (λ proc. is_running (process self.now proc).run ≡ true) }
    {
        self.processes.runner(cpu)
    }

    /// Whether a process does not run.
    pub(crate) fn rests(&self, proc: Proc) -> bool
        ensures { result ≡ not (is_running (process self.now proc).run) }
    {
        match self.processes.as_slice().get(proc.0 as usize) {
            Some(process) => match process.run {
                ProcessState::Running(_) => false,
                _ => true,
            },
            None => true,
        }
    }

    /// The number of events with one more.
    pub(crate) fn next_event(&self) -> u32
        requires { IsTrue (may_step self.now) }
        ensures value { result ≡ self.now.events + 1 }
        ensures small { self.now.events < 2 ^ 32 }
    {
        let _limit = self.limit;
        self.events + 1
    }

    /// Writes the number of events.
    pub(crate) fn set_events(&mut self, events: u32)
        ensures { self.new ≡ counted events self.old }
    {
        self.events = events;
    }

    /// Ends a process that runs, with all its incarnations. What nothing names then vanishes.
    pub(crate) fn halt(&mut self, proc: Proc)
        requires runs { is_running (process self.old proc).run ≡ true }
        requires below { IsTrue (may_step self.old) }
        ensures { self.new ≡ halted self.old proc }
    {
        let events = self.next_event();
        self.end(proc);
        self.settle();
        self.set_events(events);
    }

    /// The process that the processor runs, and its current incarnation. None exactly where it runs nothing.
    pub(crate) fn current(&self, cpu: Cpu) -> Option<(Proc, Inc)>
        ensures { result ≡ running_on self.now cpu }
    {
        let proc = self.processes.runner(cpu)?;
        Some((proc, self.processes.current(proc)))
    }

    /// Whether no process is ready and none runs.
    pub(crate) fn over(&self) -> bool
        ensures { result ≡ is_over self.now }
    {
        !self.processes.some_live()
    }

    /// Whether the events number the limit.
    pub(crate) fn limit_reached(&self) -> bool
        ensures { result ≡ not (may_step self.now) }
    {
        self.events >= self.limit
    }

    /// Gives the processor the first ready process, which is one event. None exactly where none is ready; then nothing
    /// changes.
    pub(crate) fn dispatch(&mut self, cpu: Cpu) -> Option<Proc>
        requires cpu { cpu.0 < 16 }
        requires idle { runner self.old cpu ≡ None }
        requires below { IsTrue (may_step self.old) }
        ensures given { IfSome result (λ proc. dispatched self.old cpu ≡ Some (proc, self.new)) }
        ensures none { IfNone result ((dispatched self.old cpu ≡ None) × (self.new ≡ self.old)) }
    {
        let _limit = self.limit;
        let events = self.events + 1;
        let first = self.queues.next_ready()?;
        self.processes.start(first, cpu);
        self.events = events;
        Some(first)
    }
}
