//! What processors run: the dispatch, the halt, and who runs where.

ghost use Rattle.std.specs.Prelude.{◌≡◌, ◌<◌, ◌≤◌, ◌+◌, ◌^◌, ◌∷◌, [], ◌==◌, ◌||◌, not, length, IsTrue, IfSome, IfNone, Some, None, filter};
ghost use Rattle.std.specs.List.{list_any};
ghost use Rattle.hk_model.specs.declared.objects.Process.{Process};
ghost use Rattle.hk_model.specs.State.{process};
ghost use Rattle.hk_model.specs.Rule.{counted};
ghost use Rattle.hk_plain.specs.Changes.{IsWhole, halt_saved};
ghost use Rattle.hk_plain.specs.Removing.{HasRoom, HasIncarnationsRoom, IncarnationsWent, IsUndone};
ghost use Rattle.hk_model.specs.Processors.{runner, runner_from, is_on, is_ready, is_running, may_step, dispatched, halted, is_over};

use crate::removed::Removed;
use crate::tables::Tables;
use hk_model::{Cpu, Inc, Proc, ProcessState};

impl Tables {
    /// The process that a processor runs.
    pub(crate) fn runner(&self, cpu: Cpu) -> Option<Proc>
        ensures { result ≡ runner self.now cpu }
    {
        self.processes.runner(cpu)
    }

    /// The current incarnation of a process.
    pub(crate) fn current_of(&self, proc: Proc) -> Inc
        ensures { result ≡ (process self.now proc).current }
    {
        match self.processes.as_slice().get(proc.0 as usize) {
            Some(process) => process.current,
            None => Inc(0),
        }
    }

    /// Whether a process does not run.
    pub(crate) fn rests(&self, proc: Proc) -> bool
        ensures { result ≡ not (is_running (process self.now proc).run) }
    {
        match self.processes.as_slice().get(proc.0 as usize) {
            Some(process) => match process.run {
                ProcessState::Running(_) => false,
                _ => true,
            },
            None => true,
        }
    }

    /// The number of events with one more.
    pub(crate) fn next_event(&self) -> u32
        requires { IsTrue (may_step self.now) }
        ensures value { result ≡ self.now.events + 1 }
        ensures small { self.now.events < 2 ^ 32 }
    {
        let _limit = self.limit;
        self.events + 1
    }

    /// Whether the events number the limit.
    pub(crate) fn limit_reached(&self) -> bool
        ensures { result ≡ not (may_step self.now) }
    {
        self.events >= self.limit
    }

    /// Writes the number of events.
    pub(crate) fn set_events(&mut self, events: u32)
        ensures { self.new ≡ counted events self.old }
    {
        self.events = events;
    }

    /// Takes the first ready process from its list.
    fn take_ready(&mut self) -> Option<Proc>
        ensures some { IfSome result (λ proc. (self.old.ready ≡ proc ∷ self.new.ready) × (self.new ≡ record self.old { ready = self.new.ready })) }
        ensures none { IfNone result ((self.old.ready ≡ []) × (self.new ≡ self.old)) }
    {
        self.ready.pop_front()
    }

    /// Gives the processor the first ready process.
    #[tactic(auto, using(crate::proofs::WholeStays::dispatched_whole))]
    pub(crate) fn dispatch(&mut self, cpu: Cpu) -> Option<Proc>
        requires cpu { cpu.0 < 16 }
        requires idle { runner self.old cpu ≡ None }
        requires below { IsTrue (may_step self.old) }
        ensures given { IfSome result (λ proc. dispatched self.old cpu ≡ Some (proc, self.new)) }
        ensures none { IfNone result ((dispatched self.old cpu ≡ None) × (self.new ≡ self.old)) }
        ensures whole { IsWhole self.old → IsWhole self.new }
    {
        let events = self.next_event();
        let first = self.take_ready()?;
        self.start(first, cpu);
        self.set_events(events);
        Some(first)
    }

    /// All incarnations of a process go.
    fn remove_incarnations(&mut self, proc: Proc, removed: &mut Removed)
        requires { HasIncarnationsRoom removed.old (length self.old.incarnations) }
        ensures value { self.new ≡ record self.old { incarnations = filter (λ e. not (e.1.proc.0 == proc.0)) self.old.incarnations } }
        ensures went { IncarnationsWent self.old.incarnations self.new.incarnations removed.old removed.new }
    {
        let counts = &mut self.counts;
        self.incarnations.remove_process(proc, counts, removed);
    }

    /// Ends a process, with all its incarnations. What nothing names then vanishes.
    pub(crate) fn halt(&mut self, proc: Proc, removed: &mut Removed)
        requires below { IsTrue (may_step self.old) }
        requires room { HasRoom self.old removed.old }
        ensures value { self.new ≡ halted self.old proc }
        ensures whole { IsWhole self.old → IsWhole self.new }
        ensures back { IsUndone (halt_saved self.old proc) self.old self.new removed.old removed.new }
    {
        let events = self.next_event();
        self.set_run(proc, ProcessState::Ended);
        self.remove_incarnations(proc, removed);
        self.remove_lost(removed);
        self.set_events(events);
    }

    /// Whether no process is ready and none runs.
    pub(crate) fn over(&self) -> bool
        ensures { result ≡ is_over self.now }
    {
        !self.processes.some_live()
    }
}
