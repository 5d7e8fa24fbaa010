//! The plain kernel.

ghost use Rattle.std.specs.Prelude.{◌≡◌, ◌↔◌, [], false, IfOk, OnOk, OnErr, option_copied};
ghost use Rattle.std.specs.Map.{lookup};
ghost use Rattle.hk_model.specs.Opening.{opening};
ghost use Rattle.hk_model.specs.State.{same_name, same_inc};
ghost use Rattle.hk_plain.specs.Changes.{IsBehind, taken_back};
ghost use Rattle.hk_plain.specs.Forward.{CanGo, IsDone, IsIdle, IsDispatchDone, RunsOn, IsCallDone, IsHaltDone, IsInverse};

use crate::inverse::Inverse;
use crate::removed::Removed;
use crate::tables::Tables;
use hk_model::{
    Acted, Call, Cpu, Inc, Incarnation, Kernel, Name, NoMemory, Object, Proc, Snapshot, What, World,
};
use std::alloc::Global;
use std::marker::Model;

/// The plain kernel: its state in ordered maps, and each call as its row of the rule table says
/// (`docs/RULES.md`, "Steps of processors"). Contracts see the state.
#[derive(Drop)]
pub struct Plain {
    tables: Tables,
}

impl Model for Plain {
    ghost use Rattle.hk_model.specs.State.{State};
    ghost use Rattle.hk_plain.specs.Changes.{IsWhole};

    ghost Value = { State };

    ghost view = { λ k. k.tables };

    ghost invariant = { λ k. IsWhole k.tables };
}

impl Plain {
    /// The kernel in the state in which a world opens (`docs/RULES.md`, "The opening"). NoMemory
    /// is want of memory.
    pub fn new(alloc: Global, world: &World) -> Result<Plain, NoMemory>
        ensures { IfOk result (λ k. k ≡ opening world.now) }
    {
        let tables = Tables::open(alloc, world)?;
        Ok(Plain { tables })
    }

    /// The object of a name. None exactly where no object has it.
    pub fn object(&self, name: Name) -> Option<&Object>
        ensures { option_copied result ≡ lookup (same_name name) self.now.objects }
    {
        self.tables.object(name)
    }

    /// The live incarnation of a number. None exactly where no live one has it.
    pub fn incarnation(&self, inc: Inc) -> Option<&Incarnation>
        ensures { option_copied result ≡ lookup (same_inc inc) self.now.incarnations }
    {
        self.tables.incarnations.get(inc)
    }

    /// The name that the next object takes.
    pub fn next_name(&self) -> Name
        ensures { result ≡ self.now.next_name }
    {
        self.tables.next_name
    }

    /// The number that the next incarnation takes.
    pub fn next_inc(&self) -> Inc
        ensures { result ≡ self.now.next_inc }
    {
        self.tables.incarnations.next()
    }

    /// Takes an event back: the state is the one before it, with all that went by it. NoMemory is
    /// want of memory for what is put back; it changes nothing.
    pub fn undo(&mut self, alloc: Global, inverse: &Inverse) -> Result<(), NoMemory>
        requires behind { IsBehind inverse.now self.old }
        ensures ok { OnOk result (self.new ≡ taken_back inverse.now self.old) }
        ensures err { OnErr result (self.new ≡ self.old) }
    {
        self.tables.take_back(alloc, inverse)
    }

    /// Whether a process is ready.
    pub fn any_ready(&self) -> bool
        ensures { (result ≡ false) ↔ (self.now.ready ≡ []) }
    {
        !self.tables.ready.is_empty()
    }

    /// The same event as by `dispatch`, `act` or `halt`, with what takes it back. A dispatch is asked
    /// for where a process is ready. NoMemory is no event and changes nothing.
    pub fn forward(
        &mut self,
        alloc: Global,
        cpu: Cpu,
        what: &What,
    ) -> Result<(Acted, Inverse), NoMemory>
        requires { CanGo self.old cpu what.now }
        ensures done { IfOk result (λ r. IsDone self.old cpu what.now r.0 self.new) }
        ensures back { IfOk result (λ r. taken_back r.1 self.new ≡ self.old) }
        ensures behind { IfOk result (λ r. IsBehind r.1 self.new) }
        ensures err { OnErr result (self.new ≡ self.old) }
    {
        match what {
            What::Dispatch => Ok(self.forward_dispatch(alloc, cpu)),
            What::Call(call) => self.forward_call(alloc, cpu, call),
            What::Halt => self.forward_halt(alloc, cpu),
        }
    }

    /// The processor gets the first ready process.
    fn forward_dispatch(&mut self, alloc: Global, cpu: Cpu) -> (Acted, Inverse)
        requires { IsIdle self.old cpu }
        ensures done { IsDispatchDone self.old cpu result.0 self.new }
        ensures inverse { IsInverse result.1 self.old self.new }
    {
        match self.tables.dispatch_forward(alloc, cpu) {
            Some(done) => done,
            None => unreachable!(),
        }
    }

    /// A call of the process that the processor runs.
    fn forward_call(
        &mut self,
        alloc: Global,
        cpu: Cpu,
        call: &Call,
    ) -> Result<(Acted, Inverse), NoMemory>
        requires { RunsOn self.old cpu }
        ensures done { IfOk result (λ r. IsCallDone self.old cpu call.now r.0 self.new) }
        ensures inverse { IfOk result (λ r. IsInverse r.1 self.old self.new) }
        ensures err { OnErr result (self.new ≡ self.old) }
    {
        match self.tables.runner(cpu) {
            Some(proc) => self.tables.call_forward(alloc, proc, call),
            None => unreachable!(),
        }
    }

    /// The process that the processor runs ends.
    fn forward_halt(&mut self, alloc: Global, cpu: Cpu) -> Result<(Acted, Inverse), NoMemory>
        requires { RunsOn self.old cpu }
        ensures done { IfOk result (λ r. IsHaltDone self.old cpu r.0 self.new) }
        ensures inverse { IfOk result (λ r. IsInverse r.1 self.old self.new) }
        ensures err { OnErr result (self.new ≡ self.old) }
    {
        match self.tables.runner(cpu) {
            Some(proc) => self.tables.halt_forward(alloc, proc),
            None => unreachable!(),
        }
    }
}

impl Kernel for Plain {
    ghost use Rattle.hk_model.specs.State.{State};
    ghost use Rattle.std.specs.Prelude.{true};

    ghost state = { λ k. k };

    ghost wants = { λ _. true };

    fn act(&mut self, alloc: Global, cpu: Cpu, call: Call) -> Result<Acted, NoMemory> {
        match self.tables.runner(cpu) {
            Some(proc) => {
                let mut removed = Removed::dropped();
                self.tables.act(alloc, proc, &call, &mut removed)
            }
            None => unreachable!(),
        }
    }

    fn dispatch(&mut self, cpu: Cpu) -> Option<Proc> {
        self.tables.dispatch(cpu)
    }

    fn halt(&mut self, cpu: Cpu) {
        match self.tables.runner(cpu) {
            Some(proc) => {
                let mut removed = Removed::dropped();
                self.tables.halt(proc, &mut removed);
            }
            None => unreachable!(),
        }
    }

    fn current(&self, cpu: Cpu) -> Option<(Proc, Inc)> {
        let proc = self.tables.runner(cpu)?;
        Some((proc, self.tables.current_of(proc)))
    }

    fn over(&self) -> bool {
        self.tables.over()
    }

    fn limit_reached(&self) -> bool {
        self.tables.limit_reached()
    }

    fn snapshot(&self, alloc: Global) -> Result<Snapshot, NoMemory> {
        Ok(self.tables.shown(alloc)?)
    }
}
