//! The state of the kernel in ordered maps, and the writes that the calls share.

ghost use Rattle.std.specs.Prelude.{◌≡◌, ◌<◌, false, None, OnOk, OnErr, option_copied, ◌++◌, ◌∷◌, []};
ghost use Rattle.std.specs.Map.{lookup};
ghost use Rattle.hk_model.specs.State.{object, process, same_name, put_slot, put_process};
ghost use Rattle.hk_model.specs.declared.objects.ProcessState.TheVariants.{Running};
ghost use Rattle.hk_model.specs.Processors.{is_running, runner};

use crate::counted::{set_run, start};
use crate::counts::Counts;
use crate::incarnations::Incarnations;
use hk_model::{Cpu, Entry, Inc, Name, NoMemory, Object, Proc, ProcessState};
use hk_running::Processes;
use std::collections::{BTreeMap, VecDeque};
use std::marker::Model;

/// The state of the kernel (`docs/RULES.md`, "Objects, incarnations, processes").
#[derive(Drop)]
pub struct Tables {
    pub(crate) objects: BTreeMap<Name, Object>,
    pub(crate) incarnations: Incarnations,
    pub(crate) processes: Processes,
    pub(crate) ready: VecDeque<Proc>,
    pub(crate) next_name: Name,
    // How many times each made object is named.
    pub(crate) counts: Counts,
    pub(crate) events: u32,
    pub(crate) limit: u32,
}

impl Model for Tables {
    ghost use Rattle.hk_model.specs.State.{State};
    ghost use Rattle.hk_plain.specs.Counts.{AreCounted};

    ghost Value = { State };

    ghost view = { λ t. record {
      objects = t.objects.entries;
      incarnations = t.incarnations.live;
      processes = t.processes;
      ready = t.ready.items;
      next_name = t.next_name;
      next_inc = t.incarnations.next;
      first_new = t.counts.first_new;
      events = t.events;
      limit = t.limit;
    } };

    ghost invariant = { λ t. AreCounted t.incarnations.live t.processes t.objects.entries t.counts };
}

impl Tables {
    /// The object of a name.
    pub(crate) fn object(&self, name: Name) -> Option<&Object>
        ensures { option_copied result ≡ lookup (same_name name) self.now.objects }
    {
        self.objects.get(&name)
    }

    /// Writes an entry into a slot of an incarnation.
    pub(crate) fn set_slot(&mut self, inc: Inc, slot: usize, entry: Entry)
        ensures { self.new ≡ put_slot self.old inc slot entry }
    {
        self.incarnations
            .set_slot(inc, slot, entry, &mut self.counts);
    }

    /// Changes what a process does: it does not run then.
    pub(crate) fn set_run(&mut self, proc: Proc, run: ProcessState)
        requires { is_running run ≡ false }
        ensures { self.new ≡ put_process self.old proc (record (process self.old proc) { run = run }) }
    {
        set_run(&mut self.processes, proc, run, &mut self.counts);
    }

    /// The process runs on a processor that runs nothing.
    pub(crate) fn start(&mut self, proc: Proc, cpu: Cpu)
        requires cpu { cpu.0 < 16 }
        requires idle { runner self.old cpu ≡ None }
        ensures { self.new ≡ put_process self.old proc (record (process self.old proc) { run = Running cpu }) }
    {
        start(&mut self.processes, proc, cpu, &mut self.counts);
    }

    /// Changes the current incarnation of a process.
    pub(crate) fn set_current(&mut self, proc: Proc, inc: Inc)
        ensures { self.new ≡ put_process self.old proc (record (process self.old proc) { current = inc }) }
    {
        self.processes.set_current(proc, inc);
    }

    /// A process at the end of the ready list.
    pub(crate) fn push_ready(&mut self, proc: Proc) -> Result<(), NoMemory>
        ensures ok { OnOk result (self.new ≡ record self.old { ready = self.old.ready ++ proc ∷ [] }) }
        ensures err { OnErr result (self.new ≡ self.old) }
    {
        self.ready.push_back(proc)?;
        Ok(())
    }
}
