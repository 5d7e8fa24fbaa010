//! The state as plain data.

ghost use Rattle.std.specs.Prelude.{◌≡◌, IfOk, map};
ghost use Rattle.hk_model.specs.declared.objects.Process.{Process};
ghost use Rattle.hk_model.specs.Snapshots.{shown};

use crate::parts::Parts;
use crate::queued::ready_of;
use crate::shown::{all_incarnations, all_live, all_objects, all_seen};
use hk_model::{Items, NoMemory, Process, ProcessState, Snapshot};
use std::alloc::Global;

/// What each process does.
fn all_runs(alloc: Global, processes: &[Process]) -> Result<Items<ProcessState>, NoMemory>
    ensures { IfOk result (λ v. v ≡ map (λ (p : Process). p.run) processes.now) }
{
    let mut all = Vec::new(alloc);
    for process in processes {
        all.push(process.run)?;
    }
    Ok(Items::from_vec(all))
}

impl Parts {
    /// The state as plain data. NoMemory is want of memory.
    pub(crate) fn shown(&self, alloc: Global) -> Result<Snapshot, NoMemory>
        ensures { IfOk result (λ s. s ≡ shown self.now) }
    {
        let next_name = self.objects.next_name();
        let processes = all_runs(alloc, self.processes.as_slice())?;
        let standing = all_objects(alloc, &self.objects, &self.queues)?;
        let objects = all_seen(alloc, standing)?;
        let live = all_incarnations(alloc, self.stacks.as_slice())?;
        let incarnations = all_live(alloc, live)?;
        let ready = ready_of(alloc, &self.queues)?;
        Ok(Snapshot {
            objects,
            incarnations,
            processes,
            ready,
            next_name,
            next_inc: self.stacks.next(),
            events: self.events,
            limit: self.limit,
        })
    }
}
