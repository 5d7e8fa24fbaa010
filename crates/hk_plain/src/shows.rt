//! The state as plain data.

ghost use Rattle.std.specs.Prelude.{◌≡◌, IfOk, map};
ghost use Rattle.hk_model.specs.declared.objects.Process.{Process};
ghost use Rattle.hk_model.specs.Snapshots.{seen, live, shown};

use crate::tables::Tables;
use hk_model::{
    Inc, Incarnation, Items, Live, Name, Object, Proc, Process, ProcessState, Seen, Snapshot,
};
use std::alloc::{AllocError, Global};
use std::collections::{BTreeMap, VecDeque};

/// An object with its name.
fn seen(alloc: Global, name: Name, object: &Object) -> Result<Seen, AllocError>
    ensures { IfOk result (λ s. s ≡ seen (name, object.now)) }
{
    let words = object.words.copy(alloc)?;
    let entries = object.entries.copy(alloc)?;
    let waiters = object.waiters.copy(alloc)?;
    let params = object.params.copy(alloc)?;
    Ok(Seen {
        name,
        of: object.of,
        words,
        entries,
        count: object.count,
        waiters,
        code: object.code,
        params,
    })
}

/// All objects with their names.
fn all_seen(alloc: Global, objects: &BTreeMap<Name, Object>) -> Result<Items<Seen>, AllocError>
    ensures { IfOk result (λ v. v ≡ map seen objects.now.entries) }
{
    let mut all = Vec::new(alloc);
    for (name, object) in objects {
        all.push(seen(alloc, *name, object)?)?;
    }
    Ok(Items::from_vec(all))
}

/// An incarnation with its number.
fn live(alloc: Global, inc: Inc, incarnation: &Incarnation) -> Result<Live, AllocError>
    ensures { IfOk result (λ s. s ≡ live (inc, incarnation.now)) }
{
    let slots = incarnation.slots.copy(alloc)?;
    Ok(Live {
        inc,
        proc: incarnation.proc,
        procedure: incarnation.procedure,
        caller: incarnation.caller,
        into: incarnation.into,
        confined: incarnation.confined,
        slots,
    })
}

/// All incarnations with their numbers.
fn all_live(
    alloc: Global,
    incarnations: &BTreeMap<Inc, Incarnation>,
) -> Result<Items<Live>, AllocError>
    ensures { IfOk result (λ v. v ≡ map live incarnations.now.entries) }
{
    let mut all = Vec::new(alloc);
    for (inc, incarnation) in incarnations {
        all.push(live(alloc, *inc, incarnation)?)?;
    }
    Ok(Items::from_vec(all))
}

/// What each process does.
fn all_runs(alloc: Global, processes: &[Process]) -> Result<Items<ProcessState>, AllocError>
    ensures { IfOk result (λ v. v ≡ map (λ (p : Process). p.run) processes.now) }
{
    let mut all = Vec::new(alloc);
    for process in processes {
        all.push(process.run)?;
    }
    Ok(Items::from_vec(all))
}

/// The processes in a queue.
fn all_queued(alloc: Global, queue: &VecDeque<Proc>) -> Result<Items<Proc>, AllocError>
    ensures { IfOk result (λ v. v ≡ queue.now.items) }
{
    let mut all = Vec::new(alloc);
    for i in 0..queue.len() {
        all.push(queue[i])?;
    }
    Ok(Items::from_vec(all))
}

impl Tables {
    /// The state as plain data.
    pub(crate) fn shown(&self, alloc: Global) -> Result<Snapshot, AllocError>
        ensures { IfOk result (λ s. s ≡ shown self.now) }
    {
        let objects = all_seen(alloc, &self.objects)?;
        let incarnations = all_live(alloc, self.incarnations.all())?;
        let processes = all_runs(alloc, self.processes.as_slice())?;
        let ready = all_queued(alloc, &self.ready)?;
        Ok(Snapshot {
            objects,
            incarnations,
            processes,
            ready,
            next_name: self.next_name,
            next_inc: self.incarnations.next(),
            events: self.events,
            limit: self.limit,
        })
    }
}
