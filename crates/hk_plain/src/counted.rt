//! The writes of objects and processes that change what is named: the numbers follow them.

ghost use Rattle.std.specs.Prelude.{◌≡◌, ◌<◌, length, slice_set, ◌++◌, ◌∷◌, [], OnOk, OnErr, is_some, false, None};
ghost use Rattle.std.specs.Map.{lookup, set_value, remove_entry};
ghost use Rattle.std.specs.BTreeMap.{IsOrdered, insert_entry};
ghost use Rattle.hk_model.specs.State.{same_name, name_cmp};
ghost use Rattle.hk_model.specs.declared.objects.ProcessState.TheVariants.{Running};
ghost use Rattle.hk_model.specs.Processors.{is_running, runner_from};
ghost use Rattle.hk_running.specs.Runners.{with_run};
ghost use Rattle.hk_plain.specs.Counts.{Moved, inner_names, waiting_names, object_in};
ghost use Rattle.hk_plain.specs.Removing.{HasObjectsRoom, ObjectsWent};

use crate::copies;
use crate::counts::Counts;
use crate::removed::Removed;
use hk_model::{Cpu, Entry, Name, NoMemory, Object, Proc, ProcessState, Template};
use hk_running::Processes;
use std::alloc::Global;
use std::collections::BTreeMap;
use std::marker::PhantomData;

/// One more object, with what it names.
pub(crate) fn insert(
    objects: &mut BTreeMap<Name, Object>,
    name: Name,
    new: Object,
    counts: &mut Counts,
) -> Result<(), NoMemory>
    ensures ok { OnOk result (objects.new.entries ≡ insert_entry name_cmp objects.old.entries name new) }
    ensures was_ordered { IsOrdered name_cmp objects.old }
    ensures err { OnErr result (objects.new.entries ≡ objects.old.entries) }
    ensures counted { Moved counts.old counts.new (inner_names objects.new.entries) (inner_names objects.old.entries) }
{
    counts.hold_object(&new);
    match objects.insert(name, new) {
        Ok(None) => Ok(()),
        Ok(Some(old)) => {
            counts.release_object(&old);
            Ok(())
        }
        Err(failed) => {
            counts.release_object(&failed.value.1);
            Err(NoMemory)
        }
    }
}

/// The object goes, with what it names.
pub(crate) fn remove(
    objects: &mut BTreeMap<Name, Object>,
    name: Name,
    counts: &mut Counts,
    removed: &mut Removed,
)
    requires { HasObjectsRoom removed.old (length objects.old.entries) }
    ensures objects { objects.new.entries ≡ remove_entry (same_name name) objects.old.entries }
    ensures counted { Moved counts.old counts.new (inner_names objects.new.entries) (inner_names objects.old.entries) }
    ensures went { ObjectsWent objects.old.entries objects.new.entries removed.old removed.new }
{
    let _many = objects.len();
    if let Some(gone) = objects.remove(&name) {
        counts.release_object(&gone);
        removed.add_object(name, gone);
    }
}

/// Writes an entry of an object's list, over another.
#[tactic(auto, using(crate::proofs::Maps::set_value_absent))]
pub(crate) fn set_entry(
    objects: &mut BTreeMap<Name, Object>,
    name: Name,
    at: usize,
    entry: Entry,
    counts: &mut Counts,
)
    ensures objects { objects.new.entries ≡ set_value (same_name name) objects.old.entries (record (object_in objects.old.entries name) { entries = slice_set (object_in objects.old.entries name).entries at entry }) }
    ensures counted { Moved counts.old counts.new (inner_names objects.new.entries) (inner_names objects.old.entries) }
{
    if let Some(object) = objects.get_mut(&name) {
        counts.replace(&mut object.entries, at, entry);
    }
}

/// Adds an entry after the last of an object that has room for it.
#[tactic(auto, using(crate::proofs::Maps::set_value_absent, crate::proofs::Maps::set_value_same))]
pub(crate) fn push_entry(
    alloc: Global,
    objects: &mut BTreeMap<Name, Object>,
    name: Name,
    entry: Entry,
    counts: &mut Counts,
) -> Result<(), NoMemory>
    requires { length (object_in objects.old.entries name).entries < 256 }
    ensures ok { OnOk result (objects.new.entries ≡ set_value (same_name name) objects.old.entries (record (object_in objects.old.entries name) { entries = (object_in objects.old.entries name).entries ++ entry ∷ [] })) }
    ensures err { OnErr result (objects.new.entries ≡ objects.old.entries) }
    ensures counted { Moved counts.old counts.new (inner_names objects.new.entries) (inner_names objects.old.entries) }
{
    let _ = PhantomData::<Template>; // Rattle is to know what an Entry holds
    if let Some(object) = objects.get_mut(&name) {
        counts.hold_entry(&entry);
        if copies::push_entry(alloc, &mut object.entries, entry).is_err() {
            counts.release_entry(&entry);
            return Err(NoMemory);
        }
    }
    Ok(())
}

/// Changes what a process does: it does not run then.
pub(crate) fn set_run(processes: &mut Processes, proc: Proc, run: ProcessState, counts: &mut Counts)
    requires { is_running run ≡ false }
    ensures value { processes.new ≡ with_run processes.old proc run }
    ensures counted { Moved counts.old counts.new (waiting_names processes.new) (waiting_names processes.old) }
{
    let at = proc.0 as usize;
    if at < processes.as_slice().len() {
        let before = processes.as_slice()[at].run;
        counts.hold_run(run);
        counts.release_run(before);
        processes.set_run(proc, run);
    }
}

/// The process runs on a processor that runs nothing.
pub(crate) fn start(processes: &mut Processes, proc: Proc, cpu: Cpu, counts: &mut Counts)
    requires cpu { cpu.0 < 16 }
    requires idle { runner_from processes.old cpu 0 ≡ None }
    ensures value { processes.new ≡ with_run processes.old proc (Running cpu) }
    ensures counted { Moved counts.old counts.new (waiting_names processes.new) (waiting_names processes.old) }
{
    let at = proc.0 as usize;
    if at < processes.as_slice().len() {
        counts.release_run(processes.as_slice()[at].run);
        processes.start(proc, cpu);
    }
}
