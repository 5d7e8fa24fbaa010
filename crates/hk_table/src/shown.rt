//! The objects and incarnations by rising number.

ghost use Rattle.std.specs.Prelude.{◌≡◌, ◌<◌, ◌≤◌, ℕ, true, None, length, map, IfOk, IfSome, IsSome, OnOk};
ghost use Rattle.hk_model.specs.declared.names.Proc.{Proc};
ghost use Rattle.hk_model.specs.Snapshots.{seen, live};
ghost use Rattle.hk_objects.specs.Slots.{standing, place};
ghost use Rattle.hk_queues.specs.Queued.{waiters, is_queued};
ghost use Rattle.hk_table.specs.Whole.{whole, whole_object};
ghost use Rattle.hk_table.specs.Stacked.{caller_at, incarnation_of, live_with, live_from};

use crate::queued::waiters_of;
use hk_model::{
    Entries, Inc, Incarnation, Items, Live, Name, NoMemory, Object, Params, Proc, Seen, Words,
};
use hk_objects::{Objects, SlotNo};
use hk_queues::Queues;
use hk_spaces::{Stack, StackFrame};
use std::alloc::Global;
use std::collections::BTreeMap;

/// The object in a slot, with these processes, who wait there.
fn object_in(
    alloc: Global,
    objects: &Objects,
    slot: SlotNo,
    waiters: Items<Proc>,
) -> Result<Object, NoMemory>
    requires { IsSome (place objects.now.slots slot.0) }
    ensures { IfOk result (λ o. IfSome (place objects.now.slots slot.0) (λ e. o ≡ whole_object e.1 waiters)) }
{
    let words = Words::from_vec(Vec::from_slice(alloc, objects.words(slot))?);
    let entries = Entries::from_vec(Vec::from_slice(alloc, objects.entries(slot))?);
    let params = Params::from_vec(Vec::from_slice(alloc, objects.params(slot))?);
    Ok(Object {
        of: objects.of(slot),
        words,
        entries,
        count: objects.count(slot),
        waiters,
        code: objects.code(slot),
        params,
    })
}

/// The object in a slot, with who waits there.
fn object_at(
    alloc: Global,
    objects: &Objects,
    queues: &Queues,
    slot: u32,
) -> Result<Object, NoMemory>
    requires stands { IsSome (place objects.now.slots slot) }
    requires slot { slot < length queues.now.waiting }
    requires known { (proc : Proc) → is_queued proc (waiters queues.now slot) ≡ true → proc.0 < queues.now.processes }
    ensures { IfOk result (λ o. IfSome (place objects.now.slots slot) (λ e. o ≡ whole_object e.1 (waiters queues.now slot))) }
{
    let waiters = waiters_of(alloc, queues, slot)?;
    object_in(alloc, objects, SlotNo(slot), waiters)
}

/// What stands in a slot, with who waits there.
fn placed_at(
    alloc: Global,
    objects: &Objects,
    queues: &Queues,
    slot: u32,
) -> Result<Option<(Name, Object)>, NoMemory>
    requires slot { slot < length queues.now.waiting }
    requires known { (proc : Proc) → is_queued proc (waiters queues.now slot) ≡ true → proc.0 < queues.now.processes }
    ensures { IfOk result (λ o. o ≡ place (whole objects.now.slots queues.now.waiting) slot) }
{
    match objects.name_of(SlotNo(slot)) {
        None => Ok(None),
        Some(name) => {
            let object = object_at(alloc, objects, queues, slot)?;
            Ok(Some((name, object)))
        }
    }
}

/// The objects by rising name.
pub(crate) fn all_objects(
    alloc: Global,
    objects: &Objects,
    queues: &Queues,
) -> Result<BTreeMap<Name, Object>, NoMemory>
    requires room { length objects.now.slots ≡ 65536 }
    requires lists { length queues.now.waiting ≡ 65536 }
    requires known { (slot : ℕ) (proc : Proc) → is_queued proc (waiters queues.now slot) ≡ true → proc.0 < queues.now.processes }
    ensures { IfOk result (λ all. all.entries ≡ standing (whole objects.now.slots queues.now.waiting)) }
{
    let mut all = BTreeMap::new(alloc);
    let mut slot = 65536u32;
    while slot > 0 {
        slot -= 1;
        if let Some((name, object)) = placed_at(alloc, objects, queues, slot)? {
            all.insert(name, object)?;
        }
    }
    Ok(all)
}

/// The incarnation of a frame.
fn incarnation_of(
    alloc: Global,
    proc: Proc,
    caller: Option<Inc>,
    frame: &StackFrame,
) -> Result<Incarnation, NoMemory>
    ensures { IfOk result (λ i. i ≡ incarnation_of proc caller frame.now) }
{
    let slots = Entries::from_vec(Vec::from_slice(alloc, frame.space.as_slice())?);
    Ok(Incarnation {
        proc,
        procedure: frame.procedure,
        caller,
        into: frame.into,
        confined: frame.confined,
        slots,
    })
}

/// The caller of the frame at a depth: the one below it, and none for the base.
fn caller_of(stack: &Stack, at: usize) -> Option<Inc>
    requires { at < length stack.now }
    ensures { result ≡ caller_at None stack.now at }
{
    if at == 0 {
        return None;
    }
    Some(stack.frame(at - 1).inc)
}

/// The incarnations of a process put among others.
fn add_frames(
    alloc: Global,
    proc: Proc,
    stack: &Stack,
    all: &mut BTreeMap<Inc, Incarnation>,
) -> Result<(), NoMemory>
    ensures { OnOk result (all.new.entries ≡ live_with proc None stack.now all.old.entries) }
{
    let mut at = stack.depth();
    while at > 0 {
        at -= 1;
        let frame = stack.frame(at);
        let incarnation = incarnation_of(alloc, proc, caller_of(stack, at), frame)?;
        all.insert(frame.inc, incarnation)?;
    }
    Ok(())
}

/// The live incarnations by rising number.
pub(crate) fn all_incarnations(
    alloc: Global,
    stacks: &[Stack],
) -> Result<BTreeMap<Inc, Incarnation>, NoMemory>
    requires { length stacks.now ≤ 256 }
    ensures { IfOk result (λ all. all.entries ≡ live_from 0 stacks.now) }
{
    let mut all = BTreeMap::new(alloc);
    let mut n = stacks.len();
    while n > 0 {
        n -= 1;
        add_frames(alloc, Proc(n as u16), &stacks[n], &mut all)?;
    }
    Ok(all)
}

/// The objects with their names.
pub(crate) fn all_seen(
    alloc: Global,
    objects: BTreeMap<Name, Object>,
) -> Result<Items<Seen>, NoMemory>
    ensures { IfOk result (λ v. v ≡ map seen objects.entries) }
{
    let mut all = Vec::new(alloc);
    for (name, object) in objects {
        all.push(Seen {
            name,
            of: object.of,
            words: object.words,
            entries: object.entries,
            count: object.count,
            waiters: object.waiters,
            code: object.code,
            params: object.params,
        })?;
    }
    Ok(Items::from_vec(all))
}

/// The incarnations with their numbers.
pub(crate) fn all_live(
    alloc: Global,
    incarnations: BTreeMap<Inc, Incarnation>,
) -> Result<Items<Live>, NoMemory>
    ensures { IfOk result (λ v. v ≡ map live incarnations.entries) }
{
    let mut all = Vec::new(alloc);
    for (inc, incarnation) in incarnations {
        all.push(Live {
            inc,
            proc: incarnation.proc,
            procedure: incarnation.procedure,
            caller: incarnation.caller,
            into: incarnation.into,
            confined: incarnation.confined,
            slots: incarnation.slots,
        })?;
    }
    Ok(Items::from_vec(all))
}
