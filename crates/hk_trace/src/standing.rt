//! What stands at a place, and along a path (`docs/RULES.md`, "Walks").

ghost use Rattle.std.specs.Prelude.{◌≡◌, ◌≤◌, length, map, IfOk, OnOk, ◌++◌};
ghost use Rattle.hk_model.specs.Places as places;
ghost use Rattle.hk_model.specs.Places.{walk_end, named_by, passed};
ghost use Rattle.hk_model.specs.Limits.{entry_limit};
ghost use Rattle.hk_trace.specs.Held.{held_entry, held_at, name_held};
ghost use Rattle.hk_trace.specs.Writings.{held_slots, held_list};

use crate::chains::{Place, Standing};
use hk_model::{Entry, Inc, Name, NoMemory, Path, Slot, Template};
use hk_plain::Plain;
use std::alloc::Global;
use std::marker::PhantomData;

/// An entry at a place, unless it is empty.
fn held_entry(place: Place, entry: Entry) -> Option<Standing>
    ensures { result ≡ held_entry place entry }
{
    let _ = PhantomData::<(Entry, Template)>; // Rattle is to know what an Entry holds
    match &entry {
        Entry::Empty => None,
        Entry::Held(_) => Some(Standing { place, entry }),
        Entry::Form(_) => Some(Standing { place, entry }),
    }
}

/// What stands in a slot of an incarnation.
pub(crate) fn at_slot(kernel: &Plain, inc: Inc, slot: u16) -> Option<Standing>
    ensures { result ≡ held_at kernel.now (places.SlotOf inc slot) }
{
    match kernel.incarnation(inc) {
        Some(incarnation) => match incarnation.slots.as_slice().get(slot as usize) {
            Some(entry) => {
                let slot = Slot(slot as u8);
                held_entry(Place::SlotOf { inc, slot }, *entry)
            }
            None => None,
        },
        None => None,
    }
}

/// What stands at an index of an object's list.
pub(crate) fn at_entry(kernel: &Plain, name: Name, index: u16) -> Option<Standing>
    ensures { result ≡ held_at kernel.now (places.EntryOf name index) }
{
    match kernel.object(name) {
        Some(object) => match object.entries.as_slice().get(index as usize) {
            Some(entry) => held_entry(Place::EntryOf { name, index }, *entry),
            None => None,
        },
        None => None,
    }
}

/// The object that a capability names; of a template, and of nothing, the name 0.
fn name_held(held: &Option<Standing>) -> Name
    ensures { result ≡ name_held held.now }
{
    match held {
        Some(standing) => match &standing.entry {
            Entry::Held(cap) => cap.name,
            Entry::Empty => Name(0),
            Entry::Form(_) => Name(0),
        },
        None => Name(0),
    }
}

/// What stands at the last step of a path.
#[tactic(auto, using(crate::proofs::HeldLemmas::at_end_begins))]
pub(crate) fn at_end(kernel: &Plain, inc: Inc, path: &Path) -> Option<Standing>
    ensures { result ≡ held_at kernel.now (walk_end kernel.now inc path.now) }
{
    let len = path.len();
    let mut held = at_slot(kernel, inc, path.at(0));
    for step in 1..len {
        held = at_entry(kernel, name_held(&held), path.at(step));
    }
    held
}

/// The object that the capability at the end of a path names.
#[tactic(auto, using(crate::proofs::HeldLemmas::held_named))]
pub(crate) fn named_by(kernel: &Plain, inc: Inc, path: &Path) -> Name
    ensures { result ≡ named_by kernel.now inc path.now }
{
    let held = at_end(kernel, inc, path);
    name_held(&held)
}

/// What stands at each step of a path. NoMemory is want of memory.
#[tactic(auto, using(crate::proofs::HeldLemmas::along_begins))]
pub(crate) fn along(
    alloc: Global,
    kernel: &Plain,
    inc: Inc,
    path: &Path,
) -> Result<Vec<Option<Standing>>, NoMemory>
    ensures { IfOk result (λ all. all.items ≡ map (held_at kernel.now) (passed kernel.now inc path.now)) }
{
    let _ = PhantomData::<(Entry, Template)>; // Rattle is to know what an Entry holds
    let mut all = Vec::with_capacity(alloc, path.len())?;
    let first = at_slot(kernel, inc, path.at(0));
    let mut name = name_held(&first);
    all.push(first)?;
    for step in 1..path.len() {
        let next = at_entry(kernel, name, path.at(step));
        name = name_held(&next);
        all.push(next)?;
    }
    Ok(all)
}

/// What stands in each of these slots of an incarnation. NoMemory is want of memory.
pub(crate) fn held_slots(
    alloc: Global,
    kernel: &Plain,
    inc: Inc,
    slots: &[u8],
) -> Result<Vec<Option<Standing>>, NoMemory>
    ensures { IfOk result (λ all. all.items ≡ held_slots kernel.now inc slots.now) }
{
    let _ = PhantomData::<(Entry, Template)>; // Rattle is to know what an Entry holds
    let mut all = Vec::new(alloc);
    for slot in slots {
        all.push(at_slot(kernel, inc, *slot as u16))?;
    }
    Ok(all)
}

/// What stands at each index of the list of an object, behind what is there. NoMemory is want of memory.
pub(crate) fn add_list(
    all: &mut Vec<Option<Standing>>,
    name: Name,
    entries: &[Entry],
) -> Result<(), NoMemory>
    requires { length entries.now ≤ entry_limit }
    ensures { OnOk result (all.new.items ≡ all.old.items ++ held_list name 0 entries.now) }
{
    let _ = PhantomData::<(Entry, Template)>; // Rattle is to know what an Entry holds
    for (index, entry) in entries.iter().enumerate() {
        let place = Place::EntryOf {
            name,
            index: index as u16,
        };
        all.push(held_entry(place, *entry))?;
    }
    Ok(())
}
