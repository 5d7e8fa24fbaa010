//! The object that a path names (`docs/RULES.md`, "Walks").

ghost use Rattle.std.specs.Prelude.{◌≡◌, slice_index_or};
ghost use Rattle.hk_model.specs.declared.entries.Entry.TheVariants.{Empty};
ghost use Rattle.hk_model.specs.Places as places;
ghost use Rattle.hk_model.specs.Places.{standing, object_named, named_by};

use crate::shows::{entries_of, slots_of};
use hk_model::{Entry, Inc, Name, Path, Template};
use hk_plain::Plain;
use std::marker::PhantomData;

/// The object that a capability names; of another entry the name 0.
fn object_named(entry: &Entry) -> Name
    ensures { result ≡ object_named entry.now }
{
    let _ = PhantomData::<Template>; // Rattle is to know what an Entry holds
    match entry {
        Entry::Held(cap) => cap.name,
        Entry::Empty => Name(0),
        Entry::Form(_) => Name(0),
    }
}

/// The object that is named in one of these slots.
fn named_in_slot(slots: &[Entry], slot: u16) -> Name
    ensures { result ≡ object_named (slice_index_or slots.now slot Empty) }
{
    match slots.get(slot as usize) {
        Some(entry) => object_named(entry),
        None => Name(0),
    }
}

/// The object that is named at an index of an object's list.
fn named_in_list(kernel: &Plain, name: Name, index: u16) -> Name
    ensures { result ≡ object_named (standing kernel.now (places.EntryOf name index)) }
{
    match entries_of(kernel, name).get(index as usize) {
        Some(entry) => object_named(entry),
        None => Name(0),
    }
}

/// The object that the capability at the end of an incarnation's path names.
#[tactic(auto, using(crate::proofs::NamedLemmas::named_begins))]
pub(crate) fn named_by(kernel: &Plain, inc: Inc, path: &Path) -> Name
    ensures { result ≡ named_by kernel.now inc path.now }
{
    let len = path.len();
    let mut name = named_in_slot(slots_of(kernel, inc), path.at(0));
    for step in 1..len {
        name = named_in_list(kernel, name, path.at(step));
    }
    name
}
