//! The live incarnations (`docs/RULES.md`, "Objects, incarnations, processes").
//!
//! Beside them stands the stack of each process, which has the numbers of its incarnations. So the
//! depth of a process and one more incarnation cost the logarithm of the number of incarnations, one
//! that goes costs that and a look at the stack of its process, and the end of a process costs that
//! for each incarnation that goes.

ghost use Rattle.std.specs.Prelude.{◌≡◌, ◌==◌, ◌<◌, ◌^◌, not, length, filter, OnOk, OnErr, count_by, [], None, option_copied};
ghost use Rattle.std.specs.Map.{lookup, set_value, remove_entry};
ghost use Rattle.hk_model.specs.State.{same_inc};
ghost use Rattle.std.specs.BTreeMap.{insert_entry};
ghost use Rattle.hk_model.specs.State.{inc_cmp};
ghost use Rattle.hk_plain.specs.Stacks.{Rises, added, without_last, with_slot, remove_all};
ghost use Rattle.hk_plain.specs.Counts.{Moved, slot_names};
ghost use Rattle.hk_plain.specs.Removing.{HasIncarnationsRoom, IncarnationsWent, removed_at};

use crate::counts::Counts;
use crate::removed::Removed;
use crate::stacks::Stacks;
use hk_model::{Entry, Inc, Incarnation, NoMemory, Proc};
use std::alloc::Global;
use std::collections::BTreeMap;
use std::marker::Model;

/// The live incarnations by number, and the number that the next one takes.
#[derive(Drop)]
pub struct Incarnations {
    live: BTreeMap<Inc, Incarnation>,
    stacks: Stacks,
    next: Inc,
}

impl Model for Incarnations {
    ghost use Rattle.hk_plain.specs.Stacks.{LiveOnes, IsStacked};

    ghost Value = { LiveOnes };

    ghost view = { λ i. record { live = i.live.entries; next = i.next } };

    ghost invariant = { λ i. IsStacked i.live.entries i.stacks i.next };
}

/// The incarnation of a number goes, with what its slots name.
fn remove_one(
    live: &mut BTreeMap<Inc, Incarnation>,
    inc: Inc,
    counts: &mut Counts,
    removed: &mut Removed,
)
    requires { HasIncarnationsRoom removed.old (length live.old.entries) }
    ensures live { live.new.entries ≡ remove_entry (same_inc inc) live.old.entries }
    ensures counted { Moved counts.old counts.new (slot_names live.new.entries) (slot_names live.old.entries) }
    ensures went { IncarnationsWent live.old.entries live.new.entries removed.old removed.new }
{
    let _many = live.len();
    if let Some(gone) = live.remove(&inc) {
        counts.release_entries(gone.slots.as_slice());
        removed.add_incarnation(inc, gone);
    }
}

/// The incarnations of these numbers go.
fn remove_all(
    live: &mut BTreeMap<Inc, Incarnation>,
    numbers: &[Inc],
    counts: &mut Counts,
    removed: &mut Removed,
)
    requires { HasIncarnationsRoom removed.old (length live.old.entries) }
    ensures live { live.new.entries ≡ remove_all numbers.now live.old.entries }
    ensures counted { Moved counts.old counts.new (slot_names live.new.entries) (slot_names live.old.entries) }
    ensures went { IncarnationsWent live.old.entries live.new.entries removed.old removed.new }
{
    for number in numbers {
        remove_one(live, *number, counts, removed);
    }
}

/// One more incarnation, with what its slots name.
fn insert(
    live: &mut BTreeMap<Inc, Incarnation>,
    inc: Inc,
    new: Incarnation,
    counts: &mut Counts,
) -> Result<(), NoMemory>
    ensures ok { OnOk result (live.new.entries ≡ insert_entry inc_cmp live.old.entries inc new) }
    ensures err { OnErr result (live.new.entries ≡ live.old.entries) }
    ensures counted { Moved counts.old counts.new (slot_names live.new.entries) (slot_names live.old.entries) }
{
    counts.hold_entries(new.slots.as_slice());
    match live.insert(inc, new) {
        Ok(None) => Ok(()),
        Ok(Some(old)) => {
            counts.release_entries(old.slots.as_slice());
            Ok(())
        }
        Err(failed) => {
            counts.release_entries(failed.value.1.slots.as_slice());
            Err(NoMemory)
        }
    }
}

/// Writes an entry into a slot of an incarnation.
#[tactic(auto, using(crate::proofs::Maps::set_value_absent))]
fn write(
    live: &mut BTreeMap<Inc, Incarnation>,
    inc: Inc,
    slot: usize,
    entry: Entry,
    counts: &mut Counts,
)
    ensures live { live.new.entries ≡ set_value (same_inc inc) live.old.entries (with_slot live.old.entries inc slot entry) }
    ensures counted { Moved counts.old counts.new (slot_names live.new.entries) (slot_names live.old.entries) }
{
    if let Some(incarnation) = live.get_mut(&inc) {
        counts.replace(&mut incarnation.slots, slot, entry);
    }
}

impl Incarnations {
    /// There are none.
    pub(crate) fn new(alloc: Global) -> Incarnations
        ensures { result ≡ record { live = []; next = record { 0 = 0 } } }
    {
        Incarnations {
            live: BTreeMap::new(alloc),
            stacks: Stacks::new(alloc),
            next: Inc(0),
        }
    }

    /// The incarnations, by number.
    pub(crate) fn all(&self) -> &BTreeMap<Inc, Incarnation>
        ensures { result.now.entries ≡ self.now.live }
    {
        &self.live
    }

    /// How many incarnations there are. Their numbers rise.
    pub(crate) fn len(&self) -> usize
        ensures value { result ≡ length self.now.live }
        ensures rising { Rises 0 self.now.live self.now.next.0 }
    {
        self.live.len()
    }

    /// The number that the next incarnation takes.
    pub(crate) fn next(&self) -> Inc
        ensures { result ≡ self.now.next }
    {
        self.next
    }

    /// The incarnation of a number.
    pub(crate) fn get(&self, inc: Inc) -> Option<&Incarnation>
        ensures { option_copied result ≡ lookup (same_inc inc) self.now.live }
    {
        self.live.get(&inc)
    }

    /// How many incarnations a process has.
    pub(crate) fn depth(&self, proc: Proc) -> usize
        ensures { result ≡ count_by (λ e. e.1.proc.0 == proc.0) self.now.live }
    {
        self.stacks.depth(proc)
    }

    /// Writes an entry into a slot of an incarnation.
    pub(crate) fn set_slot(&mut self, inc: Inc, slot: usize, entry: Entry, counts: &mut Counts)
        ensures value { self.new ≡ record self.old { live = set_value (same_inc inc) self.old.live (with_slot self.old.live inc slot entry) } }
        ensures counted { Moved counts.old counts.new (slot_names self.new.live) (slot_names self.old.live) }
    {
        write(&mut self.live, inc, slot, entry, counts);
    }

    /// One more incarnation, which takes the next number.
    pub(crate) fn add(
        &mut self,
        alloc: Global,
        new: Incarnation,
        counts: &mut Counts,
    ) -> Result<(), NoMemory>
        requires { self.old.next.0 < 2 ^ 63 }
        ensures ok { OnOk result (self.new ≡ added self.old new) }
        ensures err { OnErr result (self.new ≡ self.old) }
        ensures counted { Moved counts.old counts.new (slot_names self.new.live) (slot_names self.old.live) }
    {
        let proc = new.proc;
        let inc = self.next;
        self.stacks.push(alloc, proc, inc)?;
        if insert(&mut self.live, inc, new, counts).is_err() {
            self.stacks.pop(proc);
            return Err(NoMemory);
        }
        self.next = Inc(inc.0 + 1);
        Ok(())
    }

    /// An incarnation that went lives again, under its number.
    pub(crate) fn put_back(
        &mut self,
        alloc: Global,
        inc: Inc,
        old: Incarnation,
        counts: &mut Counts,
    ) -> Result<(), NoMemory>
        requires below { inc.0 < self.old.next.0 }
        requires absent { lookup (same_inc inc) self.old.live ≡ None }
        ensures ok { OnOk result (self.new ≡ record self.old { live = insert_entry inc_cmp self.old.live inc old }) }
        ensures err { OnErr result (self.new ≡ self.old) }
        ensures counted { Moved counts.old counts.new (slot_names self.new.live) (slot_names self.old.live) }
    {
        let proc = old.proc;
        self.stacks.insert(alloc, proc, inc)?;
        if insert(&mut self.live, inc, old, counts).is_err() {
            self.stacks.forget(proc, inc);
            return Err(NoMemory);
        }
        Ok(())
    }

    /// The incarnation that took the last number goes, and gives its number back.
    pub(crate) fn remove_last(&mut self, counts: &mut Counts)
        ensures value { self.new ≡ without_last self.old }
        ensures counted { Moved counts.old counts.new (slot_names self.new.live) (slot_names self.old.live) }
    {
        let last = Inc(self.next.0.saturating_sub(1));
        let Some(gone) = self.live.remove(&last) else {
            self.next = last;
            return;
        };
        counts.release_entries(gone.slots.as_slice());
        self.stacks.forget(gone.proc, last);
        self.next = last;
    }

    /// The incarnation goes.
    pub(crate) fn remove(&mut self, inc: Inc, counts: &mut Counts, removed: &mut Removed)
        requires { HasIncarnationsRoom removed.old (length self.old.live) }
        ensures value { self.new ≡ record self.old { live = remove_entry (same_inc inc) self.old.live } }
        ensures counted { Moved counts.old counts.new (slot_names self.new.live) (slot_names self.old.live) }
        ensures went { removed.new ≡ removed_at removed.old inc (lookup (same_inc inc) self.old.live) }
    {
        let Some(gone) = self.live.remove(&inc) else {
            return;
        };
        counts.release_entries(gone.slots.as_slice());
        self.stacks.forget(gone.proc, inc);
        removed.add_incarnation(inc, gone);
    }

    /// All incarnations of a process go.
    pub(crate) fn remove_process(&mut self, proc: Proc, counts: &mut Counts, removed: &mut Removed)
        requires { HasIncarnationsRoom removed.old (length self.old.live) }
        ensures value { self.new ≡ record self.old { live = filter (λ e. not (e.1.proc.0 == proc.0)) self.old.live } }
        ensures counted { Moved counts.old counts.new (slot_names self.new.live) (slot_names self.old.live) }
        ensures went { IncarnationsWent self.old.live self.new.live removed.old removed.new }
    {
        let Some(stack) = self.stacks.take(proc) else {
            return;
        };
        remove_all(&mut self.live, stack.as_slice(), counts, removed);
    }
}
