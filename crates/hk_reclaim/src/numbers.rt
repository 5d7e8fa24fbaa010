//! The numbers of namings, and the slots that nothing names any longer.

ghost use Rattle.std.specs.Prelude.{◌≡◌, ◌<◌, ◌≤◌, ◌+◌, ◌-◌, ◌^◌, ℕ, Some, None, ◌↔◌, [], true, length, IfSome, IfOk, IsNone, IsSome, IsTrue, replicate, slice_index, slice_set};
ghost use Rattle.hk_links.specs.Chained.{without};
ghost use Rattle.hk_objects.specs.Slots.{place};
ghost use Rattle.hk_model.specs.declared.names.Name.{Name};
ghost use Rattle.hk_reclaim.specs.Kept.{IsKept, IsPartOf, HasLost};
ghost use Rattle.hk_reclaim.specs.Naming.{named, names_in, stands};
ghost use Rattle.hk_reclaim.specs.Tally.{has, raised, lowered, released, is_due, owing, AreCounted, IsCounted, IsReleasable, IsReleased, SameOutside};

use crate::finding::{one_list, read_apart, slot_of};
use crate::per_slot::PerSlot;
use hk_links::Chains;
use hk_model::{Entry, Name, NoMemory, Template};
use hk_objects::{Objects, SlotNo};
use std::alloc::Global;
use std::marker::Model;

/// The two numbers of each slot, and the pending slots in one list.
#[derive(Drop)]
pub(crate) struct Numbers {
    first_new: Name,
    outside: PerSlot<u32>,
    total: PerSlot<u32>,
    pending: Chains,
}

impl Model for Numbers {
    ghost use Rattle.hk_links.specs.Chained.{listed};
    ghost use Rattle.hk_reclaim.specs.Tally.{Tally, IsTally};

    ghost Value = { Tally };

    ghost view = { λ a. record { first_new = a.first_new; outside = a.outside; total = a.total; pending = listed a.pending.lists 0 } };

    ghost invariant = { λ a. IsTally a.outside a.total a.pending };
}

/// Whether nothing counts an object any longer, and it is no opening object.
#[inline(always)]
fn is_due(total: u32, name: Name, first_new: Name) -> bool
    ensures { result ≡ is_due first_new total name }
{
    total == 0 && name.0 >= first_new.0
}

/// The name in an entry, if there is one: that of a capability's object, or of the type that a template is for
/// (`docs/RULES.md`, "Objects that vanish").
#[inline(always)]
pub fn entry_name(entry: &Entry) -> Option<Name>
    ensures { result ≡ named entry.now }
{
    match entry {
        Entry::Empty => None,
        Entry::Held(cap) => Some(cap.name),
        Entry::Form(Template::Amplify { of, .. }) => *of,
        Entry::Form(Template::Create { of, .. }) => Some(*of),
    }
}

impl Numbers {
    /// Numbers of so many slots, all 0.
    pub(crate) fn with(alloc: Global, slots: u32, first_new: Name) -> Result<Numbers, NoMemory>
        ensures { IfOk result (λ t. t ≡ record { first_new = first_new; outside = replicate slots 0; total = replicate slots 0; pending = [] }) }
    {
        Ok(Numbers {
            first_new,
            outside: PerSlot::with(alloc, slots, 0)?,
            total: PerSlot::with(alloc, slots, 0)?,
            pending: one_list(alloc, slots)?,
        })
    }

    /// The number of slots.
    pub(crate) fn size(&self) -> u32
        ensures { result ≡ length self.now.total }
    {
        self.total.size()
    }

    /// The numbers of all namings.
    pub(crate) fn total(&self) -> &PerSlot<u32>
        ensures { result.now ≡ self.now.total }
    {
        &self.total
    }

    /// The first name of an object that is no opening object.
    pub(crate) fn first_new(&self) -> Name
        ensures { result ≡ self.now.first_new }
    {
        self.first_new
    }

    /// One more naming from outside.
    #[inline(always)]
    pub(crate) fn hold_outside(&mut self, slot: SlotNo)
        requires in_range { slot.0 < length self.old.total }
        requires few { slice_index self.old.total slot.0 < 2 ^ 32 - 1 }
        ensures { self.new ≡ record self.old { outside = raised self.old.outside slot.0; total = raised self.old.total slot.0; pending = without slot.0 self.old.pending } }
    {
        self.outside.raise(slot.0);
        self.total.raise(slot.0);
        self.pending.unlink(slot.0);
    }

    /// One more naming by an object.
    #[inline(always)]
    pub(crate) fn hold_inside(&mut self, slot: SlotNo)
        requires in_range { slot.0 < length self.old.total }
        requires few { slice_index self.old.total slot.0 < 2 ^ 32 - 1 }
        ensures { self.new ≡ record self.old { total = raised self.old.total slot.0; pending = without slot.0 self.old.pending } }
    {
        self.total.raise(slot.0);
        self.pending.unlink(slot.0);
    }

    /// One naming from outside fewer.
    #[inline(always)]
    pub(crate) fn release_outside(&mut self, slot: SlotNo, name: Name)
        requires in_range { slot.0 < length self.old.total }
        requires held { 0 < slice_index self.old.outside slot.0 }
        ensures { self.new ≡ record (released self.old slot.0 name) { outside = lowered self.old.outside slot.0 } }
    {
        self.outside.lower(slot.0);
        self.total.lower(slot.0);
        if is_due(self.total.get(slot.0), name, self.first_new) {
            self.pending.push_back(0, slot.0);
        }
    }

    /// One naming by an object fewer.
    #[inline(always)]
    pub(crate) fn release_inside(&mut self, slot: SlotNo, name: Name)
        requires in_range { slot.0 < length self.old.total }
        requires held { slice_index self.old.outside slot.0 < slice_index self.old.total slot.0 }
        ensures { self.new ≡ released self.old slot.0 name }
    {
        self.total.lower(slot.0);
        if is_due(self.total.get(slot.0), name, self.first_new) {
            self.pending.push_back(0, slot.0);
        }
    }

    /// The first slot that is pending.
    #[inline(always)]
    pub(crate) fn first_pending(&self) -> Option<SlotNo>
        ensures some { IfSome result (λ s. has self.now.pending s.0 ≡ true) }
        ensures none { IsNone result → self.now.pending ≡ [] }
    {
        match self.pending.front(0) {
            Some(slot) => Some(SlotNo(slot)),
            None => None,
        }
    }

    /// A slot is pending no longer.
    pub(crate) fn clear_pending(&mut self, slot: SlotNo)
        requires { slot.0 < length self.old.total }
        ensures { self.new ≡ record self.old { pending = without slot.0 self.old.pending } }
    {
        self.pending.unlink(slot.0);
    }

    /// Takes back one naming, if its object stands.
    fn release_name(&mut self, objects: &Objects, name: Option<Name>)
        requires { IsReleasable objects.now.slots self.old name }
        ensures { IsReleased objects.now.slots name self.old self.new }
    {
        if let Some(name) = name {
            if let Some(slot) = slot_of(objects, name) {
                self.release_inside(slot, name);
            }
        }
    }

    /// Takes back all that an object names.
    pub(crate) fn release_names(&mut self, objects: &Objects, slot: SlotNo)
        requires stands { IsSome (place objects.now.slots slot.0) }
        requires counted { (owed : Name → ℕ) × AreCounted objects.now.slots (owing owed (names_in (place objects.now.slots slot.0))) self.old }
        ensures counted { (owed : Name → ℕ) → AreCounted objects.now.slots (owing owed (names_in (place objects.now.slots slot.0))) self.old → AreCounted objects.now.slots owed self.new }
        ensures outside { SameOutside self.old self.new }
    {
        self.release_name(objects, Some(objects.of(slot)));
        for entry in objects.entries(slot) {
            self.release_name(objects, entry_name(entry));
        }
    }

    /// Takes down all that nothing names any longer.
    #[inline(always)]
    pub(crate) fn settle(&mut self, objects: &mut Objects) -> bool
        requires { IsCounted objects.old.slots self.old }
        ensures kept { IsKept self.old.first_new self.old.outside objects.old.slots (stands objects.new.slots) }
        ensures part { IsPartOf objects.old.slots objects.new.slots }
        ensures next { objects.new.next ≡ objects.old.next }
        ensures removed { IsTrue result ↔ HasLost objects.old.slots objects.new.slots }
        ensures counted { IsCounted objects.new.slots self.new }
        ensures outside { SameOutside self.old self.new }
        ensures pending { self.new.pending ≡ [] }
    {
        read_apart(objects);
        let mut removed = false;
        while let Some(slot) = self.first_pending() {
            self.release_names(objects, slot);
            self.clear_pending(slot);
            objects.remove(slot);
            removed = true;
        }
        removed
    }
}
