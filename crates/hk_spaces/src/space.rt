//! A local name space.

ghost use Rattle.std.specs.Prelude.{◌≡◌, ◌<◌, ◌≤◌, ◌+◌, ◌++◌, ℕ, drop, length, slice_get, slice_index_or, slice_set, take, Some};
ghost use Rattle.hk_model.specs.declared.entries.Entry.TheVariants.{Empty};
ghost use Rattle.hk_spaces.specs.Spaces.{empty_slots, IsEmptyFrom};

use hk_model::{Entry, Slot};
use std::marker::Model;

/// The 64 slots of a local name space, held in place (`docs/RULES.md`, "Objects, incarnations,
/// processes"), and how many of the first ones may have been written. Contracts see the list of
/// their entries.
#[derive(Drop)]
pub struct Space {
    slots: [Entry; 64],
    written: usize,
}

impl Model for Space {
    ghost use Rattle.std.specs.Prelude.{List};
    ghost use Rattle.hk_model.specs.declared.entries.Entry.{Entry};
    ghost use Rattle.hk_spaces.specs.Spaces.{IsWritten};

    ghost Value = { List Entry };

    ghost view = { λ space. space.slots };

    ghost invariant = { λ space. IsWritten space.written space.slots };
}

/// Nothing stands in the slots from one place up to another. The others stay as they are.
fn empty_between(slots: &mut [Entry; 64], start: usize, end: usize)
    requires { end ≤ 64 }
    ensures before { (slot : ℕ) → slot < start → slice_index_or slots.new slot Empty ≡ slice_index_or slots.old slot Empty }
    ensures rest { IsEmptyFrom end slots.old → IsEmptyFrom start slots.new }
    ensures all { length slots.new ≡ length slots.old }
{
    for slot in start..end {
        slots[slot] = Entry::Empty;
    }
}

impl Space {
    /// The name space in which nothing stands.
    #[tactic(auto, using(crate::proofs::Emptiness::none_written), unfolding(crate::specs::Spaces::empty_slots))]
    pub fn empty() -> Space
        ensures { result ≡ empty_slots }
    {
        Space {
            slots: [Entry::Empty; 64],
            written: 0,
        }
    }

    /// What stands in a slot, which is below 64.
    #[inline(always)]
    pub fn at(&self, slot: Slot) -> Entry
        requires { slot.0 < 64 }
        ensures { slice_get self.now slot.0 ≡ Some result }
    {
        self.slots[slot.0 as usize]
    }

    /// Writes an entry into a slot, which is below 64, over what stood there.
    #[inline(always)]
    pub fn set(&mut self, slot: Slot, entry: Entry)
        requires { slot.0 < 64 }
        ensures { self.new ≡ slice_set self.old slot.0 entry }
    {
        let at = slot.0 as usize;
        self.slots[at] = entry;
        self.written = self.written.max(at + 1);
    }

    /// Writes entries into the slots from `start` on, over what stood there. All of them are below 64.
    pub fn write(&mut self, start: Slot, entries: &[Entry])
        requires { start.0 + length entries.now ≤ 64 }
        ensures value { self.new ≡ take start.0 self.old ++ (entries.now ++ drop (start.0 + length entries.now) self.old) }
        ensures all { length self.old ≡ 64 }
    {
        let from = start.0 as usize;
        let end = from + entries.len();
        let slots = &mut self.slots[..];
        slots[from..end].copy_from_slice(entries);
        self.written = self.written.max(end);
    }

    /// Nothing stands in the slots from this one on.
    fn shorten(&mut self, end: usize)
        requires { end ≤ 64 }
        ensures before { (slot : ℕ) → slot < end → slice_index_or self.new slot Empty ≡ slice_index_or self.old slot Empty }
        ensures rest { IsEmptyFrom end self.new }
        ensures all { length self.new ≡ 64 }
    {
        empty_between(&mut self.slots, end, self.written);
        self.written = self.written.min(end);
    }

    /// Nothing stands in any slot. It costs as much as was written.
    #[tactic(auto, using(crate::proofs::Emptiness::all_gone))]
    pub fn clear(&mut self)
        ensures { self.new ≡ empty_slots }
    {
        self.shorten(0);
    }

    /// Each slot gets what stands there in another name space. It costs as much as was written into the two.
    pub fn copy_from(&mut self, other: &Space)
        ensures { self.new ≡ other.now }
    {
        let entries = other.written();
        let _all = other.as_slice(); // so that the check knows how many slots there are
        self.write(Slot(0), entries);
        self.shorten(entries.len());
    }

    /// The 64 entries.
    #[inline(always)]
    pub fn as_slice(&self) -> &[Entry]
        ensures value { result.now ≡ self.now }
        ensures all { length result.now ≡ 64 }
    {
        &self.slots
    }

    /// The entries of the first slots, behind which nothing stands: as far as slots were written.
    #[inline(always)]
    pub fn written(&self) -> &[Entry]
        ensures value { result.now ≡ take (length result.now) self.now }
        ensures rest { IsEmptyFrom (length result.now) self.now }
    {
        &self.slots[..self.written]
    }
}
