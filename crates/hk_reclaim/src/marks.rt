//! Slots that are marked, in the order in which they were.

ghost use Rattle.std.specs.Prelude.{◌≡◌, ◌<◌, ◌≤◌, ◌&&◌, ℕ, not, true, [], false, length, IfSome, IfOk, slice_get, slice_index_or};
ghost use Rattle.hk_reclaim.specs.Marks.{marked_with};
ghost use Rattle.hk_reclaim.specs.Tally.{has};

use crate::per_slot::PerSlot;
use hk_model::NoMemory;
use std::alloc::Global;
use std::marker::Model;

/// Marked slots: for each slot whether it is marked, and the marked ones in order, for each of which there is room.
#[derive(Drop)]
pub(crate) struct Marks {
    marked: PerSlot<bool>,
    order: Vec<u32>,
}

impl Model for Marks {
    ghost use Rattle.std.specs.Prelude.{length, ◌≤◌, vec_capacity};
    ghost use Rattle.hk_reclaim.specs.Marks.{Marked, AreMarks};

    ghost Value = { Marked };

    ghost view = { λ a. record { size = length a.marked; slots = a.order.items } };

    ghost invariant = { λ a. AreMarks a.marked a.order.items × (length a.marked ≤ vec_capacity a.order) };
}

/// Takes down the flags of these slots, which are all that are up.
fn lower_flags(marked: &mut PerSlot<bool>, order: &[u32])
    requires { (k : ℕ) → slice_index_or marked.old k false ≡ has order.now k }
    ensures size { length marked.new ≡ length marked.old }
    ensures down { (k : ℕ) → slice_index_or marked.new k false ≡ false }
{
    for slot in order {
        marked.set(*slot, false);
    }
}

impl Marks {
    /// No marks, with room for so many slots. No other call takes memory.
    pub(crate) fn with(alloc: Global, slots: u32) -> Result<Marks, NoMemory>
        ensures { IfOk result (λ m. m ≡ record { size = slots; slots = [] }) }
    {
        Ok(Marks {
            marked: PerSlot::with(alloc, slots, false)?,
            order: Vec::with_capacity(alloc, slots as usize)?,
        })
    }

    /// Whether a slot has a mark.
    pub(crate) fn is_marked(&self, slot: u32) -> bool
        requires { slot < self.now.size }
        ensures { result ≡ has self.now.slots slot }
    {
        self.marked.get(slot)
    }

    /// Marks a slot.
    pub(crate) fn mark(&mut self, slot: u32)
        requires { slot < self.old.size }
        ensures { self.new ≡ record self.old { slots = marked_with self.old.slots slot } }
    {
        if !self.marked.get(slot) {
            self.marked.set(slot, true);
            self.order.push_reserved(slot);
        }
    }

    /// The mark that came after so many others.
    pub(crate) fn at(&self, place: u32) -> Option<u32>
        ensures at { result ≡ slice_get self.now.slots place }
        ensures slot { IfSome result (λ s. s < self.now.size) }
        ensures few { length self.now.slots ≤ self.now.size }
    {
        if (place as usize) < self.order.len() {
            Some(self.order[place as usize])
        } else {
            None
        }
    }

    /// Takes all marks away.
    pub(crate) fn clear(&mut self)
        ensures { self.new ≡ record self.old { slots = [] } }
    {
        lower_flags(&mut self.marked, self.order.as_slice());
        self.order.clear();
    }
}
