//! A value for each slot, of which memory is touched only as far as slots were written.

ghost use Rattle.std.specs.Prelude.{◌≡◌, ◌<◌, ◌≤◌, ◌++◌, ◌-◌, ◌^◌, ℕ, length, IfOk, replicate, slice_index, slice_index_or, slice_set, vec_capacity};
ghost use Rattle.hk_reclaim.specs.Tally.{raised, lowered};

use hk_model::NoMemory;
use std::alloc::Global;
use std::marker::Model;

/// A value for each of so many slots: those of the first slots stand in `front`, and each other is `rest`.
/// Contracts see the list of all values.
#[derive(Drop)]
pub(crate) struct PerSlot<T: Copy> {
    front: Vec<T>,
    size: u32,
    rest: T,
}

impl<T: Copy> Model for PerSlot<T> {
    ghost use Rattle.std.specs.Prelude.{List, ◌++◌, ◌-◌, ◌≤◌, length, replicate, vec_capacity};
    ghost use Rattle.hk_reclaim.specs.PerSlot.{IsInFront};

    ghost Value = { List T };

    ghost view = { λ a. a.front.items ++ replicate (a.size - length a.front.items) a.rest };

    ghost invariant = { λ a. IsInFront (length a.front.items) a.size (vec_capacity a.front) };
}

/// Lengthens a list by one value to a length for which there is room, if it is shorter.
#[inline(always)]
fn lengthen<T: Copy>(front: &mut Vec<T>, to: usize, rest: T)
    requires { to ≤ vec_capacity front.old }
    ensures items { front.new.items ≡ front.old.items ++ replicate (to - length front.old.items) rest }
    ensures capacity { vec_capacity front.new ≡ vec_capacity front.old }
{
    for _next in front.len()..to {
        front.push_reserved(rest);
    }
}

impl<T: Copy> PerSlot<T> {
    /// This value for each of so many slots. No other call takes memory.
    pub(crate) fn with(alloc: Global, size: u32, rest: T) -> Result<PerSlot<T>, NoMemory>
        ensures { IfOk result (λ values. values ≡ replicate size rest) }
    {
        let front = Vec::with_capacity(alloc, size as usize)?;
        Ok(PerSlot { front, size, rest })
    }

    /// The number of slots.
    #[inline(always)]
    pub(crate) fn size(&self) -> u32
        ensures { result ≡ length self.now }
    {
        self.size
    }

    /// A slot's value.
    #[inline(always)]
    pub(crate) fn get(&self, slot: u32) -> T
        requires { slot < length self.now }
        ensures { result ≡ slice_index_or self.now slot result }
    {
        if (slot as usize) < self.front.len() {
            self.front[slot as usize]
        } else {
            self.rest
        }
    }

    /// Writes a slot's value.
    #[inline(always)]
    pub(crate) fn set(&mut self, slot: u32, value: T)
        requires { slot < length self.old }
        ensures { self.new ≡ slice_set self.old slot value }
    {
        let at = slot as usize;
        lengthen(&mut self.front, at + 1, self.rest);
        self.front[at] = value;
    }
}

impl PerSlot<u32> {
    /// One more in a slot.
    #[inline(always)]
    pub(crate) fn raise(&mut self, slot: u32)
        requires in_range { slot < length self.old }
        requires few { slice_index self.old slot < 2 ^ 32 - 1 }
        ensures { self.new ≡ raised self.old slot }
    {
        let number = self.get(slot);
        self.set(slot, number + 1);
    }

    /// One fewer in a slot.
    #[inline(always)]
    pub(crate) fn lower(&mut self, slot: u32)
        requires in_range { slot < length self.old }
        requires some { 0 < slice_index self.old slot }
        ensures { self.new ≡ lowered self.old slot }
    {
        let number = self.get(slot);
        self.set(slot, number - 1);
    }

    /// Writes the numbers of as many other slots from one slot on.
    pub(crate) fn copy_from(&mut self, other: &PerSlot<u32>, from: u32)
        requires { length self.old ≡ length other.now }
        ensures size { length self.new ≡ length self.old }
        ensures numbers { (k : ℕ) → from ≤ k → slice_index self.new k ≡ slice_index other.now k }
    {
        for slot in from..self.size() {
            self.set(slot, other.get(slot));
        }
    }
}
