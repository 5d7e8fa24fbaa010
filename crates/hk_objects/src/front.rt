//! A list of 65,536 slots that takes memory only as they are used.

ghost use Rattle.std.specs.Prelude.{◌≡◌, ◌<◌, ℕ, Some, None, length, IfOk, slice_index_or, slice_set, option_copied};
ghost use Rattle.hk_objects.specs.Padded.{padded, IsFront};

use hk_model::NoMemory;
use hk_model::limits::OBJECT_LIMIT;
use std::alloc::Global;
use std::marker::Model;

/// What stands in each of 65,536 slots. Room for all is reserved, and the slots up to the last that was used are kept.
#[derive(Drop)]
pub(crate) struct Front<T> {
    pub(crate) items: Vec<Option<T>>,
}

impl<T> Model for Front<T> {
    ghost use Rattle.std.specs.Prelude.{List, Option};
    ghost use Rattle.hk_objects.specs.Padded.{padded, IsFront};

    ghost Value = { List (Option T) };

    ghost view = { λ a. padded a.items.items };

    ghost invariant = { λ a. IsFront a.items };
}

/// Keeps more slots, up to this one.
#[tactic(auto, using(crate::proofs::Padding::padded_more))]
fn keep_up_to<T>(items: &mut Vec<Option<T>>, slot: u32)
    requires slot { slot < 65536 }
    requires front { IsFront items.old }
    ensures front { IsFront items.new }
    ensures same { padded items.new.items ≡ padded items.old.items }
    ensures kept { slot < length items.new.items }
{
    for _kept in items.len()..slot as usize + 1 {
        items.push_reserved(None);
    }
}

impl<T: Drop> Front<T> {
    /// Nothing in any slot. No other call takes memory.
    pub(crate) fn with_room(alloc: Global) -> Result<Front<T>, NoMemory>
        ensures size { IfOk result (λ front. length front ≡ 65536) }
        ensures empty { IfOk result (λ front. (k : ℕ) → slice_index_or front k None ≡ None) }
    {
        let items = Vec::with_capacity(alloc, OBJECT_LIMIT)?;
        Ok(Front { items })
    }

    /// What stands in a slot. None exactly where nothing does.
    #[inline(always)]
    pub(crate) fn get(&self, slot: u32) -> Option<&T>
        ensures { option_copied result ≡ slice_index_or self.now slot None }
    {
        match self.items.get(slot as usize) {
            Some(place) => place.as_ref(),
            None => None,
        }
    }

    /// Writes over what stands in a slot.
    pub(crate) fn put(&mut self, slot: u32, item: T)
        requires { slot < 65536 }
        ensures { self.new ≡ slice_set self.old slot (Some item) }
    {
        keep_up_to(&mut self.items, slot);
        self.items[slot as usize] = Some(item);
    }

    /// Takes away what stands in a slot.
    pub(crate) fn clear(&mut self, slot: u32)
        ensures { self.new ≡ slice_set self.old slot None }
    {
        if (slot as usize) < self.items.len() {
            self.items[slot as usize] = None;
        }
    }
}
