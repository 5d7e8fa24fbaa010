//! The slot of an object, by who counts no finds.

ghost use Rattle.std.specs.Prelude.{◌≡◌, ◌<◌, ℕ, Some, IfSome, IfNone};
ghost use Rattle.hk_objects.specs.Slots.{name_at, AreApart};

use hk_model::Name;
use hk_objects::{Objects, SlotNo, Steps};
use std::marker::Brand;
use std::sync::ledger::{Blank, Ledger};

/// The slot of the object of a name, on a ledger of its own.
#[inline(always)]
fn slot_on<L: Ledger>(objects: &Objects, name: Name, blank: Blank) -> Option<SlotNo>
    requires name { blank.name ≡ L.name }
    requires parts { blank.parts ≡ L.parts }
    requires some { 0 < L.parts }
    ensures found { IfSome result (λ slot. name_at objects.now.slots slot.0 ≡ Some name) }
    ensures none { IfNone result ((k : ℕ) → name_at objects.now.slots k ≡ Some name → ⊥) }
    ensures apart { AreApart objects.now.slots }
{
    let mut steps = Steps::<L>::new(blank);
    objects.find(name, &mut steps)
}

/// The slot of the object of a name. None exactly where no object has the name.
#[tactic(auto, using(crate::proofs::Whole::named_low))]
#[inline(always)]
pub(crate) fn slot_of(objects: &Objects, name: Name) -> Option<SlotNo>
    ensures found { IfSome result (λ slot. name_at objects.now.slots slot.0 ≡ Some name) }
    ensures none { IfNone result ((k : ℕ) → name_at objects.now.slots k ≡ Some name → ⊥) }
    ensures apart { AreApart objects.now.slots }
    ensures low { IfSome result (λ slot. slot.0 < 65536) }
{
    let _next = objects.next_name(); // so that the check knows how many slots there are
    slot_on::<Brand>(objects, name, Blank::new(1))
}
