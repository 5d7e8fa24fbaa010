//! What is read of a table, by who counts no finds; and lists of slots.

ghost use Rattle.std.specs.Prelude.{◌≡◌, ◌<◌, ℕ, [], Some, None, replicate, IfOk, IfSome, IfNone};
ghost use Rattle.hk_objects.specs.Slots.{name_at, AreApart};

use hk_links::Chains;
use hk_model::{Name, NoMemory};
use hk_objects::{Objects, SlotNo, Steps};
use std::alloc::Global;
use std::marker::Brand;
use std::sync::ledger::{Blank, Ledger};

/// The slot of the object of a name, on a ledger of its own.
#[inline(always)]
fn slot_on<L: Ledger>(objects: &Objects, name: Name, blank: Blank) -> Option<SlotNo>
    requires name { blank.name ≡ L.name }
    requires parts { blank.parts ≡ L.parts }
    requires some { 0 < L.parts }
    ensures found { IfSome result (λ slot. name_at objects.now.slots slot.0 ≡ Some name) }
    ensures none { IfNone result ((k : ℕ) → name_at objects.now.slots k ≡ Some name → ⊥) }
{
    let mut steps = Steps::<L>::new(blank);
    objects.find(name, &mut steps)
}

/// The slot of the object of a name. None exactly where no object has the name.
#[inline(always)]
pub(crate) fn slot_of(objects: &Objects, name: Name) -> Option<SlotNo>
    ensures found { IfSome result (λ slot. name_at objects.now.slots slot.0 ≡ Some name) }
    ensures none { result ≡ None → (k : ℕ) → name_at objects.now.slots k ≡ Some name → ⊥ }
{
    slot_on::<Brand>(objects, name, Blank::new(1))
}

/// Reads a slot's name, which tells that no two slots have one name.
pub(crate) fn read_apart(objects: &Objects)
    ensures { AreApart objects.now.slots }
{
    let _name = objects.name_of(SlotNo(0));
}

/// One empty list over so many slots.
pub(crate) fn one_list(alloc: Global, slots: u32) -> Result<Chains, NoMemory>
    ensures { IfOk result (λ chains. chains ≡ record { cells = slots; lists = replicate 1 [] }) }
{
    match Chains::with(alloc, 1, slots) {
        Ok(chains) => Ok(chains),
        Err(_refused) => Err(NoMemory),
    }
}
