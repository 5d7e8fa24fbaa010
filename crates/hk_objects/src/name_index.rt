//! An index from names to slots. A name is looked for in the slot of its remainder by 65,536, then in the slot that this
//! remainder has led to, and then in a list of slots for it.

ghost use Rattle.std.specs.Prelude.{◌≡◌, ◌<◌, ◌≤◌, ◌%◌, ℕ, true, false, Some, None, length, IfSome, IfOk, IfNone, slice_get, slice_set};
ghost use Rattle.hk_links.specs.Chained.{listed};
ghost use Rattle.hk_objects.specs.Indexed.{named_at, is_led_to, leads};

use crate::front::Front;
use crate::objects::SLOTS;
use hk_links::Chains;
use hk_model::{Name, NoMemory};
use std::alloc::Global;
use std::marker::Model;

/// The remainder of a name by the number of slots.
#[inline(always)]
fn remainder(name: Name) -> u32
    ensures { result ≡ name.0 % 65536 }
{
    (name.0 % SLOTS as u64) as u32
}

/// Whether a slot has a name.
#[inline(always)]
fn is_named(names: &Front<Name>, slot: u32, name: Name) -> bool
    ensures yes { result ≡ true → named_at names.now slot ≡ Some name }
    ensures no { result ≡ false → named_at names.now slot ≡ Some name → ⊥ }
{
    match names.get(slot) {
        Some(here) => here.0 == name.0,
        None => false,
    }
}

/// Whether a remainder leads to a slot that has a name of this remainder.
fn leads(names: &Front<Name>, places: &Front<u32>, rest: u32) -> bool
    ensures { result ≡ leads names.now places.now rest }
{
    match places.get(rest) {
        Some(slot) => match names.get(*slot) {
            Some(name) => remainder(*name) == rest,
            None => false,
        },
        None => false,
    }
}

/// The slot that a name's remainder leads to, where it has the name.
#[inline(always)]
fn find_led(names: &Front<Name>, places: &Front<u32>, name: Name) -> Option<u32>
    ensures found { IfSome result (λ slot. named_at names.now slot ≡ Some name) }
    ensures none { IfNone result ((slot : ℕ) → is_led_to places.now (name.0 % 65536) slot ≡ true → named_at names.now slot ≡ Some name → ⊥) }
{
    match places.get(remainder(name)) {
        Some(slot) => {
            if is_named(names, *slot, name) {
                Some(*slot)
            } else {
                None
            }
        }
        None => None,
    }
}

/// The slot with a name in the list of the name's remainder.
#[inline(never)]
fn find_listed(names: &Front<Name>, chains: &Chains, name: Name) -> Option<u32>
    requires cells { chains.now.cells ≡ 65536 }
    requires lists { length chains.now.lists ≡ 65536 }
    ensures found { IfSome result (λ slot. named_at names.now slot ≡ Some name) }
    ensures none { IfNone result ((k slot : ℕ) → slice_get (listed chains.now.lists (name.0 % 65536)) k ≡ Some slot → named_at names.now slot ≡ Some name → ⊥) }
{
    let mut cell = chains.front(remainder(name));
    for _k in 0..SLOTS {
        match cell {
            Some(slot) => {
                if is_named(names, slot, name) {
                    return Some(slot);
                }
                cell = chains.next(slot);
            }
            None => return None,
        }
    }
    None
}

/// The names of 65,536 slots. Contracts see the name of each slot.
#[derive(Drop)]
pub(crate) struct NameIndex {
    names: Front<Name>,
    // The slot to which each remainder leads.
    places: Front<u32>,
    // The slots that none leads to, by the remainders of their names.
    chains: Chains,
}

impl Model for NameIndex {
    ghost use Rattle.std.specs.Prelude.{List, Option};
    ghost use Rattle.hk_model.specs.declared.names.Name.{Name};
    ghost use Rattle.hk_objects.specs.Indexed.{IsIndexed};

    ghost Value = { List (Option Name) };

    ghost view = { λ a. a.names };

    ghost invariant = { λ a. IsIndexed a.names a.places a.chains };
}

impl NameIndex {
    /// An index with no names. No other call takes memory.
    pub(crate) fn with_room(alloc: Global) -> Result<NameIndex, NoMemory>
        ensures size { IfOk result (λ index. length index ≡ 65536) }
        ensures empty { IfOk result (λ index. (k : ℕ) → named_at index k ≡ None) }
    {
        let names = Front::with_room(alloc)?;
        let places = Front::with_room(alloc)?;
        match Chains::with(alloc, SLOTS, SLOTS) {
            Ok(chains) => Ok(NameIndex {
                names,
                places,
                chains,
            }),
            Err(_refused) => Err(NoMemory),
        }
    }

    /// The slot of a name. None exactly where no slot has it.
    #[inline(always)]
    pub(crate) fn find(&self, name: Name) -> Option<u32>
        ensures found { IfSome result (λ slot. named_at self.now slot ≡ Some name) }
        ensures none { IfNone result ((k : ℕ) → named_at self.now k ≡ Some name → ⊥) }
    {
        let home = remainder(name);
        if is_named(&self.names, home, name) {
            return Some(home);
        }
        match find_led(&self.names, &self.places, name) {
            Some(slot) => Some(slot),
            None => find_listed(&self.names, &self.chains, name),
        }
    }

    /// Gives a slot without a name this one.
    ///
    /// A slot of the name's own remainder is found without more. For another the remainder leads to it, unless it leads
    /// to one that it is needed for; then the slot stands in a list.
    pub(crate) fn put(&mut self, slot: u32, name: Name)
        requires slot { slot < 65536 }
        requires free { named_at self.old slot ≡ None }
        ensures { self.new ≡ slice_set self.old slot (Some name) }
    {
        let rest = remainder(name);
        let is_needed = leads(&self.names, &self.places, rest);
        self.names.put(slot, name);
        if slot == rest {
            return;
        }
        if is_needed {
            self.chains.push_back(rest, slot);
        } else {
            self.places.put(rest, slot);
        }
    }

    /// Takes the name of a slot away.
    pub(crate) fn clear(&mut self, slot: u32)
        requires { slot < 65536 }
        ensures { self.new ≡ slice_set self.old slot None }
    {
        self.names.clear(slot);
        self.chains.unlink(slot);
    }
}
