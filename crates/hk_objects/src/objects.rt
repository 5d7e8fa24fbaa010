//! The table of slots.

ghost use Rattle.std.specs.Prelude.{◌≡◌, ◌<◌, ◌≤◌, ◌+◌, ◌^◌, ◌++◌, ◌∷◌, ◌↔◌, ◌==◌, ◌&&◌, cond, [], ℕ, Some, None, length, IfSome, IfNone, IfOk, OnOk, OnErr, IsSome, IsTrue, slice_set};
ghost use Rattle.hk_model.specs.declared.names.Name.{Name};
ghost use Rattle.hk_objects.specs.Slots.{standing, place, name_at, change, AreApart, AreInPlace};
ghost use Rattle.hk_objects.specs.Shelf.{new_body, code_of, params_of};

use crate::body::{Body, Procedure};
use crate::free_slots::FreeSlots;
use crate::front::Front;
use crate::name_index::NameIndex;
use crate::parts::{add_entry, add_word, put_count, put_entry, put_procedure, put_word};
use crate::steps::Steps;
use hk_model::limits::OBJECT_LIMIT;
use hk_model::{Entries, Entry, Name, NoMemory, Param, Params, Words};
use std::alloc::Global;
use std::marker::Model;
use std::sync::ledger::Ledger;

/// How many slots there are: one for each object that may stand.
pub(crate) const SLOTS: u32 = OBJECT_LIMIT as u32;

/// The number of a slot.
#[derive(Clone, Copy, PartialEq, Eq, Debug)]
pub struct SlotNo(pub u32);

/// Objects in 65,536 slots. Contracts see what stands in each slot, and the name that the next object takes.
#[derive(Drop)]
pub struct Objects {
    slots: Front<(Name, Body)>,
    index: NameIndex,
    free: FreeSlots,
    next: Name,
    // Each slot below this one has the object of the slot's own number.
    in_place: u32,
}

/// How many slots have the objects of their own numbers, once this slot has the object of this name besides.
#[inline(always)]
fn placed(in_place: u32, slot: u32, name: Name) -> u32
    requires { slot < 65536 }
    ensures { result ≡ cond (slot == in_place && name.0 == slot) (slot + 1) in_place }
{
    if slot == in_place && name.0 == slot as u64 {
        slot + 1
    } else {
        in_place
    }
}

impl Model for Objects {
    ghost use Rattle.hk_objects.specs.Shelf.{Shelf};
    ghost use Rattle.hk_objects.specs.Indexed.{IsTable};
    ghost use Rattle.hk_objects.specs.Slots.{AreInPlace};

    ghost Value = { Shelf };

    ghost view = { λ a. record { slots = a.slots; next = a.next } };

    ghost invariant = { λ a. IsTable a.slots a.index a.free a.next × AreInPlace a.slots a.in_place };
}

impl Objects {
    #[tactic(auto, using(crate::proofs::Tables::table_empty))]
    /// A table with no objects, and room for 65,536. Of the calls on it only `add` and `append` take memory.
    pub fn with_room(alloc: Global) -> Result<Objects, NoMemory>
        ensures empty { IfOk result (λ objects. (k : ℕ) → place objects.slots k ≡ None) }
        ensures next { IfOk result (λ objects. objects.next.0 ≡ 0) }
        ensures room { IfOk result (λ objects. length objects.slots ≡ 65536) }
    {
        let slots = Front::with_room(alloc)?;
        let index = NameIndex::with_room(alloc)?;
        let free = FreeSlots::all(alloc)?;
        let next = Name(0);
        Ok(Objects {
            slots,
            index,
            free,
            next,
            in_place: 0,
        })
    }

    /// The slot of the object of a name; it counts one find. None exactly where no object has the name.
    #[inline(always)]
    pub fn find<L: Ledger>(&self, name: Name, steps: &mut Steps<L>) -> Option<SlotNo>
        ensures found { IfSome result (λ slot. name_at self.now.slots slot.0 ≡ Some name) }
        ensures none { IfNone result ((k : ℕ) → name_at self.now.slots k ≡ Some name → ⊥) }
        ensures apart { AreApart self.now.slots }
        ensures count { steps.new ≡ steps.old + 1 }
    {
        steps.tick();
        match self.index.find(name) {
            Some(slot) => Some(SlotNo(slot)),
            None => None,
        }
    }

    /// The name that the next object takes, which is above all names that stand.
    pub fn next_name(&self) -> Name
        ensures name { result ≡ self.now.next }
        ensures above { (slot : ℕ) (name : Name) → name_at self.now.slots slot ≡ Some name → name.0 < self.now.next.0 }
        ensures apart { AreApart self.now.slots }
        ensures room { length self.now.slots ≡ 65536 }
    {
        self.next
    }

    /// A number of slots, from the first on, of which each has the object whose name is the slot's own number. Objects
    /// that are made before any is removed stand so, and so the opening ones.
    pub fn in_place(&self) -> u32
        ensures here { AreInPlace self.now.slots result }
        ensures few { result ≤ 65536 }
    {
        self.in_place
    }

    /// Whether 65,536 objects stand.
    pub fn is_full(&self) -> bool
        ensures { IsTrue result ↔ (length (standing self.now.slots) ≡ 65536) }
    {
        self.free.is_empty()
    }

    /// The name of the object in a slot. None exactly where no object stands there.
    #[inline(always)]
    pub fn name_of(&self, slot: SlotNo) -> Option<Name>
        ensures name { result ≡ name_at self.now.slots slot.0 }
        ensures apart { AreApart self.now.slots }
    {
        match self.slots.get(slot.0) {
            Some((name, _)) => Some(*name),
            None => None,
        }
    }

    /// The type of the object in a slot.
    #[inline(always)]
    pub fn of(&self, slot: SlotNo) -> Name
        requires { IsSome (place self.now.slots slot.0) }
        ensures of { IfSome (place self.now.slots slot.0) (λ e. result ≡ e.1.of) }
        ensures apart { AreApart self.now.slots }
    {
        match self.slots.get(slot.0) {
            Some((_, body)) => body.of,
            None => Name(0),
        }
    }

    /// The words of the object in a slot.
    #[inline(always)]
    pub fn words(&self, slot: SlotNo) -> &[u32]
        requires { IsSome (place self.now.slots slot.0) }
        ensures words { IfSome (place self.now.slots slot.0) (λ e. result.now ≡ e.1.words) }
        ensures few { length result.now ≤ 4096 }
    {
        match self.slots.get(slot.0) {
            Some((_, body)) => body.words.as_slice(),
            None => &[],
        }
    }

    /// The entries of the object in a slot.
    #[inline(always)]
    pub fn entries(&self, slot: SlotNo) -> &[Entry]
        requires { IsSome (place self.now.slots slot.0) }
        ensures entries { IfSome (place self.now.slots slot.0) (λ e. result.now ≡ e.1.entries) }
        ensures few { length result.now ≤ 256 }
    {
        match self.slots.get(slot.0) {
            Some((_, body)) => body.entries.as_slice(),
            None => &[],
        }
    }

    /// The tokens of the object in a slot.
    #[inline(always)]
    pub fn count(&self, slot: SlotNo) -> u32
        requires { IsSome (place self.now.slots slot.0) }
        ensures { IfSome (place self.now.slots slot.0) (λ e. result ≡ e.1.count) }
    {
        match self.slots.get(slot.0) {
            Some((_, body)) => body.count,
            None => 0,
        }
    }

    /// The code of the object in a slot. None exactly where the object has no code.
    #[inline(always)]
    pub fn code(&self, slot: SlotNo) -> Option<u16>
        requires { IsSome (place self.now.slots slot.0) }
        ensures { IfSome (place self.now.slots slot.0) (λ e. result ≡ code_of e.1.procedure) }
    {
        match self.slots.get(slot.0) {
            Some((_, body)) => match &body.procedure {
                Some(procedure) => Some(procedure.code),
                None => None,
            },
            None => None,
        }
    }

    /// The parameter templates of the object in a slot: none where it has no code.
    #[inline(always)]
    pub fn params(&self, slot: SlotNo) -> &[Param]
        requires { IsSome (place self.now.slots slot.0) }
        ensures params { IfSome (place self.now.slots slot.0) (λ e. result.now ≡ params_of e.1.procedure) }
        ensures few { length result.now ≤ 8 }
    {
        match self.slots.get(slot.0) {
            Some((_, body)) => match &body.procedure {
                Some(procedure) => procedure.params.as_slice(),
                None => &[],
            },
            None => &[],
        }
    }

    /// Writes a word of the object in a slot over another.
    pub fn put(&mut self, slot: SlotNo, at: u32, word: u32)
        requires stands { IsSome (place self.old.slots slot.0) }
        requires at { IfSome (place self.old.slots slot.0) (λ e. at < length e.1.words) }
        ensures { self.new ≡ record self.old { slots = change self.old.slots slot.0 (λ body. record body { words = slice_set body.words at word }) } }
    {
        put_word(&mut self.slots, slot.0, at as usize, word);
    }

    /// Writes an entry of the object in a slot over another.
    pub fn set_entry(&mut self, slot: SlotNo, at: u32, entry: Entry)
        requires stands { IsSome (place self.old.slots slot.0) }
        requires at { IfSome (place self.old.slots slot.0) (λ e. at < length e.1.entries) }
        ensures { self.new ≡ record self.old { slots = change self.old.slots slot.0 (λ body. record body { entries = slice_set body.entries at entry }) } }
    {
        put_entry(&mut self.slots, slot.0, at as usize, entry);
    }

    /// Writes the tokens of the object in a slot.
    pub fn set_count(&mut self, slot: SlotNo, count: u32)
        requires { IsSome (place self.old.slots slot.0) }
        ensures { self.new ≡ record self.old { slots = change self.old.slots slot.0 (λ body. record body { count = count }) } }
    {
        put_count(&mut self.slots, slot.0, count);
    }

    /// Gives the object in a slot a code and parameter templates.
    pub fn set_procedure(&mut self, slot: SlotNo, code: u16, params: Params)
        requires { IsSome (place self.old.slots slot.0) }
        ensures { self.new ≡ record self.old { slots = change self.old.slots slot.0 (λ body. record body { procedure = Some (record { code = code; params = params }) }) } }
    {
        put_procedure(&mut self.slots, slot.0, Procedure { code, params });
    }

    /// One more word at the end of the words of the object in a slot, of which there can be 4,096. NoMemory is want of
    /// memory, and changes nothing.
    pub fn add(&mut self, slot: SlotNo, word: u32) -> Result<(), NoMemory>
        requires stands { IsSome (place self.old.slots slot.0) }
        requires room { IfSome (place self.old.slots slot.0) (λ e. length e.1.words < 4096) }
        ensures ok { OnOk result (self.new ≡ record self.old { slots = change self.old.slots slot.0 (λ body. record body { words = body.words ++ word ∷ [] }) }) }
        ensures err { OnErr result (self.new ≡ self.old) }
    {
        add_word(&mut self.slots, slot.0, word)?;
        Ok(())
    }

    /// One more entry at the end of the entries of the object in a slot, of which there can be 256. NoMemory is want of
    /// memory, and changes nothing.
    pub fn append(&mut self, slot: SlotNo, entry: Entry) -> Result<(), NoMemory>
        requires stands { IsSome (place self.old.slots slot.0) }
        requires room { IfSome (place self.old.slots slot.0) (λ e. length e.1.entries < 256) }
        ensures ok { OnOk result (self.new ≡ record self.old { slots = change self.old.slots slot.0 (λ body. record body { entries = body.entries ++ entry ∷ [] }) }) }
        ensures err { OnErr result (self.new ≡ self.old) }
    {
        add_entry(&mut self.slots, slot.0, entry)?;
        Ok(())
    }

    /// A new object of this type with these lists, which takes the next name. None exactly where 65,536 objects stand;
    /// then nothing changes, and the lists are dropped.
    pub fn make(&mut self, of: Name, words: Words, entries: Entries) -> Option<SlotNo>
        requires { self.old.next.0 < 2 ^ 63 }
        ensures free { IfSome result (λ slot. (slot.0 < 65536) × (place self.old.slots slot.0 ≡ None)) }
        ensures made { IfSome result (λ slot. self.new ≡ record { slots = slice_set self.old.slots slot.0 (Some (self.old.next, new_body of words entries)); next = record { 0 = self.old.next.0 + 1 } }) }
        ensures room { IfSome result (λ _. length (standing self.old.slots) < 65536) }
        ensures full { IfNone result (length (standing self.old.slots) ≡ 65536) }
        ensures none { IfNone result (self.new ≡ self.old) }
    {
        match self.free.take() {
            Some(slot) => {
                let name = self.next;
                self.index.put(slot, name);
                self.slots.put(slot, (name, Body::new(of, words, entries)));
                self.next = Name(name.0 + 1);
                self.in_place = placed(self.in_place, slot, name);
                Some(SlotNo(slot))
            }
            None => None,
        }
    }

    /// Takes an object away; its slot is free from then on.
    pub fn remove(&mut self, slot: SlotNo)
        requires { IsSome (place self.old.slots slot.0) }
        ensures { self.new ≡ record self.old { slots = slice_set self.old.slots slot.0 None } }
    {
        self.slots.clear(slot.0);
        self.index.clear(slot.0);
        self.free.give(slot.0);
        self.in_place = self.in_place.min(slot.0);
    }
}
