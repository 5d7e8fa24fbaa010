//! Walks, the latest of them remembered.

ghost use Rattle.std.specs.Prelude.{◌≡◌, ◌≤◌, ◌<◌, ◌+◌, ◌-◌, ◌⊎◌, ◌↔◌, ◌∷◌, [], length, take, IfOk, IfSome, OnErr, IsTrue, Some, None, slice_get};
ghost use Rattle.std.specs.Map.{lookup};
ghost use Rattle.lru.specs.LruCache.{promoted};
ghost use Rattle.hk_model.specs.declared.entries.Entry.TheVariants.{Held};
ghost use Rattle.hk_model.specs.Walking.{walk_on};
ghost use Rattle.hk_walk.specs.contracts.trail.TrailPartialEq.TheImpl.{eq-value};
ghost use Rattle.hk_walk.specs.Walks.{seen, trail, Remembers, AreRight, JoinsAtMost, NoneGoes};

use crate::hops::walk_on;
use crate::trail::Trail;
use hk_model::{Cap, Entry, NoMemory, Refusal, Template};
use hk_objects::{Objects, Steps};
use lru::LruCache;
use std::alloc::Global;
use std::marker::{Model, PhantomData};
use std::num::NonZeroUsize;
use std::sync::ledger::Ledger;

/// Walks with the latest ones remembered. Contracts see how many there may be, and the pairs of a start and path with the
/// entry that is there, the latest first (`docs/RULES.md`, "Walks").
#[derive(Drop)]
pub struct Walker {
    cache: LruCache<Trail, Entry>,
}

impl Model for Walker {
    ghost use Rattle.hk_walk.specs.Remembered.{Remembered};

    ghost Value = { Remembered };

    ghost view = { λ a. record { capacity = a.cache.cap; pairs = a.cache.entries } };
}

impl Walker {
    /// A walker that remembers up to so many walks, at least 1, and none yet. NoMemory is want of memory.
    pub fn with(alloc: Global, capacity: usize) -> Result<Walker, NoMemory>
        requires { 1 ≤ capacity }
        ensures { IfOk result (λ walker. walker ≡ record { capacity = capacity; pairs = [] }) }
    {
        let cache = LruCache::new(alloc, NonZeroUsize::new(capacity).unwrap())?;
        Ok(Walker { cache })
    }

    /// The walk over these objects (`docs/RULES.md`, "Walks"): `from` is step 0, and each index leads one step further. A
    /// walk that is remembered makes no find. Any other with an index is remembered from then on, unless it is refused or
    /// there is no memory for it.
    pub fn walk<L: Ledger>(
        &mut self,
        objects: &Objects,
        from: Cap,
        rest: &[u16],
        steps: &mut Steps<L>,
    ) -> Result<Entry, Refusal>
        requires short { length rest.now ≤ 7 }
        requires right { AreRight (seen objects.now.slots) self.old.pairs }
        ensures value { result ≡ walk_on (seen objects.now.slots) (Held from) rest.now 0 }
        ensures right { AreRight (seen objects.now.slots) self.new.pairs }
        ensures capacity { self.new.capacity ≡ self.old.capacity }
        ensures hit { Remembers self.old.pairs from rest.now → steps.new ≡ steps.old }
        ensures cost { steps.new ≤ steps.old + length rest.now }
        ensures first { IfOk result (λ entry. 0 < length rest.now → (slice_get self.new.pairs 0 ≡ Some (trail from rest.now, entry)) ⊎ (self.new ≡ self.old)) }
        ensures first_again { IfOk result (λ entry. Remembers self.old.pairs from rest.now → 0 < length rest.now → slice_get self.new.pairs 0 ≡ Some (trail from rest.now, entry)) }
        ensures joins { IfOk result (λ entry. JoinsAtMost (trail from rest.now, entry) self.old.pairs self.new.pairs) }
        ensures stays { Remembers self.old.pairs from rest.now → NoneGoes self.old.pairs self.new.pairs }
        ensures pushes { IfOk result (λ entry. (Remembers self.old.pairs from rest.now → ⊥) → 0 < length rest.now → (self.new.pairs ≡ (trail from rest.now, entry) ∷ take (self.old.capacity - 1) self.old.pairs) ⊎ (self.new ≡ self.old)) }
        ensures refused { OnErr result (self.new ≡ self.old) }
    {
        if rest.is_empty() {
            return Ok(Entry::Held(from));
        }
        let key = Trail::new(&from, rest);
        match self.recall(&key) {
            Some(entry) => Ok(entry),
            None => {
                let entry = walk_on(objects, &from, rest, steps)?;
                self.keep(key, &entry);
                Ok(entry)
            }
        }
    }

    /// Whether this start and path are remembered.
    pub fn remembers(&self, from: Cap, rest: &[u16]) -> bool
        requires { length rest.now ≤ 7 }
        ensures { IsTrue result ↔ Remembers self.now.pairs from rest.now }
    {
        self.cache.contains(&Trail::new(&from, rest))
    }

    /// Nothing is remembered.
    pub fn forget(&mut self)
        ensures { self.new ≡ record self.old { pairs = [] } }
    {
        self.cache.clear();
    }

    /// What is remembered under a key, which goes first.
    fn recall(&mut self, key: &Trail) -> Option<Entry>
        ensures value { result ≡ lookup ((eq-value).it key.now) self.old.pairs }
        ensures pairs { self.new ≡ record self.old { pairs = promoted ((eq-value).it key.now) self.old.pairs } }
    {
        match self.latest(key) {
            Some(entry) => Some(entry),
            None => self.cache.get(key).copied(),
        }
    }

    /// The entry of the latest pair, if it stands under this key.
    fn latest(&self, key: &Trail) -> Option<Entry>
        ensures { IfSome result (λ entry. slice_get self.now.pairs 0 ≡ Some (key.now, entry)) }
    {
        match self.cache.peek_mru() {
            Some((here, entry)) if *here == *key => Some(*entry),
            _ => None,
        }
    }

    /// Remembers a walk, if there is memory for it.
    fn keep(&mut self, key: Trail, entry: &Entry)
        ensures capacity { self.new.capacity ≡ self.old.capacity }
        ensures joins { JoinsAtMost (key, entry.now) self.old.pairs self.new.pairs }
        ensures first { (slice_get self.new.pairs 0 ≡ Some (key, entry.now)) ⊎ (self.new ≡ self.old) }
        ensures pushes { lookup ((eq-value).it key) self.old.pairs ≡ None → (self.new.pairs ≡ (key, entry.now) ∷ take (self.old.capacity - 1) self.old.pairs) ⊎ (self.new ≡ self.old) }
    {
        let _ = PhantomData::<Template>; // so that the check knows what an Entry holds
        let _ = self.cache.put(key, *entry);
    }
}
