//! The slots in which nothing stands.

ghost use Rattle.std.specs.Prelude.{◌≡◌, ◌<◌, ◌∷◌, [], ℕ, true, false, nat_lt, IfOk, IfSome, IfNone};
ghost use Rattle.hk_links.specs.Chained.{without};
ghost use Rattle.hk_objects.specs.Indexed.{has};

use crate::objects::SLOTS;
use hk_model::NoMemory;
use hk_model::limits::OBJECT_LIMIT;
use std::alloc::Global;
use std::marker::Model;

/// The free slots of 65,536, of which the one that became free last is taken first: so few slots serve
/// where few objects stand at a time. Contracts see the list of them in this order.
#[derive(Drop)]
pub(crate) struct FreeSlots {
    // Those that were given back: the first to be taken stands last.
    given: Vec<u32>,
    // From this one on no slot was ever taken.
    fresh: u32,
}

impl Model for FreeSlots {
    ghost use Rattle.std.specs.Prelude.{ℕ, List};
    ghost use Rattle.hk_objects.specs.Idle.{idle, IsIdle};

    ghost Value = { List ℕ };

    ghost view = { λ a. idle a.given.items a.fresh };

    ghost invariant = { λ a. IsIdle a.given a.fresh };
}

impl FreeSlots {
    /// All slots, by rising number, and room for all. No other call takes memory.
    #[tactic(auto, using(crate::proofs::Frees::all_idle))]
    pub(crate) fn all(alloc: Global) -> Result<FreeSlots, NoMemory>
        ensures { IfOk result (λ free. (k : ℕ) → has free k ≡ nat_lt k 65536) }
    {
        let given = Vec::with_capacity(alloc, OBJECT_LIMIT)?;
        Ok(FreeSlots { given, fresh: 0 })
    }

    /// Takes the first one out. None exactly where there is none.
    pub(crate) fn take(&mut self) -> Option<u32>
        ensures slot { IfSome result (λ slot. slot < 65536) }
        ensures among { IfSome result (λ slot. has self.old slot ≡ true) }
        ensures rest { IfSome result (λ slot. self.new ≡ without slot self.old) }
        ensures none { IfNone result (self.old ≡ []) }
        ensures same { IfNone result (self.new ≡ self.old) }
    {
        if let Some(slot) = self.given.pop() {
            return Some(slot);
        }
        if self.fresh == SLOTS {
            return None;
        }
        let slot = self.fresh;
        self.fresh = slot + 1;
        Some(slot)
    }

    /// Puts a slot that is not among them before them.
    pub(crate) fn give(&mut self, slot: u32)
        requires slot { slot < 65536 }
        requires taken { has self.old slot ≡ false }
        ensures { self.new ≡ slot ∷ self.old }
    {
        self.given.push_reserved(slot);
    }

    /// Whether there is none.
    pub(crate) fn is_empty(&self) -> bool
        ensures yes { result ≡ true → self.now ≡ [] }
        ensures no { result ≡ false → (slot : ℕ) × (slot < 65536) × (has self.now slot ≡ true) }
    {
        self.given.is_empty() && self.fresh == SLOTS
    }
}
