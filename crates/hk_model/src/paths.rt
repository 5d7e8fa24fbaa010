//! Paths of a walk, and the arguments of a call.

ghost use Rattle.std.specs.Prelude.{◌≡◌, ◌<◌, ◌≤◌, ◌↔◌, length, slice_index, IsSome, IfSome, IsTrue, map, ◌++◌, ◌∷◌, []};

use crate::names::Slot;
use std::marker::Model;

/// One to eight indices: the slot that a walk begins at, and then the index in a list for each step
/// (`docs/RULES.md`, "Walks"). Contracts see the list.
#[derive(Clone, Copy)]
pub struct Path {
    indices: [u16; 8],
    count: u8,
}

impl Model for Path {
    ghost use Rattle.std.specs.Prelude.{List, ℕ, take};
    ghost use Rattle.std.specs.Coded.{coded_list, coded_ℕ};

    ghost Value = { List ℕ };

    ghost coded = { coded_list coded_ℕ };

    ghost use Rattle.hk_model.specs.PathFields.{IsPath, path_fields, path_fields-take};

    ghost view = { λ p. take p.count p.indices };

    ghost invariant = { IsPath };

    ghost inverse = { path_fields };

    ghost inverse_ok = { path_fields-take };
}

impl PartialEq for Path {
    ghost use Rattle.std.specs.Cmp.Lexicographic.{pointwise};
    ghost use Rattle.std.specs.Prelude.{nat_eq};
    ghost use Rattle.std.proofs.Common.{rules};
    ghost use Rattle.std.specs.Cmp.Rules.{comparing};

    ghost eq = { pointwise nat_eq };

    ghost laws = { Prim.search (comparing, rules) };

    fn eq(&self, other: &Path) -> bool {
        self.as_slice() == other.as_slice()
    }
}

impl Eq for Path {
    ghost use Rattle.std.proofs.Common.{rules};
    ghost use Rattle.std.specs.Cmp.Rules.{comparing};

    ghost laws = { Prim.search (comparing, rules) };
}

impl Path {
    /// The path of these indices. None exactly where they are none, or more than eight.
    pub fn new(at: &[u16]) -> Option<Path>
        ensures valid { IsSome result ↔ ((0 < length at.now) × (length at.now ≤ 8)) }
        ensures value { IfSome result (λ path. path ≡ at.now) }
    {
        if at.is_empty() || at.len() > 8 {
            return None;
        }
        let mut indices = [0; 8];
        indices[..at.len()].copy_from_slice(at);
        Some(Path {
            indices,
            count: at.len() as u8,
        })
    }

    /// The path of one index.
    #[inline(always)]
    pub fn of_one(index: u16) -> Path
        ensures { result ≡ index ∷ [] }
    {
        // written out, so that it need not be laid out in memory to be copied
        Path {
            indices: [index, 0, 0, 0, 0, 0, 0, 0],
            count: 1,
        }
    }

    /// The indices.
    pub fn as_slice(&self) -> &[u16]
        ensures { result.now ≡ self.now }
    {
        &self.indices[..self.count as usize]
    }

    /// The number of indices.
    pub fn len(&self) -> usize
        ensures value { result ≡ length self.now }
        ensures some { 0 < result }
        ensures few { result ≤ 8 }
    {
        self.count as usize
    }

    /// The index of a step, from 0.
    pub fn at(&self, step: usize) -> u16
        requires { step < length self.now }
        ensures { result ≡ slice_index self.now step }
    {
        let used = &self.indices[..self.count as usize];
        used[step]
    }
}

/// Zero to eight slots, the arguments of a call. Contracts see the list of their numbers.
#[derive(Clone, Copy)]
pub struct Args {
    slots: [u8; 8],
    count: u8,
}

impl Model for Args {
    ghost use Rattle.std.specs.Prelude.{List, ℕ, take};
    ghost use Rattle.std.specs.Coded.{coded_list, coded_ℕ};

    ghost Value = { List ℕ };

    ghost coded = { coded_list coded_ℕ };

    ghost use Rattle.hk_model.specs.ArgsFields.{IsArgs, args_fields, args_fields-take};

    ghost view = { λ p. take p.count p.slots };

    ghost invariant = { IsArgs };

    ghost inverse = { args_fields };

    ghost inverse_ok = { args_fields-take };
}

impl PartialEq for Args {
    ghost use Rattle.std.specs.Cmp.Lexicographic.{pointwise};
    ghost use Rattle.std.specs.Prelude.{nat_eq};
    ghost use Rattle.std.proofs.Common.{rules};
    ghost use Rattle.std.specs.Cmp.Rules.{comparing};

    ghost eq = { pointwise nat_eq };

    ghost laws = { Prim.search (comparing, rules) };

    fn eq(&self, other: &Args) -> bool {
        self.as_slice() == other.as_slice()
    }
}

impl Eq for Args {
    ghost use Rattle.std.proofs.Common.{rules};
    ghost use Rattle.std.specs.Cmp.Rules.{comparing};

    ghost laws = { Prim.search (comparing, rules) };
}

impl Args {
    /// The arguments in these slots. None exactly where they are more than eight.
    pub fn new(at: &[Slot]) -> Option<Args>
        ensures valid { IsSome result ↔ (length at.now ≤ 8) }
        ensures value { IfSome result (λ args. args ≡ map (λ s. s.0) at.now) }
    {
        if at.len() > 8 {
            return None;
        }
        let mut args = Args {
            slots: [0; 8],
            count: 0,
        };
        for slot in at {
            args.add(*slot);
        }
        Some(args)
    }

    /// One slot more.
    fn add(&mut self, slot: Slot)
        requires { length self.old < 8 }
        ensures { self.new ≡ self.old ++ slot.0 ∷ [] }
    {
        self.slots[self.count as usize] = slot.0;
        self.count += 1;
    }

    /// The numbers of the slots.
    pub fn as_slice(&self) -> &[u8]
        ensures { result.now ≡ self.now }
    {
        &self.slots[..self.count as usize]
    }

    /// The number of arguments.
    pub fn len(&self) -> usize
        ensures value { result ≡ length self.now }
        ensures few { result ≤ 8 }
    {
        self.count as usize
    }

    /// Whether there is no argument.
    pub fn is_empty(&self) -> bool
        ensures { IsTrue result ↔ (self.now ≡ []) }
    {
        self.count == 0
    }

    /// The slot of an argument, from 0.
    pub fn at(&self, argument: usize) -> Slot
        requires { argument < length self.now }
        ensures { result.0 ≡ slice_index self.now argument }
    {
        let used = &self.slots[..self.count as usize];
        Slot(used[argument])
    }
}
