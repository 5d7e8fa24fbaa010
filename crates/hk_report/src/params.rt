//! The merged parameters of the calls that lines have begun (`docs/RULES.md`, "Changes and their reasons").

ghost use Rattle.std.specs.Prelude.{◌≡◌, ◌≤◌, ◌++◌, ◌∷◌, [], None, Some, length, map, slice_index_or, IfOk, OnOk};
ghost use Rattle.hk_model.specs.Places.{cap_of};
ghost use Rattle.hk_report.specs.Reasons.{params_at};

use crate::families::Begun;
use crate::lists::Lists;
use hk_model::{Cap, Entry, Inc, Name, NoMemory, Template};
use hk_rights::Rights;
use std::alloc::Global;
use std::marker::{Model, PhantomData};

/// What a parameter holds that reasons are found by: a capability, or none. It takes two words of memory, and an
/// `Option<Cap>` three.
#[derive(Clone, Copy)]
pub struct GivenParam {
    name: Name,
    rights: Rights,
    is_cap: bool,
}

const _: () = prove!(size_of::<GivenParam>() == 16);

impl Model for GivenParam {
    ghost use Rattle.std.specs.Prelude.{Option};
    ghost use Rattle.hk_model.specs.declared.entries.Cap.{Cap};

    ghost Value = { Option Cap };

    ghost use Rattle.hk_report.specs.ParamFields.{param_held, IsParam, param_fields, param_fields-held};

    ghost view = { param_held };

    ghost invariant = { IsParam };

    ghost inverse = { param_fields };

    ghost inverse_ok = { param_fields-held };
}

impl GivenParam {
    /// No capability.
    fn none() -> GivenParam
        ensures { result ≡ None }
    {
        GivenParam {
            name: Name(0),
            rights: Rights::none(),
            is_cap: false,
        }
    }

    /// The capability that an entry holds, if it holds one.
    fn of(entry: &Entry) -> GivenParam
        ensures { result ≡ cap_of entry.now }
    {
        let _ = PhantomData::<Template>; // Rattle is to know what an Entry holds
        match entry {
            Entry::Held(cap) => GivenParam {
                name: cap.name,
                rights: cap.rights,
                is_cap: true,
            },
            _ => GivenParam::none(),
        }
    }

    /// The capability, if there is one.
    pub(crate) fn cap(&self) -> Option<Cap>
        ensures { result ≡ self.now }
    {
        if !self.is_cap {
            return None;
        }
        Some(Cap {
            name: self.name,
            rights: self.rights,
        })
    }
}

/// The merged parameters of each call that a line has begun, in the order of their incarnations.
#[derive(Drop)]
pub struct GivenParams {
    lists: Lists<GivenParam>,
}

impl Model for GivenParams {
    ghost use Rattle.std.specs.Prelude.{List, Option};
    ghost use Rattle.hk_model.specs.declared.entries.Cap.{Cap};
    ghost use Rattle.hk_report.specs.Params.{AreFewEach};

    ghost Value = { List (List (Option Cap)) };

    ghost view = { λ a. a.lists };

    ghost invariant = { λ a. AreFewEach a.lists };
}

impl GivenParams {
    /// No call has begun.
    pub(crate) fn new(alloc: Global) -> GivenParams
        ensures { result ≡ [] }
    {
        GivenParams {
            lists: Lists::new(alloc),
        }
    }

    /// How many calls have begun.
    fn len(&self) -> usize
        ensures { result ≡ length self.now }
    {
        self.lists.len()
    }

    /// The parameters of the call with so many before it; none where there is no such call.
    #[tactic(auto, using(crate::proofs::ListLemmas::few_each_at))]
    fn get(&self, number: usize) -> &[GivenParam]
        ensures value { result.now ≡ slice_index_or self.now number [] }
        ensures few { length result.now ≤ 8 }
    {
        self.lists.get(number)
    }

    /// The parameters of a call, by its incarnation. Those of the opening, of which none are kept, have the first numbers, and
    /// `families` is of all incarnations.
    pub(crate) fn of(&self, families: &Lists<Begun>, call: Inc) -> &[GivenParam]
        ensures same { result.now ≡ params_at families.now self.now call }
        ensures few { length result.now ≤ 8 }
    {
        let opened = families.len().saturating_sub(self.len());
        self.get((call.0 as usize).saturating_sub(opened))
    }

    /// One call more, with parameters that hold these capabilities. NoMemory is want of memory.
    #[tactic(auto, using(crate::proofs::ListLemmas::few_each_more))]
    fn add(&mut self, params: &[GivenParam]) -> Result<(), NoMemory>
        requires { length params.now ≤ 8 }
        ensures { OnOk result (self.new ≡ self.old ++ params.now ∷ []) }
    {
        self.lists.push(params)
    }

    /// One call more, with the parameters in these slots. NoMemory is want of memory.
    pub(crate) fn push(&mut self, slots: &[Entry]) -> Result<(), NoMemory>
        requires { length slots.now ≤ 8 }
        ensures { OnOk result (self.new ≡ self.old ++ map cap_of slots.now ∷ []) }
    {
        let mut params = [GivenParam::none(); 8];
        for (index, entry) in slots.iter().enumerate() {
            params[index] = GivenParam::of(entry);
        }
        self.add(&params[..slots.len()])
    }
}
