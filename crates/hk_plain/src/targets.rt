//! The tests that the calls share (`docs/RULES.md`, "The order of refusals").

ghost use Rattle.std.specs.Prelude.{◌≡◌, slice_index_or};
ghost use Rattle.hk_model.specs.declared.entries.Entry.TheVariants.{Empty};
ghost use Rattle.hk_model.specs.State.{object, incarnation};
ghost use Rattle.hk_model.specs.Targets.{storable, not_empty, target};
ghost use Rattle.hk_calls.specs.Kinds.{is_wanted};

use crate::tables::Tables;
use hk_calls::Wanted;
use hk_merge::{allowed, held};
use hk_model::{Cap, Entry, Inc, Name, Path, Refusal};
use hk_rights::Rights;

/// What may stand in a list: a template, or a capability with ENV.
pub(crate) fn storable(entry: Entry, step: u8) -> Result<Entry, Refusal>
    ensures { result ≡ storable entry step }
{
    match entry {
        Entry::Empty => Err(Refusal::Empty { step }),
        Entry::Form(form) => Ok(Entry::Form(form)),
        Entry::Held(cap) => {
            allowed(cap.rights, Rights::ENV, step)?;
            Ok(Entry::Held(cap))
        }
    }
}

/// Any entry but Empty.
pub(crate) fn not_empty(entry: Entry, step: u8) -> Result<Entry, Refusal>
    ensures { result ≡ not_empty entry step }
{
    match entry {
        Entry::Empty => Err(Refusal::Empty { step }),
        Entry::Held(cap) => Ok(Entry::Held(cap)),
        Entry::Form(form) => Ok(Entry::Form(form)),
    }
}

impl Tables {
    /// The type of an object.
    pub(crate) fn type_of(&self, name: Name) -> Name
        ensures { result ≡ (object self.now name).of }
    {
        match self.object(name) {
            Some(object) => object.of,
            None => Name(0),
        }
    }

    /// What stands in a slot of an incarnation.
    pub(crate) fn slot(&self, inc: Inc, at: usize) -> Entry
        ensures { result ≡ slice_index_or (incarnation self.now inc).slots at Empty }
    {
        match self.incarnations.get(inc) {
            Some(incarnation) => match incarnation.slots.as_slice().get(at) {
                Some(entry) => *entry,
                None => Entry::Empty,
            },
            None => Entry::Empty,
        }
    }

    /// The capability at the end of a path: for an object of a type that is wanted, with all rights
    /// that are needed.
    ///
    /// After the refusals of the walk: `Empty`, `NotCap`, `WrongType`, `Denied`.
    pub(crate) fn target(
        &self,
        inc: Inc,
        path: &Path,
        wanted: Wanted,
        need: Rights,
    ) -> Result<Cap, Refusal>
        ensures { result ≡ target self.now inc path.now (is_wanted wanted) need }
    {
        let last = (path.len() - 1) as u8;
        let cap = match self.walk(inc, path) {
            Ok(entry) => held(entry, last)?,
            Err(refusal) => return Err(refusal),
        };
        if !wanted.has(self.type_of(cap.name)) {
            return Err(Refusal::WrongType { step: last });
        }
        allowed(cap.rights, need, last)?;
        Ok(cap)
    }
}
