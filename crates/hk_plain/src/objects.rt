//! The calls that make objects: Create and Copy.

ghost use Rattle.std.specs.Prelude.{◌≡◌, ◌≤◌, length, map, IfOk, OnOk, OnErr};
ghost use Rattle.hk_model.specs.State.{object};
ghost use Rattle.hk_model.specs.Keeping.{members};
ghost use Rattle.hk_model.specs.Targets.{create_form};
ghost use Rattle.hk_model.specs.Rule.{can_be_created, plain_object, copied, create_object, copy_object};
ghost use Rattle.hk_plain.specs.Giving.{Gives};
ghost use Rattle.hk_plain.specs.Numbers.{HasNumbers};
ghost use Rattle.hk_plain.specs.Additions.{object_made};
ghost use Rattle.hk_plain.specs.Marking.{is_none_of};
ghost use Rattle.hk_plain.specs.Removing.{HasRoom, MadeWent};

use crate::removed::Removed;
use crate::tables::Tables;
use crate::walks::reduced_rights;
use hk_calls::{Stop, Wanted, slot_at};
use hk_model::{
    Answer, Cap, Entries, Entry, Inc, Items, Name, Object, Params, Path, Refusal, Slot, Template,
    Words,
};
use hk_rights::{Right, Rights};
use std::alloc::{AllocError, Global};
use std::collections::BTreeSet;
use std::marker::PhantomData;

/// An object without tokens, waiters and code.
pub(crate) fn plain_object(alloc: Global, of: Name, words: Words, entries: Entries) -> Object
    ensures { result ≡ plain_object of words entries }
{
    Object {
        of,
        words,
        entries,
        count: 0,
        waiters: Items::new(alloc),
        code: None,
        params: Params::new(alloc),
    }
}

/// The type of the Create template of an entry, and the rights that it gives.
fn creating(entry: &Entry, step: u8) -> Result<(Name, Rights), Refusal>
    ensures { result ≡ create_form entry.now step }
{
    match entry {
        Entry::Empty => Err(Refusal::Empty { step }),
        Entry::Held(_cap) => Err(Refusal::BadTemplate { step }),
        Entry::Form(Template::Amplify { .. }) => Err(Refusal::BadTemplate { step }),
        Entry::Form(Template::Create { of, give }) => Ok((*of, *give)),
    }
}

/// Procedures, processes and name spaces are not created by programs.
fn can_be_created(of: Name) -> bool
    ensures { result ≡ can_be_created of }
{
    of.0 != 4 && of.0 != 5 && of.0 != 6
}

/// An entry of a copy: what goes without ENV is left out.
fn copied(by: Rights, entry: Entry) -> Entry
    ensures { result ≡ copied by entry }
{
    match entry {
        Entry::Empty => Entry::Empty,
        Entry::Form(form) => {
            if by.has(Right::ENV) {
                Entry::Form(form)
            } else {
                Entry::Empty
            }
        }
        Entry::Held(cap) => copied_cap(by, cap),
    }
}

/// A capability of a copy: without ENV it is left out.
fn copied_cap(by: Rights, cap: Cap) -> Entry
    ensures { result ≡ copied by (Entry.Held cap) }
{
    let rights = reduced_rights(by, cap.rights);
    if rights.has(Right::ENV) {
        Entry::Held(Cap {
            name: cap.name,
            rights,
        })
    } else {
        Entry::Empty
    }
}

/// The entries of a copy.
fn copied_entries(alloc: Global, by: Rights, entries: &[Entry]) -> Result<Entries, AllocError>
    requires { length entries.now ≤ 256 }
    ensures { IfOk result (λ all. all ≡ map (copied by) entries.now) }
{
    let mut all = Entries::new(alloc);
    for entry in entries {
        all.push(copied(by, *entry))?;
    }
    Ok(all)
}

impl Tables {
    /// A new object beside those that stay, and a capability for it in a slot.
    fn make_object(
        &mut self,
        spare: &BTreeSet<Name>,
        inc: Inc,
        slot: usize,
        new: Object,
        rights: Rights,
        removed: &mut Removed,
    ) -> Result<Answer, Stop>
        requires numbers { HasNumbers self.old }
        requires room { HasRoom self.old removed.old }
        ensures gives { Gives self.old (object_made self.old (members self.old (is_none_of spare.now.keys)) inc slot new rights) result self.new }
        ensures went { OnOk result (MadeWent self.old inc slot self.new removed.old removed.new) }
        ensures none_went { OnErr result (removed.new ≡ removed.old) }
    {
        let name = self.next_name;
        self.add_beside(new, spare, removed)?;
        self.set_slot(inc, slot, Entry::Held(Cap { name, rights }));
        Ok(Answer::Done)
    }

    /// The copy of an object through a capability.
    fn copy_of(&self, alloc: Global, cap: &Cap) -> Result<Object, AllocError>
        ensures { IfOk result (λ new. let o = object self.now cap.now.name in new ≡ plain_object o.of o.words (map (copied cap.now.rights) o.entries)) }
    {
        match self.object(cap.name) {
            Some(object) => {
                let words = object.words.copy(alloc)?;
                let entries = copied_entries(alloc, cap.rights, object.entries.as_slice())?;
                Ok(plain_object(alloc, object.of, words, entries))
            }
            None => {
                let words = Words::new(alloc);
                Ok(plain_object(alloc, Name(0), words, Entries::new(alloc)))
            }
        }
    }

    /// Create: a new object by the template that the path leads to.
    #[tactic(auto, unfolding(hk_model::specs::Rule::create_object))]
    pub(crate) fn create(
        &mut self,
        alloc: Global,
        inc: Inc,
        path: &Path,
        into: Slot,
        removed: &mut Removed,
    ) -> Result<Answer, Stop>
        requires numbers { HasNumbers self.old }
        requires room { HasRoom self.old removed.old }
        ensures gives { Gives self.old (create_object self.old inc path.now into) result self.new }
        ensures went { OnOk result (MadeWent self.old inc into.0 self.new removed.old removed.new) }
        ensures none_went { OnErr result (removed.new ≡ removed.old) }
    {
        let _ = PhantomData::<Template>; // Rattle is to know what an Entry holds
        let step = path.len() as u8;
        let slot = slot_at(into, step)?;
        let entry = self.walk(inc, path)?;
        let (of, give) = creating(&entry, step - 1)?;
        if !can_be_created(of) {
            return Err(Stop::Refused(Refusal::WrongType { step: step - 1 }));
        }
        let spare = self.spare_objects(alloc)?;
        let new = plain_object(alloc, of, Words::new(alloc), Entries::new(alloc));
        self.make_object(&spare, inc, slot, new, give, removed)
    }

    /// Copy: a new object with the words and entries of another.
    #[tactic(auto, unfolding(hk_model::specs::Rule::copy_object))]
    pub(crate) fn copy(
        &mut self,
        alloc: Global,
        inc: Inc,
        path: &Path,
        into: Slot,
        removed: &mut Removed,
    ) -> Result<Answer, Stop>
        requires numbers { HasNumbers self.old }
        requires room { HasRoom self.old removed.old }
        ensures gives { Gives self.old (copy_object self.old inc path.now into) result self.new }
        ensures went { OnOk result (MadeWent self.old inc into.0 self.new removed.old removed.new) }
        ensures none_went { OnErr result (removed.new ≡ removed.old) }
    {
        let slot = slot_at(into, path.len() as u8)?;
        let cap = self.target(inc, path, Wanted::General, Rights::COPY)?;
        let spare = self.spare_objects(alloc)?;
        let new = self.copy_of(alloc, &cap)?;
        self.make_object(&spare, inc, slot, new, cap.rights, removed)
    }
}
