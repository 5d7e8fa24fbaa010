//! What the calls that make objects make: Create and Copy.

ghost use Rattle.std.specs.Prelude.{◌≡◌, ◌<◌, ◌≤◌, ◌^◌, true, Ok, length, map, IfOk, OnErr};
ghost use Rattle.hk_model.specs.declared.entries.Entry.TheVariants.{Held};
ghost use Rattle.hk_model.specs.declared.calls.Answer.TheVariants.{Done};
ghost use Rattle.hk_model.specs.State.{object, process};
ghost use Rattle.hk_model.specs.Targets.{create_form};
ghost use Rattle.hk_model.specs.Rule.{can_be_created, copied, plain_object};
ghost use Rattle.hk_table.specs.Giving.{Answers};
ghost use Rattle.hk_table.specs.Rooms.{object_made_in_room, IsKnownRooted};
ghost use Rattle.hk_table.specs.Told.{AllNamedStand};

use crate::parts::Parts;
use hk_model::{Answer, Cap, Entries, Entry, Name, Proc, Refusal, Template, Words};
use hk_rights::{Right, Rights};
use hk_walk::reduced_rights;
use std::alloc::{AllocError, Global};

/// An object to be made: its type and its lists.
#[derive(Drop)]
pub(crate) struct NewObject {
    pub(crate) of: Name,
    pub(crate) words: Words,
    pub(crate) entries: Entries,
}

/// The type of the Create template of an entry, and the rights that it gives.
///
/// `Empty` where the entry is Empty, `BadTemplate` where it is no Create template.
pub(crate) fn creating(entry: &Entry, step: u8) -> Result<(Name, Rights), Refusal>
    ensures { result ≡ create_form entry.now step }
{
    match entry {
        Entry::Empty => Err(Refusal::Empty { step }),
        Entry::Held(_cap) => Err(Refusal::BadTemplate { step }),
        Entry::Form(Template::Amplify { .. }) => Err(Refusal::BadTemplate { step }),
        Entry::Form(Template::Create { of, give }) => Ok((*of, *give)),
    }
}

/// Procedures, processes and name spaces are not created by programs.
pub(crate) fn can_be_created(of: Name) -> bool
    ensures { result ≡ can_be_created of }
{
    of.0 != 4 && of.0 != 5 && of.0 != 6
}

/// A capability of a copy: without ENV it is left out.
fn copied_cap(by: Rights, cap: Cap) -> Entry
    ensures { result ≡ copied by (Held cap) }
{
    let rights = reduced_rights(by, cap.rights);
    if rights.has(Right::ENV) {
        Entry::Held(Cap {
            name: cap.name,
            rights,
        })
    } else {
        Entry::Empty
    }
}

/// An entry of a copy: what goes without ENV is left out.
fn copied(by: Rights, entry: Entry) -> Entry
    ensures { result ≡ copied by entry }
{
    match entry {
        Entry::Empty => Entry::Empty,
        Entry::Form(form) => {
            if by.has(Right::ENV) {
                Entry::Form(form)
            } else {
                Entry::Empty
            }
        }
        Entry::Held(cap) => copied_cap(by, cap),
    }
}

/// The entries of a copy.
fn copied_entries(alloc: Global, by: Rights, entries: &[Entry]) -> Result<Entries, AllocError>
    requires { length entries.now ≤ 256 }
    ensures { IfOk result (λ all. all ≡ map (copied by) entries.now) }
{
    let mut all = Entries::new(alloc);
    for entry in entries {
        all.push(copied(by, *entry))?;
    }
    Ok(all)
}

impl Parts {
    /// The copy of an object through a capability.
    pub(crate) fn copy_of(&self, alloc: Global, cap: &Cap) -> Result<NewObject, AllocError>
        ensures of { IfOk result (λ new. new.of ≡ (object self.now cap.now.name).of) }
        ensures words { IfOk result (λ new. new.words ≡ (object self.now cap.now.name).words) }
        ensures entries { IfOk result (λ new. new.entries ≡ map (copied cap.now.rights) (object self.now cap.now.name).entries) }
    {
        let words = Words::from_vec(Vec::from_slice(alloc, self.words(cap.name))?);
        let entries = copied_entries(alloc, cap.rights, self.entries(cap.name))?;
        Ok(NewObject {
            of: self.type_of(cap.name),
            words,
            entries,
        })
    }

    /// A new object, and a capability for it in a slot. It takes no memory.
    ///
    /// `Full` where there is no room for it; then nothing changes, and `rooted` says that names lead to each object.
    pub(crate) fn add_object(
        &mut self,
        proc: Proc,
        slot: usize,
        new: NewObject,
        rights: Rights,
        rooted: &mut bool,
    ) -> Result<Answer, Refusal>
        requires known { proc.0 < length self.old.processes }
        requires slot { slot < 64 }
        requires next { self.old.next_name.0 < 2 ^ 63 }
        requires named { AllNamedStand self.old }
        requires rooted { IsKnownRooted rooted.old self.old }
        ensures made { Answers self.old (object_made_in_room self.old (process self.old proc).current slot (plain_object new.of new.words new.entries) rights) result self.new }
        ensures rooted { OnErr result (IsKnownRooted rooted.new self.new) }
    {
        self.make_room(rooted)?;
        self.make(proc, slot, new, rights);
        Ok(Answer::Done)
    }
}
