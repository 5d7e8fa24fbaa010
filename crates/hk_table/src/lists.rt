//! The calls on lists of entries: Store, Append and Erase.

ghost use Rattle.std.specs.Prelude.{◌≡◌, ◌<◌, length};
ghost use Rattle.hk_model.specs.State.{process};
ghost use Rattle.hk_model.specs.Targets.{storable};
ghost use Rattle.hk_model.specs.Rule.{store_entry, append_entry, erase_entry};
ghost use Rattle.hk_table.specs.Additions.{entry_added};
ghost use Rattle.hk_table.specs.Giving.{Answers, Gives};

use crate::parts::Parts;
use hk_calls::{Stop, Wanted, slot_at};
use hk_merge::allowed;
use hk_model::limits::ENTRY_LIMIT;
use hk_model::{Answer, Entry, Name, Path, Proc, Refusal, Slot, Template, What8};
use hk_rights::Rights;
use std::marker::PhantomData;

/// What may stand in a list: a template, or a capability with ENV.
fn storable(entry: Entry, step: u8) -> Result<Entry, Refusal>
    ensures { result ≡ storable entry step }
{
    match entry {
        Entry::Empty => Err(Refusal::Empty { step }),
        Entry::Form(form) => Ok(Entry::Form(form)),
        Entry::Held(cap) => {
            allowed(cap.rights, Rights::ENV, step)?;
            Ok(Entry::Held(cap))
        }
    }
}

impl Parts {
    /// Store: the entry at an index becomes what the slot holds.
    #[tactic(auto, unfolding(hk_model::specs::Rule::store_entry))]
    pub(crate) fn store(
        &mut self,
        proc: Proc,
        path: &Path,
        at: u32,
        from: Slot,
    ) -> Result<Answer, Refusal>
        requires { proc.0 < length self.old.processes }
        ensures { Answers self.old (store_entry self.old (process self.old proc).current path.now at from) result self.new }
    {
        let _ = PhantomData::<Template>; // so that the check knows what an Entry holds
        let step = path.len() as u8 + 1;
        let slot = slot_at(from, step)?;
        let cap = self.target(proc, path, Wanted::Listed, Rights::STORE_MODIFY)?;
        let _old = self.entry_at(cap.name, at, path.len() as u8)?;
        let entry = storable(self.slot(proc, slot), step)?;
        self.set_entry(cap.name, at, entry);
        Ok(Answer::Done)
    }

    /// An entry goes after the last of an object, if there is room.
    fn add_entry(&mut self, name: Name, entry: Entry) -> Result<Answer, Stop>
        ensures { Gives self.old (entry_added self.old name entry) result self.new }
    {
        if self.entries(name).len() >= ENTRY_LIMIT {
            let what = What8::Entries;
            return Err(Stop::Refused(Refusal::Full { what }));
        }
        self.push_entry(name, entry)?;
        Ok(Answer::Done)
    }

    /// Append: what the slot holds goes after the last entry.
    #[tactic(auto, unfolding(hk_model::specs::Rule::append_entry))]
    pub(crate) fn append(&mut self, proc: Proc, path: &Path, from: Slot) -> Result<Answer, Stop>
        requires { proc.0 < length self.old.processes }
        ensures { Gives self.old (append_entry self.old (process self.old proc).current path.now from) result self.new }
    {
        let _ = PhantomData::<Template>; // so that the check knows what an Entry holds
        let step = path.len() as u8;
        let slot = slot_at(from, step)?;
        let cap = self.target(proc, path, Wanted::Listed, Rights::APPEND_MODIFY)?;
        let entry = storable(self.slot(proc, slot), step)?;
        self.add_entry(cap.name, entry)
    }

    /// Erase: the entry at an index becomes Empty.
    #[tactic(auto, unfolding(hk_model::specs::Rule::erase_entry))]
    pub(crate) fn erase(&mut self, proc: Proc, path: &Path, at: u32) -> Result<Answer, Refusal>
        requires { proc.0 < length self.old.processes }
        ensures { Answers self.old (erase_entry self.old (process self.old proc).current path.now at) result self.new }
    {
        let _ = PhantomData::<Template>; // so that the check knows what an Entry holds
        let cap = self.target(proc, path, Wanted::Listed, Rights::KILL_MODIFY)?;
        let _old = self.entry_at(cap.name, at, path.len() as u8)?;
        self.set_entry(cap.name, at, Entry::Empty);
        Ok(Answer::Done)
    }
}
