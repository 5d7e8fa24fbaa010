//! The calls on lists of entries: Store, Append and Erase.

ghost use Rattle.std.specs.Prelude.{◌≡◌, ◌<◌, length, slice_set};
ghost use Rattle.hk_model.specs.State.{object, put_object};
ghost use Rattle.hk_model.specs.Rule.{store_entry, append_entry, erase_entry};
ghost use Rattle.hk_plain.specs.Giving.{Gives};
ghost use Rattle.hk_plain.specs.Additions.{entry_added};

use crate::counted::{push_entry, set_entry};
use crate::tables::Tables;
use crate::targets::storable;
use hk_calls::{Stop, Wanted, slot_at};
use hk_model::limits::ENTRY_LIMIT;
use hk_model::{Answer, Entry, Inc, Name, Path, Refusal, Slot, Template, What8};
use hk_rights::Rights;
use std::alloc::Global;
use std::marker::PhantomData;

impl Tables {
    /// Writes an entry of an object's list, over another.
    pub(crate) fn set_entry(&mut self, name: Name, at: u32, entry: Entry)
        ensures { self.new ≡ put_object self.old name (record (object self.old name) { entries = slice_set (object self.old name).entries at entry }) }
    {
        set_entry(
            &mut self.objects,
            name,
            at as usize,
            entry,
            &mut self.counts,
        );
    }

    /// How many entries an object has.
    fn entries_of(&self, name: Name) -> usize
        ensures { result ≡ length (object self.now name).entries }
    {
        match self.object(name) {
            Some(object) => object.entries.len(),
            None => 0,
        }
    }

    /// Adds an entry after the last of an object, if there is room.
    fn push_entry(&mut self, alloc: Global, name: Name, entry: Entry) -> Result<Answer, Stop>
        ensures { Gives self.old (entry_added self.old name entry) result self.new }
    {
        if self.entries_of(name) >= ENTRY_LIMIT {
            let what = What8::Entries;
            return Err(Stop::Refused(Refusal::Full { what }));
        }
        push_entry(alloc, &mut self.objects, name, entry, &mut self.counts)?;
        Ok(Answer::Done)
    }

    /// Store: the entry at an index becomes what the slot holds.
    #[tactic(auto, unfolding(hk_model::specs::Rule::store_entry))]
    pub(crate) fn store(
        &mut self,
        inc: Inc,
        path: &Path,
        at: u32,
        from: Slot,
    ) -> Result<Answer, Stop>
        ensures { Gives self.old (store_entry self.old inc path.now at from) result self.new }
    {
        let _ = PhantomData::<Template>; // Rattle is to know what an Entry holds
        let step = path.len() as u8 + 1;
        let slot = slot_at(from, step)?;
        let cap = self.target(inc, path, Wanted::Listed, Rights::STORE_MODIFY)?;
        let _old = self.entry_at(cap.name, at, path.len() as u8)?;
        let entry = storable(self.slot(inc, slot), step)?;
        self.set_entry(cap.name, at, entry);
        Ok(Answer::Done)
    }

    /// Append: what the slot holds goes after the last entry.
    #[tactic(auto, unfolding(hk_model::specs::Rule::append_entry))]
    pub(crate) fn append(
        &mut self,
        alloc: Global,
        inc: Inc,
        path: &Path,
        from: Slot,
    ) -> Result<Answer, Stop>
        ensures { Gives self.old (append_entry self.old inc path.now from) result self.new }
    {
        let _ = PhantomData::<Template>; // Rattle is to know what an Entry holds
        let step = path.len() as u8;
        let slot = slot_at(from, step)?;
        let cap = self.target(inc, path, Wanted::Listed, Rights::APPEND_MODIFY)?;
        let entry = storable(self.slot(inc, slot), step)?;
        self.push_entry(alloc, cap.name, entry)
    }

    /// Erase: the entry at an index becomes Empty.
    #[tactic(auto, unfolding(hk_model::specs::Rule::erase_entry))]
    pub(crate) fn erase(&mut self, inc: Inc, path: &Path, at: u32) -> Result<Answer, Stop>
        ensures { Gives self.old (erase_entry self.old inc path.now at) result self.new }
    {
        let _ = PhantomData::<Template>; // Rattle is to know what an Entry holds
        let cap = self.target(inc, path, Wanted::Listed, Rights::KILL_MODIFY)?;
        let _old = self.entry_at(cap.name, at, path.len() as u8)?;
        self.set_entry(cap.name, at, Entry::Empty);
        Ok(Answer::Done)
    }
}
