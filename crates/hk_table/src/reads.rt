//! The parts of an object, by its name. Of a name that no object has, they are those of an object with nothing in it.

ghost use Rattle.std.specs.Prelude.{◌≡◌, ◌<◌, ◌≤◌, ◌∷◌, ◌++◌, [], IfOk, OnOk, OnErr, IfSome, IsSome, length, slice_set, slice_index_or};
ghost use Rattle.hk_model.specs.declared.entries.Entry.TheVariants.{Empty};
ghost use Rattle.hk_objects.specs.Slots.{place};
ghost use Rattle.hk_model.specs.State.{object, put_object};
ghost use Rattle.hk_model.specs.Refusing.{item_at};

use crate::counting::{hold_entry_inside, release_entry_inside};
use crate::finding::slot_of;
use crate::parts::Parts;
use crate::settling::forget_all;
use hk_model::{Entry, Name, NoMemory, Param, Refusal};
use hk_objects::{Objects, SlotNo};

/// The entry at an index of the object in a slot.
fn entry_in(objects: &Objects, slot: SlotNo, at: u32) -> Entry
    requires stands { IsSome (place objects.now.slots slot.0) }
    requires at { IfSome (place objects.now.slots slot.0) (λ e. at < length e.1.entries) }
    ensures { IfSome (place objects.now.slots slot.0) (λ e. result ≡ slice_index_or e.1.entries at Empty) }
{
    objects.entries(slot)[at as usize]
}

impl Parts {
    /// The type of an object.
    pub(crate) fn type_of(&self, name: Name) -> Name
        ensures { result ≡ (object self.now name).of }
    {
        match slot_of(&self.objects, name) {
            Some(slot) => self.objects.of(slot),
            None => Name(0),
        }
    }

    /// The words of an object.
    pub(crate) fn words(&self, name: Name) -> &[u32]
        ensures value { result.now ≡ (object self.now name).words }
        ensures few { length result.now ≤ 4096 }
    {
        match slot_of(&self.objects, name) {
            Some(slot) => self.objects.words(slot),
            None => &[],
        }
    }

    /// The word at an index of an object.
    ///
    /// `Range` where the object has no such word.
    pub(crate) fn word_at(&self, name: Name, at: u32, step: u8) -> Result<u32, Refusal>
        ensures value { result ≡ item_at (object self.now name).words at step }
        ensures inside { IfOk result (λ _. at < length (object self.now name).words) }
    {
        match self.words(name).get(at as usize) {
            Some(word) => Ok(*word),
            None => Err(Refusal::Range { step }),
        }
    }

    /// Writes a word of an object, over another.
    pub(crate) fn set_word(&mut self, name: Name, at: u32, word: u32)
        requires { at < length (object self.old name).words }
        ensures { self.new ≡ put_object self.old name (record (object self.old name) { words = slice_set (object self.old name).words at word }) }
    {
        if let Some(slot) = slot_of(&self.objects, name) {
            self.objects.put(slot, at, word);
        }
    }

    /// One more word of an object. NoMemory is want of memory, and changes nothing.
    pub(crate) fn push_word(&mut self, name: Name, word: u32) -> Result<(), NoMemory>
        requires { length (object self.old name).words < 4096 }
        ensures ok { OnOk result (self.new ≡ put_object self.old name (record (object self.old name) { words = (object self.old name).words ++ word ∷ [] })) }
        ensures err { OnErr result (self.new ≡ self.old) }
    {
        match slot_of(&self.objects, name) {
            Some(slot) => {
                self.objects.add(slot, word)?;
                Ok(())
            }
            None => Ok(()),
        }
    }

    /// The entries of an object.
    pub(crate) fn entries(&self, name: Name) -> &[Entry]
        ensures value { result.now ≡ (object self.now name).entries }
        ensures few { length result.now ≤ 256 }
    {
        match slot_of(&self.objects, name) {
            Some(slot) => self.objects.entries(slot),
            None => &[],
        }
    }

    /// The parameter templates of an object.
    pub(crate) fn params(&self, name: Name) -> &[Param]
        ensures value { result.now ≡ (object self.now name).params }
        ensures few { length result.now ≤ 8 }
    {
        match slot_of(&self.objects, name) {
            Some(slot) => self.objects.params(slot),
            None => &[],
        }
    }

    /// The code of an object. None exactly where it has none.
    pub(crate) fn code_of(&self, name: Name) -> Option<u16>
        ensures { result ≡ (object self.now name).code }
    {
        match slot_of(&self.objects, name) {
            Some(slot) => self.objects.code(slot),
            None => None,
        }
    }

    /// The entry at an index of an object.
    ///
    /// `Range` where the object has no such entry.
    pub(crate) fn entry_at(&self, name: Name, at: u32, step: u8) -> Result<Entry, Refusal>
        ensures value { result ≡ item_at (object self.now name).entries at step }
        ensures inside { IfOk result (λ _. at < length (object self.now name).entries) }
    {
        match self.entries(name).get(at as usize) {
            Some(entry) => Ok(*entry),
            None => Err(Refusal::Range { step }),
        }
    }

    /// Writes an entry of an object, over another. No walk is remembered then.
    pub(crate) fn set_entry(&mut self, name: Name, at: u32, entry: Entry)
        requires { at < length (object self.old name).entries }
        ensures { self.new ≡ put_object self.old name (record (object self.old name) { entries = slice_set (object self.old name).entries at entry }) }
    {
        if let Some(slot) = slot_of(&self.objects, name) {
            let old = entry_in(&self.objects, slot, at);
            hold_entry_inside(&self.objects, &mut self.counts, &entry);
            release_entry_inside(&self.objects, &mut self.counts, &old);
            self.objects.set_entry(slot, at, entry);
            forget_all(&mut self.walker);
        }
    }

    /// One more entry of an object. No walk is remembered then. NoMemory is want of memory, and changes nothing.
    pub(crate) fn push_entry(&mut self, name: Name, entry: Entry) -> Result<(), NoMemory>
        requires { length (object self.old name).entries < 256 }
        ensures ok { OnOk result (self.new ≡ put_object self.old name (record (object self.old name) { entries = (object self.old name).entries ++ entry ∷ [] })) }
        ensures err { OnErr result (self.new ≡ self.old) }
    {
        match slot_of(&self.objects, name) {
            Some(slot) => {
                self.objects.append(slot, entry)?;
                hold_entry_inside(&self.objects, &mut self.counts, &entry);
                forget_all(&mut self.walker);
                Ok(())
            }
            None => Ok(()),
        }
    }
}
