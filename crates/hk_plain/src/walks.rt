//! Walks along a path (`docs/RULES.md`, "Reduction" and "Walks").

ghost use Rattle.std.specs.Prelude.{◌≡◌, ◌<◌, ◌+◌, bit_and};
ghost use Rattle.hk_model.specs.State.{object, incarnation};
ghost use Rattle.hk_model.specs.Refusing.{item_at};
ghost use Rattle.hk_model.specs.Walking.{walk, hop_on, obtained, reduced_rights, local_rights};

use crate::tables::Tables;
use hk_merge::{allowed, confined_rights, held};
use hk_model::{Cap, Entry, Inc, Name, Path, Refusal};
use hk_rights::{Right, Rights};

/// The rights of a set but ENV.
fn local_rights(rights: Rights) -> Rights
    ensures { result ≡ local_rights rights }
{
    rights.intersection(Rights::all().without(Rights::ENV))
}

/// What is left of rights that were obtained through a capability with the rights `by`.
pub(crate) fn reduced_rights(by: Rights, rights: Rights) -> Rights
    ensures { result ≡ reduced_rights by rights }
{
    let kept = if by.has(Right::UNCONF) {
        rights
    } else {
        confined_rights(rights)
    };
    if by.has(Right::ENV) {
        kept
    } else {
        local_rights(kept)
    }
}

/// What is obtained of an entry through a capability with the rights `by`.
fn obtained(by: Rights, entry: Entry, step: u8) -> Result<Entry, Refusal>
    ensures { result ≡ obtained by entry step }
{
    match entry {
        Entry::Empty => Ok(Entry::Empty),
        Entry::Held(cap) => Ok(Entry::Held(Cap {
            name: cap.name,
            rights: reduced_rights(by, cap.rights),
        })),
        Entry::Form(form) => {
            allowed(by, Rights::ENV, step)?;
            Ok(Entry::Form(form))
        }
    }
}

impl Tables {
    /// The entry at a path's first index, which is a slot.
    fn first_entry(&self, inc: Inc, at: u16) -> Result<Entry, Refusal>
        ensures { result ≡ item_at (incarnation self.now inc).slots at 0 }
    {
        match self.incarnations.get(inc) {
            Some(incarnation) => match incarnation.slots.as_slice().get(at as usize) {
                Some(entry) => Ok(*entry),
                None => Err(Refusal::Range { step: 0 }),
            },
            None => Err(Refusal::Range { step: 0 }),
        }
    }

    /// An entry of an object's list.
    pub(crate) fn entry_at(&self, name: Name, at: u32, step: u8) -> Result<Entry, Refusal>
        ensures { result ≡ item_at (object self.now name).entries at step }
    {
        match self.object(name) {
            Some(object) => match object.entries.as_slice().get(at as usize) {
                Some(entry) => Ok(*entry),
                None => Err(Refusal::Range { step }),
            },
            None => Err(Refusal::Range { step }),
        }
    }

    /// One step of a walk.
    fn hop(&self, entry: Entry, at: u16, step: u8) -> Result<Entry, Refusal>
        requires { step < 255 }
        ensures { result ≡ hop_on self.now entry at step }
    {
        let cap = held(entry, step)?;
        allowed(cap.rights, Rights::LOAD, step)?;
        let next = self.entry_at(cap.name, at as u32, step + 1)?;
        Ok(obtained(cap.rights, next, step)?)
    }

    /// What a path leads to, from the slots of an incarnation.
    ///
    /// `Range` where an index is past its list; `Empty`, `NotCap` and `Denied` where the walk would
    /// go on through what is no capability with LOAD, or would take a template without ENV.
    pub(crate) fn walk(&self, inc: Inc, path: &Path) -> Result<Entry, Refusal>
        ensures { result ≡ walk self.now inc path.now }
    {
        let len = path.len();
        let mut entry = self.first_entry(inc, path.at(0))?;
        for step in 1..len {
            entry = self.hop(entry, path.at(step), (step - 1) as u8)?;
        }
        Ok(entry)
    }
}
