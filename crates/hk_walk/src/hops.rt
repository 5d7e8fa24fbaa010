//! Walks that look nothing up among the remembered ones.

ghost use Rattle.std.specs.Prelude.{◌≡◌, ◌<◌, ◌≤◌, ◌+◌, length};
ghost use Rattle.hk_model.specs.declared.entries.Entry.TheVariants.{Held};
ghost use Rattle.hk_model.specs.State.{object};
ghost use Rattle.hk_model.specs.Refusing.{item_at};
ghost use Rattle.hk_model.specs.Walking.{hop_on, walk_on, obtained, reduced_rights, local_rights};
ghost use Rattle.hk_walk.specs.Walks.{seen};

use hk_merge::{allowed, confined_rights, held};
use hk_model::{Cap, Entry, Name, Refusal};
use hk_objects::{Objects, Steps};
use hk_rights::{Right, Rights};
use std::sync::ledger::Ledger;

/// The rights of a set but ENV.
fn local_rights(rights: Rights) -> Rights
    ensures { result ≡ local_rights rights }
{
    rights.without(Rights::ENV)
}

/// What is left of rights that were obtained through a capability with the rights `by` (`docs/RULES.md`, "Reduction").
pub fn reduced_rights(by: Rights, rights: Rights) -> Rights
    ensures { result ≡ reduced_rights by rights }
{
    let kept = if by.has(Right::UNCONF) {
        rights
    } else {
        confined_rights(rights)
    };
    if by.has(Right::ENV) {
        kept
    } else {
        local_rights(kept)
    }
}

/// What is obtained of an entry through a capability with the rights `by`.
fn obtained(by: Rights, entry: Entry, step: u8) -> Result<Entry, Refusal>
    ensures { result ≡ obtained by entry step }
{
    match entry {
        Entry::Empty => Ok(Entry::Empty),
        Entry::Held(cap) => Ok(Entry::Held(Cap {
            name: cap.name,
            rights: reduced_rights(by, cap.rights),
        })),
        Entry::Form(form) => {
            allowed(by, Rights::ENV, step)?;
            Ok(Entry::Form(form))
        }
    }
}

/// The entries of an object, none where it is not there. It makes one find.
#[tactic(auto, using(crate::proofs::Found::found_entries, crate::proofs::Found::found_none))]
fn list_of<'a, L: Ledger>(objects: &'a Objects, name: Name, steps: &mut Steps<L>) -> &'a [Entry]
    ensures value { result.now ≡ (object (seen objects.now.slots) name).entries }
    ensures count { steps.new ≡ steps.old + 1 }
{
    match objects.find(name, steps) {
        Some(slot) => objects.entries(slot),
        None => &[],
    }
}

/// An entry of an object's list. It makes one find.
fn entry_at<L: Ledger>(
    objects: &Objects,
    name: Name,
    at: u16,
    step: u8,
    steps: &mut Steps<L>,
) -> Result<Entry, Refusal>
    ensures value { result ≡ item_at (object (seen objects.now.slots) name).entries at step }
    ensures count { steps.new ≡ steps.old + 1 }
{
    match list_of(objects, name, steps).get(at as usize) {
        Some(entry) => Ok(*entry),
        None => Err(Refusal::Range { step }),
    }
}

/// One step of a walk. It makes at most one find.
fn hop<L: Ledger>(
    objects: &Objects,
    entry: Entry,
    at: u16,
    step: u8,
    steps: &mut Steps<L>,
) -> Result<Entry, Refusal>
    requires { step < 255 }
    ensures value { result ≡ hop_on (seen objects.now.slots) entry at step }
    ensures cost { steps.new ≤ steps.old + 1 }
{
    let cap = held(entry, step)?;
    allowed(cap.rights, Rights::LOAD, step)?;
    let next = entry_at(objects, cap.name, at, step + 1, steps)?;
    Ok(obtained(cap.rights, next, step)?)
}

/// The walk, with at most one find per index.
pub(crate) fn walk_on<L: Ledger>(
    objects: &Objects,
    from: &Cap,
    rest: &[u16],
    steps: &mut Steps<L>,
) -> Result<Entry, Refusal>
    requires { length rest.now ≤ 7 }
    ensures value { result ≡ walk_on (seen objects.now.slots) (Held from.now) rest.now 0 }
    ensures cost { steps.new ≤ steps.old + length rest.now }
{
    let mut entry = Entry::Held(*from);
    for step in 0..rest.len() {
        entry = hop(objects, entry, rest[step], step as u8, steps)?;
    }
    Ok(entry)
}
