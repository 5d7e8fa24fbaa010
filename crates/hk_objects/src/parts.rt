//! The parts of the object in a slot: each is read where an object stands, and each write changes it alone.

ghost use Rattle.std.specs.Prelude.{◌≡◌, ◌<◌, ◌++◌, ◌∷◌, [], Some, length, IfSome, IsSome, OnOk, OnErr, slice_set};
ghost use Rattle.hk_objects.specs.Slots.{place, change};

use crate::body::{Body, Procedure};
use crate::front::Front;
use hk_model::{Entry, Name, NoMemory};

/// Writes a word over the one at a place, if there is one.
pub(crate) fn put_word(slots: &mut Front<(Name, Body)>, slot: u32, at: usize, word: u32)
    requires { IsSome (place slots.old slot) }
    ensures { slots.new ≡ change slots.old slot (λ body. record body { words = slice_set body.words at word }) }
{
    if let Some((_, body)) = &mut slots.items[slot as usize] {
        body.words.set(at, word);
    }
}

/// Writes an entry over the one at a place, if there is one.
pub(crate) fn put_entry(slots: &mut Front<(Name, Body)>, slot: u32, at: usize, entry: Entry)
    requires { IsSome (place slots.old slot) }
    ensures { slots.new ≡ change slots.old slot (λ body. record body { entries = slice_set body.entries at entry }) }
{
    if let Some((_, body)) = &mut slots.items[slot as usize] {
        body.entries.set(at, entry);
    }
}

/// Writes the number of tokens.
pub(crate) fn put_count(slots: &mut Front<(Name, Body)>, slot: u32, count: u32)
    requires { IsSome (place slots.old slot) }
    ensures { slots.new ≡ change slots.old slot (λ body. record body { count = count }) }
{
    if let Some((_, body)) = &mut slots.items[slot as usize] {
        body.count = count;
    }
}

/// Writes what a procedure has.
pub(crate) fn put_procedure(slots: &mut Front<(Name, Body)>, slot: u32, procedure: Procedure)
    requires { IsSome (place slots.old slot) }
    ensures { slots.new ≡ change slots.old slot (λ body. record body { procedure = Some procedure }) }
{
    if let Some((_, body)) = &mut slots.items[slot as usize] {
        body.procedure = Some(procedure);
    }
}

/// One more word at the end.
pub(crate) fn add_word(
    slots: &mut Front<(Name, Body)>,
    slot: u32,
    word: u32,
) -> Result<(), NoMemory>
    requires slot { IsSome (place slots.old slot) }
    requires room { IfSome (place slots.old slot) (λ e. length e.1.words < 4096) }
    ensures ok { OnOk result (slots.new ≡ change slots.old slot (λ body. record body { words = body.words ++ word ∷ [] })) }
    ensures err { OnErr result (slots.new ≡ slots.old) }
{
    if let Some((_, body)) = &mut slots.items[slot as usize] {
        body.words.push(word)?;
    }
    Ok(())
}

/// One more entry at the end.
pub(crate) fn add_entry(
    slots: &mut Front<(Name, Body)>,
    slot: u32,
    entry: Entry,
) -> Result<(), NoMemory>
    requires slot { IsSome (place slots.old slot) }
    requires room { IfSome (place slots.old slot) (λ e. length e.1.entries < 256) }
    ensures ok { OnOk result (slots.new ≡ change slots.old slot (λ body. record body { entries = body.entries ++ entry ∷ [] })) }
    ensures err { OnErr result (slots.new ≡ slots.old) }
{
    if let Some((_, body)) = &mut slots.items[slot as usize] {
        body.entries.push(entry)?;
    }
    Ok(())
}
