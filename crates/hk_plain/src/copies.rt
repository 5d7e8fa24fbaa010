//! Equal copies of objects and incarnations, and lists to which an item is added or whose last item goes.

ghost use Rattle.std.specs.Prelude.{◌≡◌, ◌-◌, ◌<◌, ◌++◌, ◌∷◌, [], length, take, IfOk, OnOk, OnErr};

use hk_model::{Entries, Entry, Incarnation, Items, NoMemory, Object, Proc, Template, Words};
use std::alloc::{AllocError, Global};
use std::marker::PhantomData;
use std::mem;

/// An equal object.
pub(crate) fn object_copy(alloc: Global, object: &Object) -> Result<Object, AllocError>
    ensures { IfOk result (λ copy. copy ≡ object.now) }
{
    let words = object.words.copy(alloc)?;
    let entries = object.entries.copy(alloc)?;
    let waiters = object.waiters.copy(alloc)?;
    let params = object.params.copy(alloc)?;
    Ok(Object {
        of: object.of,
        words,
        entries,
        count: object.count,
        waiters,
        code: object.code,
        params,
    })
}

/// An equal incarnation.
pub(crate) fn incarnation_copy(
    alloc: Global,
    incarnation: &Incarnation,
) -> Result<Incarnation, AllocError>
    ensures { IfOk result (λ copy. copy ≡ incarnation.now) }
{
    let slots = incarnation.slots.copy(alloc)?;
    Ok(Incarnation {
        proc: incarnation.proc,
        procedure: incarnation.procedure,
        caller: incarnation.caller,
        into: incarnation.into,
        confined: incarnation.confined,
        slots,
    })
}

/// Adds an entry after the last. A list that had none takes room for one, since most lists stay that short.
fn push_behind(items: &mut Vec<Entry>, entry: Entry) -> Result<(), AllocError>
    ensures ok { OnOk result (items.new.items ≡ items.old.items ++ entry ∷ []) }
    ensures err { OnErr result (items.new.items ≡ items.old.items) }
{
    let _ = PhantomData::<Template>; // Rattle is to know what an Entry holds
    if items.is_empty() {
        items.reserve_exact(1)?;
    }
    if items.push(entry).is_err() {
        return Err(AllocError);
    }
    Ok(())
}

/// Adds an entry after the last of a list that has room for it. NoMemory is want of memory.
pub(crate) fn push_entry(alloc: Global, entries: &mut Entries, entry: Entry) -> Result<(), NoMemory>
    requires { length entries.old < 256 }
    ensures ok { OnOk result (entries.new ≡ entries.old ++ entry ∷ []) }
    ensures err { OnErr result (entries.new ≡ entries.old) }
{
    let _ = PhantomData::<Template>; // Rattle is to know what an Entry holds
    let mut items = mem::replace(entries, Entries::new(alloc)).into_vec();
    let pushed = push_behind(&mut items, entry);
    *entries = Entries::from_vec(items);
    pushed?;
    Ok(())
}

/// The last word goes, if there is one.
pub(crate) fn pop_word(alloc: Global, words: &mut Words)
    ensures { words.new ≡ take (length words.old - 1) words.old }
{
    let mut items = mem::replace(words, Words::new(alloc)).into_vec();
    let _last = items.pop();
    *words = Words::from_vec(items);
}

/// The last entry goes, if there is one.
pub(crate) fn pop_entry(alloc: Global, entries: &mut Entries)
    ensures { entries.new ≡ take (length entries.old - 1) entries.old }
{
    let _ = PhantomData::<Template>; // Rattle is to know what an Entry holds
    let mut items = mem::replace(entries, Entries::new(alloc)).into_vec();
    let _last: Option<Entry> = items.pop();
    *entries = Entries::from_vec(items);
}

/// The last waiting process goes, if there is one.
pub(crate) fn pop_waiter(alloc: Global, waiters: &mut Items<Proc>)
    ensures { waiters.new ≡ take (length waiters.old - 1) waiters.old }
{
    let mut items = mem::replace(waiters, Items::new(alloc)).into_vec();
    let _last = items.pop();
    *waiters = Items::from_vec(items);
}
