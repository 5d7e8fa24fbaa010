//! Walks along a path (`docs/RULES.md`, "Walks").

ghost use Rattle.std.specs.Prelude.{◌≡◌, ◌<◌, ◌≤◌, length};
ghost use Rattle.hk_model.specs.declared.entries.Entry.TheVariants.{Held};
ghost use Rattle.hk_model.specs.State.{incarnation, process};
ghost use Rattle.hk_model.specs.Refusing.{item_at};
ghost use Rattle.hk_model.specs.Walking.{walk, walk_on};
ghost use Rattle.hk_walk.specs.Walks.{seen, AreRight};

use crate::parts::Parts;
use hk_merge::held;
use hk_model::{Cap, Entry, Path, Proc, Refusal, Template};
use hk_objects::{Objects, Steps};
use hk_walk::Walker;
use std::marker::{Brand, PhantomData};
use std::sync::ledger::{Blank, Ledger};

/// A walk on a ledger of its own.
fn walked_on<L: Ledger>(
    walker: &mut Walker,
    objects: &Objects,
    from: &Cap,
    rest: &[u16],
    blank: Blank,
) -> Result<Entry, Refusal>
    requires name { blank.name ≡ L.name }
    requires parts { blank.parts ≡ L.parts }
    requires some { 0 < L.parts }
    requires short { length rest.now ≤ 7 }
    requires right { AreRight (seen objects.now.slots) walker.old.pairs }
    ensures value { result ≡ walk_on (seen objects.now.slots) (Held from.now) rest.now 0 }
    ensures right { AreRight (seen objects.now.slots) walker.new.pairs }
{
    let mut steps = Steps::<L>::new(blank);
    walker.walk(objects, *from, rest, &mut steps)
}

/// A walk over the objects, by who counts no finds. It stands apart, since a path of one index makes none.
#[inline(never)]
fn walked(
    walker: &mut Walker,
    objects: &Objects,
    from: &Cap,
    rest: &[u16],
) -> Result<Entry, Refusal>
    requires short { length rest.now ≤ 7 }
    requires right { AreRight (seen objects.now.slots) walker.old.pairs }
    ensures value { result ≡ walk_on (seen objects.now.slots) (Held from.now) rest.now 0 }
    ensures right { AreRight (seen objects.now.slots) walker.new.pairs }
{
    walked_on::<Brand>(walker, objects, from, rest, Blank::new(1))
}

impl Parts {
    /// The entry at a path's first index, which is a slot.
    #[inline(always)]
    fn first_entry(&self, proc: Proc, at: u16) -> Result<Entry, Refusal>
        requires { proc.0 < length self.now.processes }
        ensures { result ≡ item_at (incarnation self.now (process self.now proc).current).slots at 0 }
    {
        match self.stacks.top_slots(proc).get(at as usize) {
            Some(entry) => Ok(*entry),
            None => Err(Refusal::Range { step: 0 }),
        }
    }

    /// What the rest of a path leads to, from an entry.
    #[inline(always)]
    fn walk_on(&mut self, first: Entry, rest: &[u16]) -> Result<Entry, Refusal>
        requires { length rest.now ≤ 7 }
        ensures value { result ≡ walk_on self.old first rest.now 0 }
        ensures same { self.new ≡ self.old }
    {
        if rest.is_empty() {
            return Ok(first);
        }
        match held(first, 0) {
            Ok(from) => walked(&mut self.walker, &self.objects, &from, rest),
            Err(refusal) => Err(refusal),
        }
    }

    /// What a path leads to, from the slots of the current incarnation of a process.
    ///
    /// `Range` where an index is past its list; `Empty`, `NotCap` and `Denied` where the walk would go on through what is no
    /// capability with LOAD, or would take a template without ENV.
    #[inline(always)]
    pub(crate) fn walk(&mut self, proc: Proc, path: &Path) -> Result<Entry, Refusal>
        requires { proc.0 < length self.old.processes }
        ensures value { result ≡ walk self.old (process self.old proc).current path.now }
        ensures same { self.new ≡ self.old }
    {
        let _ = PhantomData::<Template>; // so that the check knows what an Entry holds
        let _len = path.len();
        let first = self.first_entry(proc, path.at(0))?;
        self.walk_on(first, &path.as_slice()[1..])
    }
}
