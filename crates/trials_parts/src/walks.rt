// Walks, the latest of them remembered.

ghost use Rattle.std.specs.Prelude.{◌≡◌, ◌<◌, ◌≤◌, ◌^◌, [], length, IfOk};
ghost use Rattle.hk_walk.specs.Walks.{seen, AreRight};

use hk_model::{Cap, Entries, Entry, Name, Refusal, Words};
use hk_objects::{Objects, Steps};
use hk_rights::{Right, Rights};
use hk_walk::Walker;
use std::alloc::{AllocError, Global};
use std::marker::Brand;
use std::sync::ledger::{Blank, Ledger};
use std::test::Fail;

/// An object with two capabilities for it in its list, with LOAD and ENV and with ENV alone; and the first of them.
fn own(alloc: Global, objects: &mut Objects) -> Result<Cap, AllocError>
    requires { objects.old.next.0 < 2 ^ 63 }
{
    let name = objects.next_name();
    let rights = Rights::LOAD.union(Rights::ENV);
    let mut entries = Entries::new(alloc);
    entries.push(Entry::Held(Cap { name, rights }))?;
    entries.push(Entry::Held(Cap {
        name,
        rights: Rights::ENV,
    }))?;
    match objects.make(Name(1), Words::new(alloc), entries) {
        Some(_slot) => Ok(Cap { name, rights }),
        None => Err(AllocError),
    }
}

/// A walk on a ledger of its own, which makes at most one find per index.
fn walked_on<L: Ledger>(
    walker: &mut Walker,
    objects: &Objects,
    from: &Cap,
    rest: &[u16],
    blank: Blank,
) -> Result<Entry, Refusal>
    requires name { blank.name ≡ L.name }
    requires parts { blank.parts ≡ L.parts }
    requires some { 0 < L.parts }
    requires short { length rest.now ≤ 7 }
    requires right { AreRight (seen objects.now.slots) walker.old.pairs }
    ensures right { AreRight (seen objects.now.slots) walker.new.pairs }
{
    let mut steps = Steps::<L>::new(blank);
    walker.walk(objects, *from, rest, &mut steps)
}

/// A walk.
fn walked(
    walker: &mut Walker,
    objects: &Objects,
    from: &Cap,
    rest: &[u16],
) -> Result<Entry, Refusal>
    requires short { length rest.now ≤ 7 }
    requires right { AreRight (seen objects.now.slots) walker.old.pairs }
    ensures right { AreRight (seen objects.now.slots) walker.new.pairs }
{
    walked_on::<Brand>(walker, objects, from, rest, Blank::new(1))
}

/// The walk if it is remembered: it makes no find.
fn found<L: Ledger>(
    walker: &mut Walker,
    objects: &Objects,
    from: &Cap,
    rest: &[u16],
    steps: &mut Steps<L>,
) -> Option<Result<Entry, Refusal>>
    requires short { length rest.now ≤ 7 }
    requires right { AreRight (seen objects.now.slots) walker.old.pairs }
    ensures right { AreRight (seen objects.now.slots) walker.new.pairs }
    ensures count { steps.new ≡ steps.old }
{
    if walker.remembers(*from, rest) {
        Some(walker.walk(objects, *from, rest, steps))
    } else {
        None
    }
}

/// The same on a ledger of its own.
fn found_on<L: Ledger>(
    walker: &mut Walker,
    objects: &Objects,
    from: &Cap,
    rest: &[u16],
    blank: Blank,
) -> Option<Result<Entry, Refusal>>
    requires name { blank.name ≡ L.name }
    requires parts { blank.parts ≡ L.parts }
    requires some { 0 < L.parts }
    requires short { length rest.now ≤ 7 }
    requires right { AreRight (seen objects.now.slots) walker.old.pairs }
    ensures right { AreRight (seen objects.now.slots) walker.new.pairs }
{
    let mut steps = Steps::<L>::new(blank);
    found(walker, objects, from, rest, &mut steps)
}

/// The walk again, if it is remembered.
fn walked_again(
    walker: &mut Walker,
    objects: &Objects,
    from: &Cap,
    rest: &[u16],
) -> Option<Result<Entry, Refusal>>
    requires short { length rest.now ≤ 7 }
    requires right { AreRight (seen objects.now.slots) walker.old.pairs }
    ensures right { AreRight (seen objects.now.slots) walker.new.pairs }
{
    found_on::<Brand>(walker, objects, from, rest, Blank::new(1))
}

/// Objects, a walker over them, and a capability to begin with.
#[derive(Drop)]
struct Begun {
    objects: Objects,
    walker: Walker,
    from: Cap,
}

/// A table with one object, and a walker that remembers up to so many walks.
#[tactic(auto, using(hk_walk::proofs::Kept::right_none))]
fn begun_with(alloc: Global, capacity: usize) -> Result<Begun, AllocError>
    requires { 1 ≤ capacity }
    ensures { IfOk result (λ begun. AreRight (seen begun.objects.slots) begun.walker.pairs) }
{
    let Ok(mut objects) = Objects::with_room(alloc) else {
        return Err(AllocError);
    };
    let from = own(alloc, &mut objects)?;
    let Ok(walker) = Walker::with(alloc, capacity) else {
        return Err(AllocError);
    };
    Ok(Begun {
        objects,
        walker,
        from,
    })
}

/// Whether a walk leads to the capability that it began with, and is remembered from then on and not before.
fn leads_back(walker: &mut Walker, objects: &Objects, from: &Cap, rest: &[u16]) -> bool
    requires short { length rest.now ≤ 7 }
    requires right { AreRight (seen objects.now.slots) walker.old.pairs }
    ensures right { AreRight (seen objects.now.slots) walker.new.pairs }
{
    let before = walker.remembers(*from, rest);
    let is_right = walked(walker, objects, from, rest) == Ok(Entry::Held(*from));
    !before && is_right && walker.remembers(*from, rest)
}

/// Whether a walk is refused in this way, and is not remembered.
fn is_refused(
    walker: &mut Walker,
    objects: &Objects,
    from: &Cap,
    rest: &[u16],
    refusal: Refusal,
) -> bool
    requires short { length rest.now ≤ 7 }
    requires right { AreRight (seen objects.now.slots) walker.old.pairs }
    ensures right { AreRight (seen objects.now.slots) walker.new.pairs }
{
    walked(walker, objects, from, rest) == Err(refusal) && !walker.remembers(*from, rest)
}

/// Whether a walk is remembered, and leads to the capability that it began with.
fn leads_back_again(walker: &mut Walker, objects: &Objects, from: &Cap, rest: &[u16]) -> bool
    requires short { length rest.now ≤ 7 }
    requires right { AreRight (seen objects.now.slots) walker.old.pairs }
    ensures right { AreRight (seen objects.now.slots) walker.new.pairs }
{
    walked_again(walker, objects, from, rest) == Some(Ok(Entry::Held(*from)))
}

/// Whether a walk was remembered until nothing is.
fn is_forgotten(walker: &mut Walker, from: &Cap, rest: &[u16]) -> bool
    requires { length rest.now ≤ 7 }
    ensures { walker.new.pairs ≡ [] }
{
    let before = walker.remembers(*from, rest);
    walker.forget();
    before && !walker.remembers(*from, rest)
}

#[tactic(auto, using(hk_walk::proofs::Kept::right_none))]
#[test]
fn a_walk_is_remembered_until_it_is_forgotten(rt: HostRuntime) -> Result<(), Fail> {
    let mut on = begun_with(rt.alloc(), 256)?;
    let path = [0; 7];
    assert!(rt; leads_back(&mut on.walker, &on.objects, &on.from, &path));
    assert!(rt; leads_back_again(&mut on.walker, &on.objects, &on.from, &path));
    assert!(rt; is_forgotten(&mut on.walker, &on.from, &path));
    assert!(rt; leads_back(&mut on.walker, &on.objects, &on.from, &path));
    Ok(())
}

#[test]
fn a_refused_walk_is_not_remembered(rt: HostRuntime) -> Result<(), Fail> {
    let mut on = begun_with(rt.alloc(), 256)?;
    let right = Right::LOAD;
    let shut = Cap {
        name: on.from.name,
        rights: Rights::ENV,
    };
    let first = Refusal::Denied { step: 0, right };
    assert!(rt; is_refused(&mut on.walker, &on.objects, &shut, &[0; 7], first));
    let path = [0, 0, 0, 1, 0, 0, 0];
    let later = Refusal::Denied { step: 4, right };
    assert!(rt; is_refused(&mut on.walker, &on.objects, &on.from, &path, later));
    let past = Refusal::Range { step: 1 };
    assert!(rt; is_refused(&mut on.walker, &on.objects, &on.from, &[2], past));
    Ok(())
}

#[test]
fn the_latest_walks_stay(rt: HostRuntime) -> Result<(), Fail> {
    let mut on = begun_with(rt.alloc(), 1)?;
    let from = on.from;
    let alone = walked(&mut on.walker, &on.objects, &from, &[]);
    assert_eq!(rt; alone, Ok(Entry::Held(from)));
    assert!(rt; leads_back(&mut on.walker, &on.objects, &from, &[0]));
    assert!(rt; leads_back(&mut on.walker, &on.objects, &from, &[0, 0]));
    assert!(rt; !on.walker.remembers(from, &[0]));
    assert!(rt; !on.walker.remembers(from, &[]));
    Ok(())
}
