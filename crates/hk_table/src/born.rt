//! The objects in which a world opens (`docs/RULES.md`, "The opening").

ghost use Rattle.std.specs.Prelude.{◌≡◌, ◌<◌, ◌≤◌, ◌+◌, ◌^◌, ◌++◌, [], ℕ, Some, None, IfOk, OnOk, length, map, replicate, slice_set};
ghost use Rattle.std.specs.BTreeMap.{insert_entry};
ghost use Rattle.hk_model.specs.declared.world.Born.{Born};
ghost use Rattle.hk_model.specs.declared.names.Name.{Name};
ghost use Rattle.hk_model.specs.State.{name_cmp, no_object};
ghost use Rattle.hk_model.specs.Rule.{plain_object};
ghost use Rattle.hk_model.specs.Opening.{object_of};
ghost use Rattle.hk_objects.specs.Slots.{standing, place, name_at, AreApart};
ghost use Rattle.hk_objects.specs.Shelf.{new_body};
ghost use Rattle.hk_walk.specs.Walks.{shown_at};
ghost use Rattle.hk_table.specs.Born.{Adds, named};

use hk_model::{Born, Entries, Kind, Name, NoMemory, Params, Words};
use hk_objects::{Objects, SlotNo};
use std::alloc::Global;

/// One more object of a table that has room, and the slot in which it stands.
pub(crate) fn make(objects: &mut Objects, of: Name, words: Words, entries: Entries) -> SlotNo
    requires room { length (standing objects.old.slots) < 65536 }
    requires next { objects.old.next.0 < 2 ^ 63 }
    ensures slot { result.0 < length objects.old.slots }
    ensures free { place objects.old.slots result.0 ≡ None }
    ensures apart { AreApart objects.old.slots }
    ensures above { (slot : ℕ) (name : Name) → name_at objects.old.slots slot ≡ Some name → name.0 < objects.old.next.0 }
    ensures made { objects.new ≡ record { slots = slice_set objects.old.slots result.0 (Some (objects.old.next, new_body of words entries)); next = record { 0 = objects.old.next.0 + 1 } } }
{
    let _next = objects.next_name();
    match objects.make(of, words, entries) {
        Some(slot) => slot,
        None => unreachable!(),
    }
}

/// One more object with these lists.
fn add_plain(objects: &mut Objects, of: Name, words: Words, entries: Entries)
    requires room { length (standing objects.old.slots) < 65536 }
    requires next { objects.old.next.0 < 2 ^ 63 }
    ensures { Adds objects.old objects.new (plain_object of words entries) }
{
    make(objects, of, words, entries);
}

/// One more semaphore.
fn add_semaphore(alloc: Global, objects: &mut Objects, count: u32)
    requires room { length (standing objects.old.slots) < 65536 }
    requires next { objects.old.next.0 < 2 ^ 63 }
    ensures { Adds objects.old objects.new (record (plain_object (record { 0 = 3 }) [] []) { count = count }) }
{
    let slot = make(objects, Name(3), Words::new(alloc), Entries::new(alloc));
    objects.set_count(slot, count);
}

/// One more procedure.
fn add_procedure(alloc: Global, objects: &mut Objects, code: u16, params: Params, entries: Entries)
    requires room { length (standing objects.old.slots) < 65536 }
    requires next { objects.old.next.0 < 2 ^ 63 }
    ensures { Adds objects.old objects.new (record (plain_object (record { 0 = 4 }) [] entries) { code = Some code; params = params }) }
{
    let slot = make(objects, Name(4), Words::new(alloc), entries);
    objects.set_procedure(slot, code, params);
}

/// One more object as it opens.
fn add_born(alloc: Global, objects: &mut Objects, kind: &Kind) -> Result<(), NoMemory>
    requires room { length (standing objects.old.slots) < 65536 }
    requires next { objects.old.next.0 < 2 ^ 63 }
    ensures { OnOk result (Adds objects.old objects.new (object_of kind.now)) }
{
    match kind {
        Kind::TypeObject => {
            add_plain(objects, Name(0), Words::new(alloc), Entries::new(alloc));
        }
        Kind::Plain { of, words, entries } => {
            add_plain(objects, *of, words.copy(alloc)?, entries.copy(alloc)?);
        }
        Kind::Semaphore { count } => add_semaphore(alloc, objects, *count),
        Kind::Procedure {
            code,
            params,
            entries,
        } => {
            let params = params.copy(alloc)?;
            add_procedure(alloc, objects, *code, params, entries.copy(alloc)?);
        }
    }
    Ok(())
}

/// The kernel types, which have the names 0 to 6.
fn kernel_types(alloc: Global) -> Result<Objects, NoMemory>
    ensures objects { IfOk result (λ objects. standing (map shown_at objects.slots) ≡ named (replicate 7 no_object)) }
    ensures next { IfOk result (λ objects. objects.next.0 ≡ 7) }
{
    let mut objects = Objects::with_room(alloc)?;
    for _n in 0..7u64 {
        add_plain(
            &mut objects,
            Name(0),
            Words::new(alloc),
            Entries::new(alloc),
        );
    }
    Ok(objects)
}

/// All objects of a world, those of the script behind the kernel types. NoMemory is want of memory.
pub(crate) fn objects_of(alloc: Global, born: &[Born]) -> Result<Objects, NoMemory>
    requires { length born.now ≤ 65529 }
    ensures objects { IfOk result (λ objects. standing (map shown_at objects.slots) ≡ named (replicate 7 no_object ++ map (λ (b : Born). object_of b.kind) born.now)) }
    ensures next { IfOk result (λ objects. objects.next.0 ≡ 7 + length born.now) }
{
    let mut objects = kernel_types(alloc)?;
    for object in born {
        add_born(alloc, &mut objects, &object.kind)?;
    }
    Ok(objects)
}
