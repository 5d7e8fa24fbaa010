// What goes of a table of objects.

ghost use Rattle.std.specs.Prelude.{◌≡◌, ◌<◌, [], Some, length, IfOk, slice_index};
ghost use Rattle.hk_objects.specs.Slots.{place, name_at, AreApart};
ghost use Rattle.hk_objects.specs.Shelf.{new_body};
ghost use Rattle.hk_reclaim.specs.Tally.{IsCounted};

use hk_model::{Cap, Entries, Entry, Name, Words};
use hk_objects::{Objects, SlotNo};
use hk_reclaim::Counts;
use hk_rights::Rights;
use std::alloc::{AllocError, Global};
use std::test::Fail;

/// Objects and their counts, and one of the objects: its slot and its name.
#[derive(Drop)]
struct Table {
    objects: Objects,
    counts: Counts,
    slot: SlotNo,
    name: Name,
}

/// A table with no opening objects, in which one object stands, with no entries. It is named once, from outside.
fn with_one_object(alloc: Global) -> Result<Table, AllocError>
    ensures counted { IfOk result (λ table. IsCounted table.objects.slots table.counts) }
    ensures stands { IfOk result (λ table. place table.objects.slots table.slot.0 ≡ Some (table.name, new_body (record { 0 = 2 }) [] [])) }
    ensures apart { IfOk result (λ table. AreApart table.objects.slots) }
    ensures in_range { IfOk result (λ table. table.slot.0 < length table.counts.total) }
    ensures outside { IfOk result (λ table. slice_index table.counts.outside table.slot.0 ≡ 1) }
    ensures total { IfOk result (λ table. slice_index table.counts.total table.slot.0 ≡ 1) }
{
    let Ok(mut objects) = Objects::with_room(alloc) else {
        return Err(AllocError);
    };
    let Ok(mut counts) = Counts::with(alloc, 65536, Name(0)) else {
        return Err(AllocError);
    };
    let name = objects.next_name();
    // Its type is UNIVERSAL, which does not stand here.
    match objects.make(Name(2), Words::new(alloc), Entries::new(alloc)) {
        Some(slot) => {
            counts.hold_outside(slot);
            Ok(Table {
                objects,
                counts,
                slot,
                name,
            })
        }
        None => Err(AllocError),
    }
}

/// The same table, where the object has a capability for itself besides.
fn with_one_ring(alloc: Global) -> Result<Table, AllocError>
    ensures counted { IfOk result (λ table. IsCounted table.objects.slots table.counts) }
    ensures stands { IfOk result (λ table. name_at table.objects.slots table.slot.0 ≡ Some table.name) }
    ensures in_range { IfOk result (λ table. table.slot.0 < length table.counts.total) }
    ensures outside { IfOk result (λ table. slice_index table.counts.outside table.slot.0 ≡ 1) }
{
    let mut table = with_one_object(alloc)?;
    let itself = Cap {
        name: table.name,
        rights: Rights::all(),
    };
    let Ok(()) = table.objects.append(table.slot, Entry::Held(itself)) else {
        return Err(AllocError);
    };
    table.counts.hold_inside(table.slot);
    Ok(table)
}

/// In a table where nothing stands nothing can go.
#[test]
fn nothing_goes_where_nothing_stands(rt: HostRuntime) -> Result<(), Fail> {
    let Ok(mut objects) = Objects::with_room(rt.alloc()) else {
        return Err(AllocError.into());
    };
    let Ok(mut counts) = Counts::with(rt.alloc(), 4, Name(7)) else {
        return Err(AllocError.into());
    };
    assert!(rt; !counts.settle(&mut objects));
    assert!(rt; !counts.collect(&mut objects));
    Ok(())
}

/// Once nothing names an object it goes.
#[test]
fn what_nothing_names_goes(rt: HostRuntime) -> Result<(), Fail> {
    let mut table = with_one_object(rt.alloc())?;
    table.counts.release_outside(table.slot, table.name);
    assert_eq!(rt; table.objects.name_of(table.slot), Some(table.name));
    assert!(rt; table.counts.settle(&mut table.objects));
    assert_eq!(rt; table.objects.name_of(table.slot), None);
    Ok(())
}

/// What names itself alone stays until the table is collected.
#[test]
fn a_ring_goes_in_a_collection(rt: HostRuntime) -> Result<(), Fail> {
    let mut table = with_one_ring(rt.alloc())?;
    table.counts.release_outside(table.slot, table.name);
    assert!(rt; !table.counts.settle(&mut table.objects));
    assert_eq!(rt; table.objects.name_of(table.slot), Some(table.name));
    assert!(rt; table.counts.collect(&mut table.objects));
    assert_eq!(rt; table.objects.name_of(table.slot), None);
    Ok(())
}
