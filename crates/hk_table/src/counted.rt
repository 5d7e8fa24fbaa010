//! The counts in which a world opens (`docs/RULES.md`, "Objects that vanish").

ghost use Rattle.std.specs.Prelude.{◌≡◌, ◌≤◌, ℕ, List, Some, length, IfOk, IfSome};
ghost use Rattle.hk_model.specs.declared.names.Name.{Name};
ghost use Rattle.hk_model.specs.declared.objects.Process.{Process};
ghost use Rattle.hk_objects.specs.declared.body.Body.{Body};
ghost use Rattle.hk_objects.specs.Slots.{place};
ghost use Rattle.hk_reclaim.specs.Naming.{names_in, namings};
ghost use Rattle.hk_table.specs.Held.{AreHeld, CanHold, HasPlace, Holds, HoldsInside};
ghost use Rattle.hk_table.specs.Settled.{all_names, wait_namings};
ghost use Rattle.hk_table.specs.Small.{AreSmallStacks};
ghost use Rattle.hk_table.specs.Told.{AreTold};

use crate::counting::{hold_entries_inside, hold_name_inside, hold_stack};
use crate::stacks::Stacks;
use hk_model::NoMemory;
use hk_objects::{Objects, SlotNo};
use hk_reclaim::Counts;
use hk_spaces::Stack;
use std::alloc::Global;

/// What the object in a slot names, if one stands there.
fn hold_object(objects: &Objects, counts: &mut Counts, slot: SlotNo)
    requires { HasPlace objects.now.slots counts.old }
    ensures held { HoldsInside objects.now.slots (names_in (place objects.now.slots slot.0)) counts.old counts.new }
    ensures few { IfSome (place objects.now.slots slot.0) (λ e. length e.1.entries ≤ 256) }
{
    match objects.name_of(slot) {
        None => (),
        Some(_name) => {
            hold_name_inside(objects, counts, objects.of(slot));
            hold_entries_inside(objects, counts, objects.entries(slot));
        }
    }
}

/// What all objects name.
fn hold_objects(objects: &Objects, counts: &mut Counts)
    requires { AreHeld objects.now.slots (λ n. 0) (λ n. 0) counts.old }
    ensures held { AreHeld objects.now.slots (λ n. 0) (namings objects.now.slots) counts.new }
    ensures few { (k : ℕ) (e : Name × Body) → place objects.now.slots k ≡ Some e → length e.1.entries ≤ 256 }
    ensures first { counts.new.first_new ≡ counts.old.first_new }
{
    let _next = objects.next_name(); // so that the check knows how many slots there are
    for slot in 0..65536u32 {
        hold_object(objects, counts, SlotNo(slot));
    }
}

/// What the frames of these processes name.
fn hold_stacks(objects: &Objects, counts: &mut Counts, stacks: &[Stack])
    requires { CanHold objects.now.slots (all_names stacks.now) counts.old }
    ensures { Holds objects.now.slots (all_names stacks.now) counts.old counts.new }
{
    for n in 0..stacks.len() {
        hold_stack(objects, counts, &stacks[n]);
    }
}

/// The counts of a world that opens: of what its objects name, and the frames of its processes. NoMemory is want of memory.
pub(crate) fn counted(alloc: Global, objects: &Objects, stacks: &Stacks) -> Result<Counts, NoMemory>
    requires { AreSmallStacks stacks.now.stacks }
    ensures { IfOk result (λ t. (ps : List Process) → length ps ≤ 256 → ((n : Name) → wait_namings n ps ≡ 0) → AreTold objects.now stacks.now.stacks ps objects.now.next t) }
{
    let first_new = objects.next_name();
    let mut counts = Counts::with(alloc, 65536, first_new)?;
    hold_objects(objects, &mut counts);
    hold_stacks(objects, &mut counts, stacks.as_slice());
    Ok(counts)
}
