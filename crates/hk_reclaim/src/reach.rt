//! Marking what is reached among the made objects.

ghost use Rattle.std.specs.Prelude.{◌≡◌, ◌<◌, ◌&&◌, ℕ, List, [], true, false, cond, length, IsSome, nat_lt, slice_index, slice_index_or};
ghost use Rattle.hk_objects.specs.Slots.{place, name_at};
ghost use Rattle.hk_reclaim.specs.Made.{AreMade, IsFirst, IsHalfLeft};
ghost use Rattle.hk_reclaim.specs.Marks.{marked_with};
ghost use Rattle.hk_reclaim.specs.Naming.{names_in};
ghost use Rattle.hk_reclaim.specs.Reach.{IsInRoom, IsMarkedBy, Grows, IsWalked, IsMarking, stays};
ghost use Rattle.hk_reclaim.specs.Tally.{has};

use crate::made::{Made, made_slot};
use crate::marks::Marks;
use crate::numbers::entry_name;
use hk_model::Name;
use hk_objects::{Objects, SlotNo};

/// Marks the made object of a name, if there is one.
fn mark_name(marks: &mut Marks, objects: &Objects, name: Option<Name>, first_new: Name)
    requires { IsInRoom objects.now.slots marks.old.size }
    ensures { IsMarkedBy first_new objects.now.slots name marks.old marks.new }
{
    if let Some(slot) = made_slot(objects, name, first_new) {
        marks.mark(slot.0);
    }
}

/// Marks all made objects that an object names.
fn mark_names(marks: &mut Marks, objects: &Objects, slot: SlotNo, first_new: Name)
    requires room { IsInRoom objects.now.slots marks.old.size }
    requires stands { IsSome (place objects.now.slots slot.0) }
    ensures { Grows first_new objects.now.slots (names_in (place objects.now.slots slot.0)) marks.old marks.new }
{
    mark_name(marks, objects, Some(objects.of(slot)), first_new);
    for entry in objects.entries(slot) {
        mark_name(marks, objects, entry_name(entry), first_new);
    }
}

/// Marks a slot, if asked to.
fn mark_if(marks: &mut Marks, slot: u32, so: bool)
    requires { slot < marks.old.size }
    ensures { marks.new ≡ record marks.old { slots = cond so (marked_with marks.old.slots slot) marks.old.slots } }
{
    if so {
        marks.mark(slot);
    }
}

/// Marks the made objects of which a naming is left.
fn mark_roots(marks: &mut Marks, size: u32, made: &Made)
    requires stands { length made.now.stands ≡ size }
    requires left { length made.now.left ≡ size }
    requires first { IsFirst made.now.from size made.now.stands }
    requires empty { marks.old ≡ record { size = size; slots = [] } }
    ensures size { marks.new.size ≡ size }
    ensures roots { (k : ℕ) → has marks.new.slots k ≡ (nat_lt k size && (slice_index_or made.now.stands k false && nat_lt 0 (slice_index made.now.left k))) }
{
    for i in made.from..size {
        mark_if(marks, i, made.is_root(i));
    }
}

/// Marks all made objects that marked objects name, mark by mark.
fn walk(marks: &mut Marks, size: u32, objects: &Objects, first_new: Name)
    requires size { size ≡ marks.old.size }
    requires room { IsInRoom objects.now.slots marks.old.size }
    requires stand { (k : ℕ) → has marks.old.slots k ≡ true → IsSome (place objects.now.slots k) }
    ensures { IsWalked first_new objects.now.slots marks.old marks.new (length marks.new.slots) }
{
    for k in 0..size {
        match marks.at(k) {
            Some(slot) => mark_names(marks, objects, SlotNo(slot), first_new),
            None => return,
        }
    }
    let _few = marks.at(0);
}

/// Marks the made objects that are reached.
pub(crate) fn mark_reached(
    marks: &mut Marks,
    size: u32,
    made: &Made,
    first_new: Name,
    objects: &Objects,
)
    requires stands_size { length made.now.stands ≡ size }
    requires left_size { length made.now.left ≡ size }
    requires first { IsFirst made.now.from size made.now.stands }
    requires empty { marks.old ≡ record { size = size; slots = [] } }
    requires room { IsInRoom objects.now.slots size }
    requires stands { AreMade first_new objects.now.slots made.now.stands }
    ensures size { marks.new.size ≡ size }
    ensures marks { (outside : List ℕ) → IsHalfLeft first_new objects.now.slots outside size made.now.left
        → IsMarking first_new outside objects.now.slots (stays first_new objects.now.slots marks.new.slots) }
{
    mark_roots(marks, size, made);
    walk(marks, size, objects, first_new);
}
