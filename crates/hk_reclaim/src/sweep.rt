//! Taking away what is not marked.

ghost use Rattle.std.specs.Prelude.{◌≡◌, ◌<◌, ◌+◌, ◌↔◌, ◌&&◌, not, ℕ, Bool, true, false, [], length, IsSome, IsTrue, slice_index_or};
ghost use Rattle.hk_model.specs.declared.names.Name.{Name};
ghost use Rattle.hk_reclaim.specs.Kept.{HasLost};
ghost use Rattle.hk_objects.specs.Slots.{place};
ghost use Rattle.hk_reclaim.specs.Made.{AreMade, IsFirst};
ghost use Rattle.hk_reclaim.specs.Reach.{IsHalfSwept, IsDropped, is_lost};
ghost use Rattle.hk_reclaim.specs.Tally.{has, AreCounted, IsCounted, SameOutside};

use crate::made::Made;
use crate::marks::Marks;
use crate::numbers::Numbers;
use hk_objects::{Objects, SlotNo};

/// Takes back what the object in a slot names, if asked to.
fn release_if(numbers: &mut Numbers, objects: &Objects, slot: u32, so: bool)
    requires stands { so ≡ true → IsSome (place objects.now.slots slot) }
    requires counted { (flag : ℕ → Bool) × (so ≡ flag slot) × IsHalfSwept objects.now.slots flag slot numbers.old }
    ensures counted { (flag : ℕ → Bool) → so ≡ flag slot → IsHalfSwept objects.now.slots flag slot numbers.old → IsHalfSwept objects.now.slots flag (slot + 1) numbers.new }
    ensures outside { SameOutside numbers.old numbers.new }
{
    if so {
        numbers.release_names(objects, SlotNo(slot));
    }
}

/// Whether a made object stands in a slot without a mark.
fn is_lost(made: &Made, marks: &Marks, slot: u32) -> bool
    requires made { slot < length made.now.stands }
    requires marks { slot < marks.now.size }
    ensures { result ≡ (slice_index_or made.now.stands slot false && not (has marks.now.slots slot)) }
{
    made.is_made(slot) && !marks.is_marked(slot)
}

/// Takes back what the made objects without a mark name.
pub(crate) fn release_lost(
    numbers: &mut Numbers,
    made: &Made,
    marks: &Marks,
    size: u32,
    objects: &Objects,
)
    requires size { size ≡ marks.now.size }
    requires made_size { length made.now.stands ≡ size }
    requires first { IsFirst made.now.from size made.now.stands }
    requires made { (first : Name) × AreMade first objects.now.slots made.now.stands }
    requires counted { IsCounted objects.now.slots numbers.old }
    ensures counted { (first : Name) → AreMade first objects.now.slots made.now.stands
        → IsHalfSwept objects.now.slots (is_lost first objects.now.slots marks.now.slots) size numbers.new }
    ensures outside { SameOutside numbers.old numbers.new }
{
    for i in made.from..size {
        release_if(numbers, objects, i, is_lost(made, marks, i));
    }
}

/// Takes down all that is pending, and nothing else.
pub(crate) fn drop_pending(numbers: &mut Numbers, objects: &mut Objects) -> bool
    requires { (owed : Name → ℕ) × AreCounted objects.old.slots owed numbers.old }
    ensures dropped { (owed : Name → ℕ) → AreCounted objects.old.slots owed numbers.old → IsDropped numbers.old.first_new numbers.old.outside owed objects.old.slots objects.new.slots }
    ensures counted { (owed : Name → ℕ) → AreCounted objects.old.slots owed numbers.old → AreCounted objects.new.slots owed numbers.new }
    ensures outside { SameOutside numbers.old numbers.new }
    ensures next { objects.new.next ≡ objects.old.next }
    ensures removed { IsTrue result ↔ HasLost objects.old.slots objects.new.slots }
    ensures pending { numbers.new.pending ≡ [] }
{
    let mut removed = false;
    while let Some(slot) = numbers.first_pending() {
        numbers.clear_pending(slot);
        objects.remove(slot);
        removed = true;
    }
    removed
}
