//! The counts of the table, and the two calls that take objects away by them.

ghost use Rattle.std.specs.Prelude.{◌≡◌, ◌<◌, ◌-◌, ◌^◌, ◌↔◌, [], length, IfOk, IsTrue, replicate, slice_index};
ghost use Rattle.hk_links.specs.Chained.{without};
ghost use Rattle.hk_reclaim.specs.Kept.{IsKept, IsReached, HasLost, only};
ghost use Rattle.hk_reclaim.specs.Naming.{stands};
ghost use Rattle.hk_reclaim.specs.Tally.{raised, lowered, released, IsCounted, SameOutside};

use crate::finding::read_apart;
use crate::made::Made;
use crate::marks::Marks;
use crate::numbers::Numbers;
use crate::reach::mark_reached;
use crate::sweep::{drop_pending, release_lost};
use hk_model::{Name, NoMemory};
use hk_objects::{Objects, SlotNo};
use std::alloc::Global;
use std::marker::Model;

/// How often each slot's object is named: `outside` by slots of live incarnations and by waiting processes, `total` by
/// objects besides. A slot whose object nothing names any longer is pending, unless it is an opening object's. Contracts
/// see these numbers, the list of the pending slots, and the first name that is no opening object's (`docs/RULES.md`,
/// "Objects that vanish").
#[derive(Drop)]
pub struct Counts {
    numbers: Numbers,
    made: Made,
    marks: Marks,
}

impl Model for Counts {
    ghost use Rattle.std.specs.Prelude.{length};
    ghost use Rattle.hk_reclaim.specs.Reach.{IsIdle};
    ghost use Rattle.hk_reclaim.specs.Tally.{Tally};

    ghost Value = { Tally };

    ghost view = { λ a. a.numbers };

    ghost invariant = { λ a. IsIdle (length a.numbers.total) a.made.from a.made.stands a.made.left a.marks };
}

impl Counts {
    /// Counts of so many slots, all 0. Objects named below `first_new` are opening objects. No other call takes memory.
    pub fn with(alloc: Global, slots: u32, first_new: Name) -> Result<Counts, NoMemory>
        ensures { IfOk result (λ t. t ≡ record { first_new = first_new; outside = replicate slots 0; total = replicate slots 0; pending = [] }) }
    {
        Ok(Counts {
            numbers: Numbers::with(alloc, slots, first_new)?,
            made: Made::with(alloc, slots)?,
            marks: Marks::with(alloc, slots)?,
        })
    }

    /// The first name of an object that is no opening object.
    #[inline(always)]
    pub fn first_new(&self) -> Name
        ensures { result ≡ self.now.first_new }
    {
        self.numbers.first_new()
    }

    /// One more naming from outside; a pending slot is pending no longer.
    #[inline(always)]
    pub fn hold_outside(&mut self, slot: SlotNo)
        requires in_range { slot.0 < length self.old.total }
        requires few { slice_index self.old.total slot.0 < 2 ^ 32 - 1 }
        ensures { self.new ≡ record self.old { outside = raised self.old.outside slot.0; total = raised self.old.total slot.0; pending = without slot.0 self.old.pending } }
    {
        self.numbers.hold_outside(slot);
    }

    /// One more naming by an object; a pending slot is pending no longer.
    #[inline(always)]
    pub fn hold_inside(&mut self, slot: SlotNo)
        requires in_range { slot.0 < length self.old.total }
        requires few { slice_index self.old.total slot.0 < 2 ^ 32 - 1 }
        ensures { self.new ≡ record self.old { total = raised self.old.total slot.0; pending = without slot.0 self.old.pending } }
    {
        self.numbers.hold_inside(slot);
    }

    /// One naming from outside fewer. The slot goes to the end of the pending ones where nothing names its object any
    /// longer, which has this name and is no opening object.
    #[inline(always)]
    pub fn release_outside(&mut self, slot: SlotNo, name: Name)
        requires in_range { slot.0 < length self.old.total }
        requires held { 0 < slice_index self.old.outside slot.0 }
        ensures { self.new ≡ record (released self.old slot.0 name) { outside = lowered self.old.outside slot.0 } }
    {
        self.numbers.release_outside(slot, name);
    }

    /// One naming by an object fewer. The slot goes to the end of the pending ones where nothing names its object any
    /// longer, which has this name and is no opening object.
    #[inline(always)]
    pub fn release_inside(&mut self, slot: SlotNo, name: Name)
        requires in_range { slot.0 < length self.old.total }
        requires held { slice_index self.old.outside slot.0 < slice_index self.old.total slot.0 }
        ensures { self.new ≡ released self.old slot.0 name }
    {
        self.numbers.release_inside(slot, name);
    }

    /// Takes down all that nothing names any longer: what is left is the greatest supported set. Gives whether an object
    /// was taken away (`docs/RULES.md`, "Objects that vanish").
    #[inline(always)]
    pub fn settle(&mut self, objects: &mut Objects) -> bool
        requires { IsCounted objects.old.slots self.old }
        ensures kept { IsKept self.old.first_new self.old.outside objects.old.slots (stands objects.new.slots) }
        ensures left { objects.new.slots ≡ only (stands objects.new.slots) objects.old.slots }
        ensures next { objects.new.next ≡ objects.old.next }
        ensures removed { IsTrue result ↔ HasLost objects.old.slots objects.new.slots }
        ensures counted { IsCounted objects.new.slots self.new }
        ensures outside { SameOutside self.old self.new }
        ensures pending { self.new.pending ≡ [] }
    {
        read_apart(objects);
        self.numbers.settle(objects)
    }

    /// Takes away all that is not reached: what is left is the least set that has the opening objects, those
    /// that are named from outside, and all that its members name. Gives whether an object was taken away.
    pub fn collect(&mut self, objects: &mut Objects) -> bool
        requires { IsCounted objects.old.slots self.old }
        ensures reached { IsReached self.old.first_new self.old.outside objects.old.slots (stands objects.new.slots) }
        ensures left { objects.new.slots ≡ only (stands objects.new.slots) objects.old.slots }
        ensures next { objects.new.next ≡ objects.old.next }
        ensures removed { IsTrue result ↔ HasLost objects.old.slots objects.new.slots }
        ensures counted { IsCounted objects.new.slots self.new }
        ensures outside { SameOutside self.old self.new }
        ensures pending { self.new.pending ≡ [] }
    {
        read_apart(objects);
        let size = self.numbers.size();
        let first_new = self.numbers.first_new();
        self.made
            .read(size, self.numbers.total(), first_new, objects);
        mark_reached(&mut self.marks, size, &self.made, first_new, objects);
        release_lost(&mut self.numbers, &self.made, &self.marks, size, objects);
        let removed = drop_pending(&mut self.numbers, objects);
        self.marks.clear();
        removed
    }
}
