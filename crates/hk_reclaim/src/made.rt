//! The objects made since the table opened, and how often others than these name them.

ghost use Rattle.std.specs.Prelude.{◌≡◌, ◌<◌, ◌+◌, ◌&&◌, ℕ, List, None, false, length, nat_lt, IfOk, IfSome, IsSome, slice_index, slice_index_or};
ghost use Rattle.hk_model.specs.declared.names.Name.{Name};
ghost use Rattle.hk_objects.specs.Slots.{place, name_at};
ghost use Rattle.hk_reclaim.specs.Made.{is_made, AreMade, AreLeft, IsFirst, IsHalfLeft, IsMadeAt, IsTakeable, IsTakenOff};
ghost use Rattle.hk_reclaim.specs.Naming.{names_in, namings};
ghost use Rattle.hk_reclaim.specs.Reach.{IsInRoom};
ghost use Rattle.hk_reclaim.specs.Tally.{owing};

use crate::finding::slot_of;
use crate::numbers::entry_name;
use crate::per_slot::PerSlot;
use hk_model::{Name, NoMemory};
use hk_objects::{Objects, SlotNo};
use std::alloc::Global;

/// The slots in which made objects stand, and how often each of these objects is named, less the namings taken off.
/// In no slot below `from` a made object stands.
#[derive(Drop)]
pub(crate) struct Made {
    pub(crate) from: u32,
    stands: PerSlot<bool>,
    left: PerSlot<u32>,
}

/// Whether a made object stands in a slot.
fn is_made(objects: &Objects, slot: SlotNo, first_new: Name) -> bool
    ensures { result ≡ is_made first_new (name_at objects.now.slots slot.0) }
{
    match objects.name_of(slot) {
        Some(name) => name.0 >= first_new.0,
        None => false,
    }
}

/// The slot of the made object of a name. None exactly where there is no name, or no made object has it.
pub(crate) fn made_slot(objects: &Objects, name: Option<Name>, first_new: Name) -> Option<SlotNo>
    ensures found { IfSome result (λ slot. IsMadeAt first_new objects.now.slots name slot.0) }
    ensures none { result ≡ None → (k : ℕ) → IsMadeAt first_new objects.now.slots name k → ⊥ }
{
    match name {
        Some(name) => {
            if name.0 >= first_new.0 {
                slot_of(objects, name)
            } else {
                None
            }
        }
        None => None,
    }
}

/// A number of slots, from the first on, in which no made object stands: opening objects stand in the slots of their own
/// numbers.
fn opening_slots(objects: &Objects, first_new: Name) -> u32
    ensures { (k : ℕ) → k < result → is_made first_new (name_at objects.now.slots k) ≡ false }
{
    first_new.0.min(objects.in_place() as u64) as u32
}

/// Writes for each slot from one on whether a made object stands there.
fn read_stands(stands: &mut PerSlot<bool>, from: u32, size: u32, first_new: Name, objects: &Objects)
    requires size { length stands.old ≡ size }
    requires room { IsInRoom objects.now.slots size }
    requires first { IsFirst from size stands.old }
    requires opening { (k : ℕ) → k < from → is_made first_new (name_at objects.now.slots k) ≡ false }
    ensures size { length stands.new ≡ size }
    ensures stands { AreMade first_new objects.now.slots stands.new }
{
    for i in from..size {
        stands.set(i, is_made(objects, SlotNo(i), first_new));
    }
}

/// Takes off one naming of the made object of a name, if there is one.
fn take_off(left: &mut PerSlot<u32>, objects: &Objects, name: Option<Name>, first_new: Name)
    requires { IsTakeable first_new objects.now.slots name left.old }
    ensures { IsTakenOff first_new objects.now.slots name left.old left.new }
{
    if let Some(slot) = made_slot(objects, name, first_new) {
        left.lower(slot.0);
    }
}

/// Takes off all namings by an object.
fn take_off_names(left: &mut PerSlot<u32>, objects: &Objects, slot: SlotNo, first_new: Name)
    requires stands { IsSome (place objects.now.slots slot.0) }
    requires left { (outside : List ℕ) × (owed : Name → ℕ) × AreLeft first_new objects.now.slots outside (owing owed (names_in (place objects.now.slots slot.0))) left.old }
    ensures left { (outside : List ℕ) (owed : Name → ℕ) → AreLeft first_new objects.now.slots outside (owing owed (names_in (place objects.now.slots slot.0))) left.old
        → AreLeft first_new objects.now.slots outside owed left.new }
    ensures size { length left.new ≡ length left.old }
{
    take_off(left, objects, Some(objects.of(slot)), first_new);
    for entry in objects.entries(slot) {
        take_off(left, objects, entry_name(entry), first_new);
    }
}

/// Takes off all namings by the object in a slot, if asked to.
fn take_off_if(left: &mut PerSlot<u32>, objects: &Objects, slot: u32, first_new: Name, so: bool)
    requires so { so ≡ is_made first_new (name_at objects.now.slots slot) }
    requires left { (outside : List ℕ) × IsHalfLeft first_new objects.now.slots outside slot left.old }
    ensures left { (outside : List ℕ) → IsHalfLeft first_new objects.now.slots outside slot left.old → IsHalfLeft first_new objects.now.slots outside (slot + 1) left.new }
    ensures size { length left.new ≡ length left.old }
{
    if so {
        take_off_names(left, objects, SlotNo(slot), first_new);
    }
}

impl Made {
    /// Room for so many slots. No other call takes memory.
    pub(crate) fn with(alloc: Global, slots: u32) -> Result<Made, NoMemory>
        ensures stands { IfOk result (λ made. length made.stands ≡ slots) }
        ensures left { IfOk result (λ made. length made.left ≡ slots) }
        ensures first { IfOk result (λ made. IsFirst made.from slots made.stands) }
    {
        Ok(Made {
            from: slots,
            stands: PerSlot::with(alloc, slots, false)?,
            left: PerSlot::with(alloc, slots, 0)?,
        })
    }

    /// Whether a made object stands in a slot.
    pub(crate) fn is_made(&self, slot: u32) -> bool
        requires { slot < length self.now.stands }
        ensures { result ≡ slice_index_or self.now.stands slot false }
    {
        self.stands.get(slot)
    }

    /// Whether a made object stands in a slot, and a naming of it is left.
    pub(crate) fn is_root(&self, slot: u32) -> bool
        requires stands { slot < length self.now.stands }
        requires left { slot < length self.now.left }
        ensures { result ≡ (slice_index_or self.now.stands slot false && nat_lt 0 (slice_index self.now.left slot)) }
    {
        self.stands.get(slot) && 0 < self.left.get(slot)
    }

    /// Reads which objects are made ones, and how often each is named. What the made ones name is taken off.
    pub(crate) fn read(
        &mut self,
        size: u32,
        total: &PerSlot<u32>,
        first_new: Name,
        objects: &Objects,
    )
        requires stands { length self.old.stands ≡ size }
        requires left { length self.old.left ≡ size }
        requires total { length total.now ≡ size }
        requires first { IsFirst self.old.from size self.old.stands }
        requires room { IsInRoom objects.now.slots size }
        requires counted { (outside : List ℕ) × AreLeft first_new objects.now.slots outside (namings objects.now.slots) total.now }
        ensures stands { AreMade first_new objects.now.slots self.new.stands }
        ensures left { (outside : List ℕ) → AreLeft first_new objects.now.slots outside (namings objects.now.slots) total.now
            → IsHalfLeft first_new objects.now.slots outside size self.new.left }
        ensures stands_size { length self.new.stands ≡ size }
        ensures left_size { length self.new.left ≡ size }
        ensures first { IsFirst self.new.from size self.new.stands }
    {
        self.from = self.from.min(opening_slots(objects, first_new));
        read_stands(&mut self.stands, self.from, size, first_new, objects);
        self.left.copy_from(total, self.from);
        for i in self.from..size {
            take_off_if(&mut self.left, objects, i, first_new, self.stands.get(i));
        }
    }
}
