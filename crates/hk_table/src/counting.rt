//! Counting what is named, where it stands (`docs/RULES.md`, "Objects that vanish").

ghost use Rattle.std.specs.Prelude.{[], ◌∷◌};
ghost use Rattle.hk_table.specs.Settled.{stack_names};
ghost use Rattle.hk_model.specs.Keeping.{entry_names};
ghost use Rattle.hk_reclaim.specs.Naming.{named_in};
ghost use Rattle.hk_table.specs.Held.{CanHold, CanRelease, CanReleaseInside, Holds, Releases, HoldsInside, ReleasesInside};

use crate::finding::slot_of;
use hk_model::{Entry, Name};
use hk_objects::Objects;
use hk_reclaim::{Counts, entry_name};
use hk_spaces::{Space, Stack};

/// A name comes from outside. Opening objects stay in any case, so they are not counted.
#[inline(always)]
pub(crate) fn hold_name(objects: &Objects, counts: &mut Counts, name: Name)
    requires { CanHold objects.now.slots (name ∷ []) counts.old }
    ensures { Holds objects.now.slots (name ∷ []) counts.old counts.new }
{
    if name.0 < counts.first_new().0 {
        return;
    }
    if let Some(slot) = slot_of(objects, name) {
        counts.hold_outside(slot);
    }
}

/// A name from outside goes, of which only those that are no opening object's are counted.
#[inline(always)]
pub(crate) fn release_name(objects: &Objects, counts: &mut Counts, name: Name)
    requires { CanRelease objects.now.slots (name ∷ []) counts.old }
    ensures { Releases objects.now.slots (name ∷ []) counts.old counts.new }
{
    if name.0 < counts.first_new().0 {
        return;
    }
    if let Some(slot) = slot_of(objects, name) {
        counts.release_outside(slot, name);
    }
}

/// An object names another.
pub(crate) fn hold_name_inside(objects: &Objects, counts: &mut Counts, name: Name)
    requires { CanHold objects.now.slots (name ∷ []) counts.old }
    ensures { HoldsInside objects.now.slots (name ∷ []) counts.old counts.new }
{
    if let Some(slot) = slot_of(objects, name) {
        counts.hold_inside(slot);
    }
}

/// An object names another no longer.
pub(crate) fn release_name_inside(objects: &Objects, counts: &mut Counts, name: Name)
    requires { CanReleaseInside objects.now.slots (name ∷ []) counts.old }
    ensures { ReleasesInside objects.now.slots (name ∷ []) counts.old counts.new }
{
    if let Some(slot) = slot_of(objects, name) {
        counts.release_inside(slot, name);
    }
}

/// What an entry names comes from outside.
#[inline(always)]
pub(crate) fn hold_entry(objects: &Objects, counts: &mut Counts, entry: &Entry)
    requires { CanHold objects.now.slots (entry_names entry.now) counts.old }
    ensures { Holds objects.now.slots (entry_names entry.now) counts.old counts.new }
{
    if let Some(name) = entry_name(entry) {
        hold_name(objects, counts, name);
    }
}

/// What entries name comes from outside.
pub(crate) fn hold_entries(objects: &Objects, counts: &mut Counts, entries: &[Entry])
    requires { CanHold objects.now.slots (named_in entries.now) counts.old }
    ensures { Holds objects.now.slots (named_in entries.now) counts.old counts.new }
{
    for entry in entries {
        hold_entry(objects, counts, entry);
    }
}

/// What an entry named from outside goes.
#[inline(always)]
pub(crate) fn release_entry(objects: &Objects, counts: &mut Counts, entry: &Entry)
    requires { CanRelease objects.now.slots (entry_names entry.now) counts.old }
    ensures { Releases objects.now.slots (entry_names entry.now) counts.old counts.new }
{
    if let Some(name) = entry_name(entry) {
        release_name(objects, counts, name);
    }
}

/// What entries named from outside goes.
pub(crate) fn release_entries(objects: &Objects, counts: &mut Counts, entries: &[Entry])
    requires { CanRelease objects.now.slots (named_in entries.now) counts.old }
    ensures { Releases objects.now.slots (named_in entries.now) counts.old counts.new }
{
    for entry in entries {
        release_entry(objects, counts, entry);
    }
}

/// What the slots of a name space name comes from outside. Nothing stands behind those that were written.
pub(crate) fn hold_space(objects: &Objects, counts: &mut Counts, space: &Space)
    requires { CanHold objects.now.slots (named_in space.now) counts.old }
    ensures { Holds objects.now.slots (named_in space.now) counts.old counts.new }
{
    hold_entries(objects, counts, space.written());
}

/// What the slots of a name space named from outside goes.
pub(crate) fn release_space(objects: &Objects, counts: &mut Counts, space: &Space)
    requires { CanRelease objects.now.slots (named_in space.now) counts.old }
    ensures { Releases objects.now.slots (named_in space.now) counts.old counts.new }
{
    release_entries(objects, counts, space.written());
}

/// An object names what an entry names.
pub(crate) fn hold_entry_inside(objects: &Objects, counts: &mut Counts, entry: &Entry)
    requires { CanHold objects.now.slots (entry_names entry.now) counts.old }
    ensures { HoldsInside objects.now.slots (entry_names entry.now) counts.old counts.new }
{
    if let Some(name) = entry_name(entry) {
        hold_name_inside(objects, counts, name);
    }
}

/// An object names what entries name.
pub(crate) fn hold_entries_inside(objects: &Objects, counts: &mut Counts, entries: &[Entry])
    requires { CanHold objects.now.slots (named_in entries.now) counts.old }
    ensures { HoldsInside objects.now.slots (named_in entries.now) counts.old counts.new }
{
    for entry in entries {
        hold_entry_inside(objects, counts, entry);
    }
}

/// An object names what an entry names no longer.
pub(crate) fn release_entry_inside(objects: &Objects, counts: &mut Counts, entry: &Entry)
    requires { CanReleaseInside objects.now.slots (entry_names entry.now) counts.old }
    ensures { ReleasesInside objects.now.slots (entry_names entry.now) counts.old counts.new }
{
    if let Some(name) = entry_name(entry) {
        release_name_inside(objects, counts, name);
    }
}

/// What the frames of a process name comes from outside.
pub(crate) fn hold_stack(objects: &Objects, counts: &mut Counts, stack: &Stack)
    requires { CanHold objects.now.slots (stack_names stack.now) counts.old }
    ensures { Holds objects.now.slots (stack_names stack.now) counts.old counts.new }
{
    for at in 0..stack.depth() {
        hold_space(objects, counts, &stack.frame(at).space);
    }
}

/// What the frames of a process named from outside goes.
pub(crate) fn release_stack(objects: &Objects, counts: &mut Counts, stack: &Stack)
    requires { CanRelease objects.now.slots (stack_names stack.now) counts.old }
    ensures { Releases objects.now.slots (stack_names stack.now) counts.old counts.new }
{
    for at in 0..stack.depth() {
        release_space(objects, counts, &stack.frame(at).space);
    }
}
