//! An event is taken back (`docs/RULES.md`, "Lines taken back").
//!
//! What went is put back first, and what may want memory of the rest comes next: where it is short,
//! what was put back goes again, so that nothing has changed.

ghost use Rattle.std.specs.Prelude.{◌≡◌, ◌<◌, ℕ, Some, None, OnOk, OnErr, slice_get};
ghost use Rattle.std.specs.Map.{lookup, remove_entry};
ghost use Rattle.std.specs.BTreeMap.{insert_entry};
ghost use Rattle.hk_model.specs.declared.names.Inc.{Inc};
ghost use Rattle.hk_model.specs.declared.objects.Incarnation.{Incarnation};
ghost use Rattle.hk_model.specs.State.{same_name, same_inc, name_cmp, inc_cmp};
ghost use Rattle.hk_plain.specs.Changes.{IsBehind, taken_back, AreNewObjects, AreNewIncarnations, objects_with, incarnations_with};
ghost use Rattle.hk_plain.specs.Restoring.{objects_without, incarnations_without};

use crate::copies::{incarnation_copy, object_copy};
use crate::counted::insert;
use crate::inverse::Inverse;
use crate::removed::Removed;
use crate::restoring::take_out;
use crate::tables::Tables;
use hk_model::{Inc, Incarnation, Name, NoMemory, Object};
use std::alloc::Global;

impl Tables {
    /// An object that went stands again.
    fn put_object(&mut self, alloc: Global, name: Name, object: &Object) -> Result<(), NoMemory>
        ensures ok { OnOk result (self.new ≡ record self.old { objects = insert_entry name_cmp self.old.objects name object.now }) }
        ensures err { OnErr result (self.new ≡ self.old) }
    {
        let copy = object_copy(alloc, object)?;
        self.counts.add(name, self.objects.len())?;
        insert(&mut self.objects, name, copy, &mut self.counts)?;
        Ok(())
    }

    /// An object goes.
    fn take_object(&mut self, name: Name)
        ensures { self.new ≡ record self.old { objects = remove_entry (same_name name) self.old.objects } }
    {
        take_out(&mut self.objects, name, &mut self.counts);
    }

    /// The objects of these names go.
    fn take_objects(&mut self, gone: &[(Name, Object)])
        ensures { self.new ≡ record self.old { objects = objects_without gone.now self.old.objects } }
    {
        for (name, _object) in gone {
            self.take_object(*name);
        }
    }

    /// The objects that went stand again, the last that went first.
    fn put_objects(&mut self, alloc: Global, gone: &[(Name, Object)]) -> Result<(), NoMemory>
        requires { AreNewObjects gone.now self.old.objects }
        ensures ok { OnOk result (self.new ≡ record self.old { objects = objects_with gone.now self.old.objects }) }
        ensures err { OnErr result (self.new ≡ self.old) }
    {
        for at in (0..gone.len()).rev() {
            let (name, object) = &gone[at];
            if self.put_object(alloc, *name, object).is_err() {
                self.take_objects(&gone[at + 1..]);
                return Err(NoMemory);
            }
        }
        Ok(())
    }

    /// An incarnation that went lives again.
    fn put_incarnation(
        &mut self,
        alloc: Global,
        inc: Inc,
        incarnation: &Incarnation,
    ) -> Result<(), NoMemory>
        requires below { inc.0 < self.old.next_inc.0 }
        requires absent { lookup (same_inc inc) self.old.incarnations ≡ None }
        ensures ok { OnOk result (self.new ≡ record self.old { incarnations = insert_entry inc_cmp self.old.incarnations inc incarnation.now }) }
        ensures err { OnErr result (self.new ≡ self.old) }
    {
        let copy = incarnation_copy(alloc, incarnation)?;
        self.incarnations
            .put_back(alloc, inc, copy, &mut self.counts)?;
        Ok(())
    }

    /// An incarnation goes.
    fn take_incarnation(&mut self, inc: Inc)
        ensures { self.new ≡ record self.old { incarnations = remove_entry (same_inc inc) self.old.incarnations } }
    {
        self.remove_incarnation(inc, &mut Removed::dropped());
    }

    /// The incarnations of these numbers go.
    fn take_incarnations(&mut self, left: &[(Inc, Incarnation)])
        ensures { self.new ≡ record self.old { incarnations = incarnations_without left.now self.old.incarnations } }
    {
        for (inc, _incarnation) in left {
            self.take_incarnation(*inc);
        }
    }

    /// The incarnations that went live again, the last that went first.
    fn put_incarnations(
        &mut self,
        alloc: Global,
        left: &[(Inc, Incarnation)],
    ) -> Result<(), NoMemory>
        requires absent { AreNewIncarnations left.now self.old.incarnations }
        requires below { (e : Inc × Incarnation) → (k : ℕ) → slice_get left.now k ≡ Some e → e.0.0 < self.old.next_inc.0 }
        ensures ok { OnOk result (self.new ≡ record self.old { incarnations = incarnations_with left.now self.old.incarnations }) }
        ensures err { OnErr result (self.new ≡ self.old) }
    {
        for at in (0..left.len()).rev() {
            let (inc, incarnation) = &left[at];
            if self.put_incarnation(alloc, *inc, incarnation).is_err() {
                self.take_incarnations(&left[at + 1..]);
                return Err(NoMemory);
            }
        }
        Ok(())
    }

    /// The state before an event, from what it changed. NoMemory changes nothing.
    pub(crate) fn take_back(&mut self, alloc: Global, inverse: &Inverse) -> Result<(), NoMemory>
        requires { IsBehind inverse.now self.old }
        ensures ok { OnOk result (self.new ≡ taken_back inverse.now self.old) }
        ensures err { OnErr result (self.new ≡ self.old) }
    {
        let gone = inverse.gone.as_slice();
        let left = inverse.left.as_slice();
        self.put_objects(alloc, gone)?;
        if self.put_incarnations(alloc, left).is_err() {
            self.take_objects(gone);
            return Err(NoMemory);
        }
        if self.unsave(alloc, &inverse.saved).is_err() {
            self.take_incarnations(left);
            self.take_objects(gone);
            return Err(NoMemory);
        }
        Ok(())
    }
}
