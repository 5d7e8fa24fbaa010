//! Room in a full table: the objects that names lead to stay (`docs/RULES.md`, "Objects that vanish").

ghost use Rattle.std.specs.Prelude.{◌≡◌, ◌+◌, [], length, filter, IfOk, OnOk, OnErr};
ghost use Rattle.std.specs.BTreeMap.{insert_entry};
ghost use Rattle.hk_model.specs.declared.names.Name.{Name};
ghost use Rattle.hk_model.specs.declared.objects.Object.{Object};
ghost use Rattle.hk_model.specs.State.{name_cmp, add_object};
ghost use Rattle.hk_model.specs.Keeping.{AreRooted, members};
ghost use Rattle.hk_model.specs.Rule.{add_beside};
ghost use Rattle.hk_plain.specs.Marking.{AreUnderway, Spares, is_none_of, stays_beside};
ghost use Rattle.hk_plain.specs.Counts.{Moved, inner_names};
ghost use Rattle.hk_plain.specs.Numbers.{HasNumbers};
ghost use Rattle.hk_plain.specs.Removing.{HasObjectsRoom, ObjectsWent};

use crate::counted::{insert, remove};
use crate::counts::Counts;
use crate::marks::Marks;
use crate::removed::Removed;
use crate::tables::Tables;
use hk_calls::Stop;
use hk_model::limits::OBJECT_LIMIT;
use hk_model::{Name, NoMemory, Object, Refusal, What8};
use std::alloc::Global;
use std::collections::{BTreeMap, BTreeSet};

/// How many objects stand beside these.
fn count_but(objects: &BTreeMap<Name, Object>, spare: &BTreeSet<Name>) -> usize
    ensures { result ≡ length (filter (λ (e : Name × Object). is_none_of spare.now.keys e.0) objects.now.entries) }
{
    let _many = objects.len();
    let mut count = 0;
    for (name, _object) in objects {
        if !spare.contains(name) {
            count += 1;
        }
    }
    count
}

/// The objects of these names go, but not the one that is made.
fn remove_spare(
    objects: &mut BTreeMap<Name, Object>,
    name: Name,
    spare: &BTreeSet<Name>,
    counts: &mut Counts,
    removed: &mut Removed,
)
    requires { HasObjectsRoom removed.old (length objects.old.entries) }
    ensures objects { objects.new.entries ≡ filter (λ (e : Name × Object). stays_beside name spare.now.keys e.0) objects.old.entries }
    ensures counted { Moved counts.old counts.new (inner_names objects.new.entries) (inner_names objects.old.entries) }
    ensures went { ObjectsWent objects.old.entries objects.new.entries removed.old removed.new }
{
    let _many = objects.len();
    for other in spare {
        if other.0 != name.0 {
            remove(objects, *other, counts, removed);
        }
    }
}

/// Puts an object beside those that stay. It comes first: it may want memory.
fn put_beside(
    objects: &mut BTreeMap<Name, Object>,
    name: Name,
    object: Object,
    spare: &BTreeSet<Name>,
    counts: &mut Counts,
    removed: &mut Removed,
) -> Result<(), NoMemory>
    requires { HasObjectsRoom removed.old (length objects.old.entries + 1) }
    ensures counted { Moved counts.old counts.new (inner_names objects.new.entries) (inner_names objects.old.entries) }
    ensures ok { OnOk result (objects.new.entries ≡ insert_entry name_cmp (filter (λ (e : Name × Object). is_none_of spare.now.keys e.0) objects.old.entries) name object) }
    ensures went { OnOk result (ObjectsWent (insert_entry name_cmp objects.old.entries name object) objects.new.entries removed.old removed.new) }
    ensures err { OnErr result (objects.new.entries ≡ objects.old.entries) }
    ensures none_went { OnErr result (removed.new ≡ removed.old) }
{
    insert(objects, name, object, counts)?;
    remove_spare(objects, name, spare, counts, removed);
    Ok(())
}

impl Tables {
    /// Marks what the marked objects name, and what those name, to the end.
    fn mark_onward(&self, marks: &mut Marks) -> Result<(), NoMemory>
        requires { AreUnderway self.now marks.old }
        ensures { OnOk result (AreUnderway self.now marks.new × (marks.new.todo ≡ [])) }
    {
        while let Some(name) = marks.next() {
            if let Some(object) = self.object(name) {
                marks.mark_object(object)?;
            }
        }
        Ok(())
    }

    /// The objects that are not rooted.
    fn unrooted(&self, alloc: Global) -> Result<BTreeSet<Name>, NoMemory>
        ensures { IfOk result (λ spare. AreRooted self.now (is_none_of spare.keys)) }
    {
        let mut marks = Marks::begin(alloc, &self.objects, self.counts.first_new())?;
        marks.mark_slots(self.incarnations.all())?;
        marks.mark_runs(self.processes.as_slice())?;
        self.mark_onward(&mut marks)?;
        Ok(marks.into_unmarked())
    }

    /// The objects that go where one more is made: none where there is room, and else those that are
    /// not rooted.
    pub(crate) fn spare_objects(&self, alloc: Global) -> Result<BTreeSet<Name>, Stop>
        ensures { Spares self.now result }
    {
        if self.objects.len() < OBJECT_LIMIT {
            return Ok(BTreeSet::new(alloc));
        }
        let spare = self.unrooted(alloc)?;
        if count_but(&self.objects, &spare) < OBJECT_LIMIT {
            return Ok(spare);
        }
        let what = What8::Objects;
        Err(Stop::Refused(Refusal::Full { what }))
    }

    /// One more object beside those that stay, which takes the next name.
    pub(crate) fn add_beside(
        &mut self,
        object: Object,
        spare: &BTreeSet<Name>,
        removed: &mut Removed,
    ) -> Result<(), NoMemory>
        requires numbers { HasNumbers self.old }
        requires room { HasObjectsRoom removed.old (length self.old.objects + 1) }
        ensures ok { OnOk result (self.new ≡ add_beside self.old (members self.old (is_none_of spare.now.keys)) object) }
        ensures went { OnOk result (ObjectsWent (add_object self.old object).objects self.new.objects removed.old removed.new) }
        ensures err { OnErr result (self.new ≡ self.old) }
        ensures none_went { OnErr result (removed.new ≡ removed.old) }
    {
        let name = self.next_name;
        let counts = &mut self.counts;
        counts.add(name, self.objects.len())?;
        put_beside(&mut self.objects, name, object, spare, counts, removed)?;
        self.next_name = Name(name.0 + 1);
        Ok(())
    }
}
