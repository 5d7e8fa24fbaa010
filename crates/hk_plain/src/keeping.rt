//! Which objects stay (`docs/RULES.md`, "Objects that vanish").

ghost use Rattle.std.specs.Prelude.{◌≡◌, ◌||◌, true, false, List, length, IfSome, IfNone};
ghost use Rattle.std.specs.List.{flat_map};
ghost use Rattle.std.specs.Map.{remove_entry};
ghost use Rattle.hk_model.specs.State.{same_name};
ghost use Rattle.hk_model.specs.declared.names.Name.{Name};
ghost use Rattle.hk_model.specs.declared.names.Inc.{Inc};
ghost use Rattle.hk_model.specs.declared.objects.Object.{Object};
ghost use Rattle.hk_model.specs.declared.objects.Incarnation.{Incarnation};
ghost use Rattle.hk_model.specs.declared.objects.Process.{Process};
ghost use Rattle.hk_model.specs.Keeping.{entry_names, object_names, run_names, is_among, are_supporting, stands, kept_objects, restricted};
ghost use Rattle.hk_plain.specs.Removing.{HasObjectsRoom, ObjectsWent};

use crate::counted::remove;
use crate::counts::last_unnamed;
use crate::removed::Removed;
use crate::tables::Tables;
use hk_model::{Entry, Inc, Incarnation, Name, Object, Process, ProcessState, Template};
use std::collections::BTreeMap;

/// Whether an entry names an object.
fn entry_names(entry: &Entry, name: Name) -> bool
    ensures { result ≡ is_among name (entry_names entry.now) }
{
    match entry {
        Entry::Empty => false,
        Entry::Held(cap) => name.0 == cap.name.0,
        Entry::Form(Template::Amplify { of: None, .. }) => false,
        Entry::Form(Template::Amplify { of: Some(of), .. }) => name.0 == of.0,
        Entry::Form(Template::Create { of, .. }) => name.0 == of.0,
    }
}

/// Whether some entry does.
#[tactic(auto, using(crate::proofs::Naming::among_more))]
fn some_entry_names(entries: &[Entry], name: Name) -> bool
    ensures { result ≡ is_among name (flat_map entry_names entries.now) }
{
    for entry in entries {
        if entry_names(entry, name) {
            return true;
        }
    }
    false
}

/// Whether an object does, by its type or by an entry.
fn object_names(object: &Object, name: Name) -> bool
    ensures { result ≡ is_among name (object_names object.now) }
{
    name.0 == object.of.0 || some_entry_names(object.entries.as_slice(), name)
}

/// Whether some object does.
#[tactic(auto, using(crate::proofs::Naming::among_more))]
fn some_object_names(objects: &BTreeMap<Name, Object>, name: Name) -> bool
    ensures { result ≡ is_among name (flat_map (λ (e : Name × Object). object_names e.1) objects.now.entries) }
{
    for (_key, object) in objects {
        if object_names(object, name) {
            return true;
        }
    }
    false
}

/// Whether some slot of an incarnation does.
#[tactic(auto, using(crate::proofs::Naming::among_more))]
fn some_slot_names(incarnations: &BTreeMap<Inc, Incarnation>, name: Name) -> bool
    ensures { result ≡ is_among name (flat_map (λ (e : Inc × Incarnation). flat_map entry_names e.1.slots) incarnations.now.entries) }
{
    for (_inc, incarnation) in incarnations {
        if some_entry_names(incarnation.slots.as_slice(), name) {
            return true;
        }
    }
    false
}

/// Whether some process waits at an object.
#[tactic(auto, using(crate::proofs::Naming::among_more))]
fn some_process_names(processes: &[Process], name: Name) -> bool
    ensures { result ≡ is_among name (flat_map (λ (p : Process). run_names p.run) processes.now) }
{
    for process in processes {
        if let ProcessState::Waiting(at) = process.run {
            if name.0 == at.0 {
                return true;
            }
        }
    }
    false
}

impl Tables {
    /// Whether an object stays: it opened with the world, or something names it.
    #[tactic(auto, using(crate::proofs::Naming::among_all))]
    fn stays(&self, name: Name) -> bool
        ensures { result ≡ are_supporting self.now self.now.objects name }
    {
        name.0 < self.counts.first_new().0
            || some_slot_names(self.incarnations.all(), name)
            || some_process_names(self.processes.as_slice(), name)
            || some_object_names(&self.objects, name)
    }

    /// The first object that does not.
    #[tactic(auto, using(crate::proofs::KeepingLemmas::all_stay))]
    fn first_lost(&self) -> Option<Name>
        ensures stands { IfSome result (λ name. stands self.now name ≡ true) }
        ensures lost { IfSome result (λ name. are_supporting self.now self.now.objects name ≡ false) }
        ensures none { IfNone result (kept_objects self.now ≡ self.now.objects) }
    {
        for (name, _object) in self.objects.range(self.counts.first_new()..) {
            if !self.stays(*name) {
                return Some(*name);
            }
        }
        None
    }

    /// An object that does not stay, if there is one. The numbers show it without a look at the others.
    fn next_lost(&mut self) -> Option<Name>
        ensures same { self.new ≡ self.old }
        ensures stands { IfSome result (λ name. stands self.old name ≡ true) }
        ensures lost { IfSome result (λ name. are_supporting self.old self.old.objects name ≡ false) }
        ensures none { IfNone result (kept_objects self.old ≡ self.old.objects) }
    {
        if !self.counts.is_exact() {
            return self.first_lost();
        }
        last_unnamed(&mut self.counts, &self.objects)
    }

    /// An object goes, with what it names.
    fn remove_object(&mut self, name: Name, removed: &mut Removed)
        requires { HasObjectsRoom removed.old (length self.old.objects) }
        ensures value { self.new ≡ record self.old { objects = remove_entry (same_name name) self.old.objects } }
        ensures went { ObjectsWent self.old.objects self.new.objects removed.old removed.new }
    {
        remove(&mut self.objects, name, &mut self.counts, removed);
    }

    /// The objects that are not kept vanish.
    #[tactic(auto, using(crate::proofs::KeepingLemmas::restricted_same))]
    pub(crate) fn remove_lost(&mut self, removed: &mut Removed)
        requires { HasObjectsRoom removed.old (length self.old.objects) }
        ensures value { self.new ≡ restricted self.old }
        ensures went { ObjectsWent self.old.objects self.new.objects removed.old removed.new }
    {
        while let Some(lost) = self.next_lost() {
            self.remove_object(lost, removed);
        }
    }
}
