//! Marks on the objects that names lead to (`docs/RULES.md`, "Objects that vanish").
//!
//! Each mark takes a name from the names without one, so each object is looked at once.

ghost use Rattle.std.specs.Prelude.{◌≡◌, ◌++◌, ◌∷◌, [], List, IfOk, OnOk, IfSome, IfNone};
ghost use Rattle.std.specs.List.{flat_map};
ghost use Rattle.std.specs.BTreeMap.{IsOrdered};
ghost use Rattle.hk_model.specs.declared.names.Name.{Name};
ghost use Rattle.hk_model.specs.declared.names.Inc.{Inc};
ghost use Rattle.hk_model.specs.declared.objects.Object.{Object};
ghost use Rattle.hk_model.specs.declared.objects.Incarnation.{Incarnation};
ghost use Rattle.hk_model.specs.declared.objects.Process.{Process};
ghost use Rattle.hk_model.specs.State.{name_cmp};
ghost use Rattle.hk_model.specs.Keeping.{entry_names, object_names, run_names};
ghost use Rattle.hk_plain.specs.Marking.{AreMarked, AreBegun};

use hk_model::{Entry, Inc, Incarnation, Name, NoMemory, Object, Process, ProcessState, Template};
use std::alloc::Global;
use std::collections::{BTreeMap, BTreeSet};
use std::marker::Model;

/// The objects that are not marked, and the marked ones that are still to be looked at.
#[derive(Drop)]
pub struct Marks {
    unmarked: BTreeSet<Name>,
    todo: Vec<Name>,
}

impl Model for Marks {
    ghost use Rattle.hk_plain.specs.Marking.{Marking};

    ghost Value = { Marking };

    ghost view = { λ m. record { unmarked = m.unmarked.keys; todo = m.todo.items } };
}

impl Marks {
    /// Marks on the objects of the opening.
    pub(crate) fn begin(
        alloc: Global,
        objects: &BTreeMap<Name, Object>,
        first_new: Name,
    ) -> Result<Marks, NoMemory>
        ensures begun { IfOk result (λ m. AreBegun [] objects.now.entries first_new m) }
        ensures sorted { IsOrdered name_cmp objects.now }
    {
        let mut unmarked = BTreeSet::new(alloc);
        let mut todo = Vec::with_capacity(alloc, objects.len())?;
        for (name, _object) in objects {
            if name.0 < first_new.0 {
                todo.push(*name)?;
            } else {
                unmarked.insert(*name)?;
            }
        }
        Ok(Marks { unmarked, todo })
    }

    /// A mark on an object, if it has none.
    #[tactic(auto, using(crate::proofs::MarkLemmas::one_marked, crate::proofs::MarkLemmas::none_marked))]
    fn mark(&mut self, name: Name) -> Result<(), NoMemory>
        ensures { OnOk result (AreMarked (name ∷ []) self.old self.new) }
    {
        if self.unmarked.remove(&name) {
            self.todo.push(name)?;
        }
        Ok(())
    }

    /// Marks what an entry names.
    #[tactic(auto, using(crate::proofs::MarkLemmas::nothing_marked))]
    fn mark_entry(&mut self, entry: &Entry) -> Result<(), NoMemory>
        ensures { OnOk result (AreMarked (entry_names entry.now) self.old self.new) }
    {
        match entry {
            Entry::Empty => Ok(()),
            Entry::Held(cap) => self.mark(cap.name),
            Entry::Form(Template::Amplify { of: None, .. }) => Ok(()),
            Entry::Form(Template::Amplify { of: Some(of), .. }) => self.mark(*of),
            Entry::Form(Template::Create { of, .. }) => self.mark(*of),
        }
    }

    /// Marks what some entries name.
    fn mark_entries(&mut self, entries: &[Entry]) -> Result<(), NoMemory>
        ensures { OnOk result (AreMarked (flat_map entry_names entries.now) self.old self.new) }
    {
        for entry in entries {
            self.mark_entry(entry)?;
        }
        Ok(())
    }

    /// Marks what an object names: its type, and what its entries name.
    #[tactic(auto, using(crate::proofs::MarkLemmas::then_marked))]
    pub(crate) fn mark_object(&mut self, object: &Object) -> Result<(), NoMemory>
        ensures { OnOk result (AreMarked (object_names object.now) self.old self.new) }
    {
        self.mark(object.of)?;
        self.mark_entries(object.entries.as_slice())
    }

    /// Marks what the slots of incarnations name.
    pub(crate) fn mark_slots(
        &mut self,
        incarnations: &BTreeMap<Inc, Incarnation>,
    ) -> Result<(), NoMemory>
        ensures { OnOk result (AreMarked (flat_map (λ (e : Inc × Incarnation). flat_map entry_names e.1.slots) incarnations.now.entries) self.old self.new) }
    {
        for (_inc, incarnation) in incarnations {
            self.mark_entries(incarnation.slots.as_slice())?;
        }
        Ok(())
    }

    /// Marks the semaphore at which a process waits.
    #[tactic(auto, using(crate::proofs::MarkLemmas::nothing_marked))]
    fn mark_run(&mut self, run: ProcessState) -> Result<(), NoMemory>
        ensures { OnOk result (AreMarked (run_names run) self.old self.new) }
    {
        match run {
            ProcessState::Waiting(at) => self.mark(at),
            _ => Ok(()),
        }
    }

    /// Marks the semaphores at which processes wait.
    pub(crate) fn mark_runs(&mut self, processes: &[Process]) -> Result<(), NoMemory>
        ensures { OnOk result (AreMarked (flat_map (λ (p : Process). run_names p.run) processes.now) self.old self.new) }
    {
        for process in processes {
            self.mark_run(process.run)?;
        }
        Ok(())
    }

    /// The next marked object that is to be looked at.
    pub(crate) fn next(&mut self) -> Option<Name>
        ensures some { IfSome result (λ name. self.old ≡ record self.new { todo = self.new.todo ++ name ∷ [] }) }
        ensures none { IfNone result ((self.old.todo ≡ []) × (self.new ≡ self.old)) }
    {
        self.todo.pop()
    }

    /// The objects that are not marked.
    pub(crate) fn into_unmarked(self) -> BTreeSet<Name>
        ensures { result.keys ≡ self.unmarked }
    {
        self.unmarked
    }
}
