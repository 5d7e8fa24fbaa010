//! What an event wrote over or added, as it was before (`docs/RULES.md`, "Lines taken back").

ghost use Rattle.std.specs.Prelude.{◌≡◌, ◌-◌, ◌∷◌, length, take, OnOk, OnErr, IfOk, IfSome, Some, if◌then◌else◌};
ghost use Rattle.std.specs.List.{flat_map};
ghost use Rattle.std.specs.Map.{lookup, set_value, remove_entry};
ghost use Rattle.hk_model.specs.State.{object, process, same_name, same_inc, put_object, put_process};
ghost use Rattle.hk_model.specs.Keeping.{entry_names};
ghost use Rattle.hk_model.specs.declared.names.Name.{Name};
ghost use Rattle.hk_model.specs.declared.objects.Object.{Object};
ghost use Rattle.hk_model.specs.declared.objects.ProcessState.TheVariants.{Running};
ghost use Rattle.hk_plain.specs.Counts.{Moved, inner_names, object_in};
ghost use Rattle.hk_plain.specs.Changes.{CanRun, part_back, parts_back, made_back, slots_back, entered_back, processes_back, ready_back, last_name, last_inc, unsaved};
ghost use Rattle.hk_plain.specs.Restoring.{waiters_before, HaveWaited};

use crate::changes::{Part, Saved, Turn};
use crate::copies;
use crate::counts::Counts;
use crate::tables::Tables;
use hk_model::{
    Cpu, Entries, Items, Name, NoMemory, Object, Proc, Process, ProcessState, Template,
};
use std::alloc::{AllocError, Global};
use std::collections::BTreeMap;
use std::marker::PhantomData;

/// An object goes, with what it names.
pub(crate) fn take_out(objects: &mut BTreeMap<Name, Object>, name: Name, counts: &mut Counts)
    ensures objects { objects.new.entries ≡ remove_entry (same_name name) objects.old.entries }
    ensures fewer { (n : Name) (o : Object) → lookup (same_name n) objects.new.entries ≡ Some o → lookup (same_name n) objects.old.entries ≡ Some o }
    ensures counted { Moved counts.old counts.new (inner_names objects.new.entries) (inner_names objects.old.entries) }
{
    if let Some(gone) = objects.remove(&name) {
        counts.release_object(&gone);
    }
}

/// The last entry of a list goes, with what it names.
fn pop_counted(alloc: Global, entries: &mut Entries, counts: &mut Counts)
    ensures entries { entries.new ≡ take (length entries.old - 1) entries.old }
    ensures counted { Moved counts.old counts.new (flat_map entry_names entries.new) (flat_map entry_names entries.old) }
{
    let _ = PhantomData::<Template>; // Rattle is to know what an Entry holds
    let many = entries.len();
    if many == 0 {
        return;
    }
    let last = entries.as_slice()[many - 1];
    counts.release_entry(&last);
    copies::pop_entry(alloc, entries);
}

/// The last entry of an object goes.
#[tactic(auto, using(crate::proofs::Maps::set_value_absent))]
fn pop_entry(alloc: Global, objects: &mut BTreeMap<Name, Object>, name: Name, counts: &mut Counts)
    ensures objects { objects.new.entries ≡ set_value (same_name name) objects.old.entries (record (object_in objects.old.entries name) { entries = take (length (object_in objects.old.entries name).entries - 1) (object_in objects.old.entries name).entries }) }
    ensures counted { Moved counts.old counts.new (inner_names objects.new.entries) (inner_names objects.old.entries) }
{
    if let Some(object) = objects.get_mut(&name) {
        pop_counted(alloc, &mut object.entries, counts);
    }
}

/// These processes behind another one.
fn with_first(alloc: Global, first: Proc, others: &[Proc]) -> Result<Items<Proc>, AllocError>
    ensures { IfOk result (λ all. all ≡ first ∷ others.now) }
{
    let mut all = Vec::new(alloc);
    all.push(first)?;
    all.extend_from_slice(others)?;
    Ok(Items::from_vec(all))
}

impl Tables {
    /// The last word of an object goes.
    #[tactic(auto, using(crate::proofs::Maps::set_value_absent))]
    fn pop_word(&mut self, alloc: Global, name: Name)
        ensures { self.new ≡ put_object self.old name (record (object self.old name) { words = take (length (object self.old name).words - 1) (object self.old name).words }) }
    {
        if let Some(object) = self.objects.get_mut(&name) {
            copies::pop_word(alloc, &mut object.words);
        }
    }

    /// The last entry of an object goes.
    fn pop_entry(&mut self, alloc: Global, name: Name)
        ensures { self.new ≡ put_object self.old name (record (object self.old name) { entries = take (length (object self.old name).entries - 1) (object self.old name).entries }) }
    {
        pop_entry(alloc, &mut self.objects, name, &mut self.counts);
    }

    /// The last that waits at a semaphore goes.
    #[tactic(auto, using(crate::proofs::Maps::set_value_absent))]
    fn pop_waiter(&mut self, alloc: Global, name: Name)
        ensures { self.new ≡ put_object self.old name (record (object self.old name) { waiters = take (length (object self.old name).waiters - 1) (object self.old name).waiters }) }
    {
        if let Some(object) = self.objects.get_mut(&name) {
            copies::pop_waiter(alloc, &mut object.waiters);
        }
    }

    /// Who waits at a semaphore, behind one more.
    fn waiters_behind(
        &self,
        alloc: Global,
        name: Name,
        first: Proc,
    ) -> Result<Items<Proc>, AllocError>
        ensures { IfOk result (λ all. all ≡ first ∷ (object self.now name).waiters) }
    {
        match self.object(name) {
            Some(object) => with_first(alloc, first, object.waiters.as_slice()),
            None => with_first(alloc, first, &[]),
        }
    }

    /// Who waited before the first went on; of another part nobody.
    fn waiters_of(&self, alloc: Global, name: Name, part: Part) -> Result<Items<Proc>, AllocError>
        ensures { IfOk result (λ all. all ≡ waiters_before part (object self.now name)) }
    {
        match part {
            Part::FirstWaiter { first } => self.waiters_behind(alloc, name, first),
            Part::Word { .. } | Part::Item { .. } | Part::Tokens { .. } => Ok(Items::new(alloc)),
            Part::NewWord | Part::NewItem | Part::NewWaiter => Ok(Items::new(alloc)),
        }
    }

    /// The waiting processes that a part is written with, made before anything changes.
    pub(crate) fn waiters_before(
        &self,
        alloc: Global,
        part: Option<(Name, Part)>,
    ) -> Result<Items<Proc>, AllocError>
        ensures { IfOk result (λ waiters. HaveWaited waiters part self.now.objects) }
    {
        match part {
            Some((name, part)) => self.waiters_of(alloc, name, part),
            None => Ok(Items::new(alloc)),
        }
    }

    /// A part of an object is what it was.
    fn part_back(&mut self, alloc: Global, name: Name, part: Part, waiters: Items<Proc>)
        requires { HaveWaited waiters (Some (name, part)) self.old.objects }
        ensures { self.new ≡ put_object self.old name (part_back part (object self.old name)) }
    {
        match part {
            Part::Word { at, old } => self.set_word(name, at, old),
            Part::Item { at, old } => self.set_entry(name, at, old),
            Part::NewWord => self.pop_word(alloc, name),
            Part::NewItem => self.pop_entry(alloc, name),
            Part::Tokens { old } => self.set_count(name, old),
            Part::NewWaiter => self.pop_waiter(alloc, name),
            Part::FirstWaiter { first: _ } => self.set_waiters(name, waiters),
        }
    }

    /// The object that was made last goes, and gives its name back.
    fn remove_last_object(&mut self)
        ensures value { self.new ≡ record self.old { objects = remove_entry (same_name (last_name self.old)) self.old.objects; next_name = last_name self.old } }
        ensures fewer { (n : Name) (o : Object) → lookup (same_name n) self.new.objects ≡ Some o → lookup (same_name n) self.old.objects ≡ Some o }
    {
        let last = Name(self.next_name.0.saturating_sub(1));
        take_out(&mut self.objects, last, &mut self.counts);
        self.next_name = last;
    }

    /// The objects and the next name are what they were.
    pub(crate) fn objects_back(&mut self, alloc: Global, saved: &Saved, waiters: Items<Proc>)
        requires { HaveWaited waiters saved.now.part self.old.objects }
        ensures { self.new ≡ record self.old { objects = parts_back saved.now.part (made_back saved.now.made self.old); next_name = if saved.now.made then last_name self.old else self.old.next_name } }
    {
        if saved.made {
            self.remove_last_object();
        }
        if let Some((name, part)) = saved.part {
            self.part_back(alloc, name, part, waiters);
        }
    }

    /// The incarnation that was entered last goes, and gives its number back.
    fn remove_last_incarnation(&mut self)
        ensures { self.new ≡ record self.old { incarnations = remove_entry (same_inc (last_inc self.old)) self.old.incarnations; next_inc = last_inc self.old } }
    {
        self.incarnations.remove_last(&mut self.counts);
    }

    /// The incarnations and the next number are what they were.
    pub(crate) fn incarnations_back(&mut self, saved: &Saved)
        ensures { self.new ≡ record self.old { incarnations = slots_back saved.now.slot (entered_back saved.now.entered self.old); next_inc = if saved.now.entered then last_inc self.old else self.old.next_inc } }
    {
        let _ = PhantomData::<Template>; // Rattle is to know what an Entry holds
        if saved.entered {
            self.remove_last_incarnation();
        }
        if let Some((inc, slot, old)) = saved.slot {
            self.set_slot(inc, slot as usize, old);
        }
    }

    /// The process runs on a processor, where it runs there already or nothing does.
    fn run_on(&mut self, proc: Proc, cpu: Cpu)
        requires { CanRun self.old proc (Running cpu) }
        ensures { self.new ≡ put_process self.old proc (record (process self.old proc) { run = Running cpu }) }
    {
        if self.runner(cpu).is_none() {
            self.start(proc, cpu);
        }
    }

    /// A process does what it did.
    fn run_back(&mut self, proc: Proc, run: ProcessState)
        requires { CanRun self.old proc run }
        ensures { self.new ≡ put_process self.old proc (record (process self.old proc) { run = run }) }
    {
        match run {
            ProcessState::Running(cpu) => self.run_on(proc, cpu),
            ProcessState::Ready => self.set_run(proc, ProcessState::Ready),
            ProcessState::Waiting(at) => self.set_run(proc, ProcessState::Waiting(at)),
            ProcessState::Ended => self.set_run(proc, ProcessState::Ended),
        }
    }

    /// The processes are what they were.
    pub(crate) fn processes_back(&mut self, process: Option<(Proc, Process)>)
        requires { IfSome process (λ p. CanRun self.old p.0 p.1.run) }
        ensures { self.new ≡ record self.old { processes = processes_back process self.old.processes } }
    {
        if let Some((proc, old)) = process {
            self.run_back(proc, old.run);
            self.set_current(proc, old.current);
        }
    }

    /// The ready list is what it was. It comes first: it may want memory.
    pub(crate) fn ready_back(&mut self, turn: Turn) -> Result<(), NoMemory>
        ensures ok { OnOk result (self.new ≡ record self.old { ready = ready_back turn self.old.ready }) }
        ensures err { OnErr result (self.new ≡ self.old) }
    {
        match turn {
            Turn::Same => {}
            Turn::Joined => {
                let _last = self.ready.pop_back();
            }
            Turn::Taken { first } => self.ready.push_front(first)?,
        }
        Ok(())
    }

    /// The number of events with one less.
    fn events_back(&mut self)
        ensures { self.new ≡ record self.old { events = self.old.events - 1 } }
    {
        self.events = self.events.saturating_sub(1);
    }

    /// The state before an event by which nothing went.
    pub(crate) fn unsave(&mut self, alloc: Global, saved: &Saved) -> Result<(), NoMemory>
        requires { IfSome saved.now.process (λ p. CanRun self.old p.0 p.1.run) }
        ensures ok { OnOk result (self.new ≡ record (unsaved saved.now self.old) { events = self.old.events - 1 }) }
        ensures err { OnErr result (self.new ≡ self.old) }
    {
        let waiters = self.waiters_before(alloc, saved.part)?;
        self.ready_back(saved.turn)?;
        self.objects_back(alloc, saved, waiters);
        self.incarnations_back(saved);
        self.processes_back(saved.process);
        self.events_back();
        Ok(())
    }
}
