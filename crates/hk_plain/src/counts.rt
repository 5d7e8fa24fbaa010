//! How many times each made object is named (`docs/RULES.md`, "Objects that vanish").
//!
//! An object that opened with the world stays for ever, so only those that calls have made are
//! counted. Where a number falls to 0, its object may be named no more, and goes on a list: so what
//! a call lets go is found without a look at the others. Want of memory for that list, which
//! `reserve` keeps off, is no failure: the numbers then say that they are not to be relied on.

ghost use Rattle.std.specs.Prelude.{◌≡◌, ℕ, ◌-◌, ◌++◌, ◌∷◌, [], true, length, take, slice_set, is_some, OnOk, IfSome, IfNone, option_to_list};
ghost use Rattle.std.specs.List.{flat_map};
ghost use Rattle.std.specs.Map.{lookup};
ghost use Rattle.hk_model.specs.State.{same_name};
ghost use Rattle.hk_model.specs.Keeping.{entry_names, object_names, run_names, is_among};
ghost use Rattle.hk_plain.specs.Counts.{Tally, Moved, IsFound, has_made, is_unnamed};

use hk_model::{Entries, Entry, Name, NoMemory, Object, ProcessState, Template};
use std::alloc::Global;
use std::collections::BTreeMap;
use std::marker::Model;

/// The numbers of the made objects, and those whose number fell to 0.
#[derive(Drop)]
pub struct Counts {
    // The first name that was not given at the opening.
    first_new: Name,
    // By name, from that one on.
    numbers: Vec<u32>,
    lost: Vec<Name>,
    // Whether the numbers are right, and the list has all that are lost.
    exact: bool,
}

impl Model for Counts {
    ghost use Rattle.hk_plain.specs.Counts.{Tally};

    ghost Value = { Tally };

    ghost view = { λ c. record { first_new = c.first_new; numbers = c.numbers.items; lost = c.lost.items; exact = c.exact } };
}

/// What an entry names, if it names anything.
fn named_by(entry: &Entry) -> Option<Name>
    ensures { option_to_list result ≡ entry_names entry.now }
{
    match entry {
        Entry::Empty => None,
        Entry::Held(cap) => Some(cap.name),
        Entry::Form(Template::Amplify { of, .. }) => *of,
        Entry::Form(Template::Create { of, .. }) => Some(*of),
    }
}

impl Counts {
    /// Nothing is made yet.
    pub(crate) fn new(alloc: Global, first_new: Name) -> Counts
        ensures { result ≡ record { first_new = first_new; numbers = []; lost = []; exact = true } }
    {
        Counts {
            first_new,
            numbers: Vec::new(alloc),
            lost: Vec::new(alloc),
            exact: true,
        }
    }

    /// The first name that was not given at the opening.
    pub(crate) fn first_new(&self) -> Name
        ensures { result ≡ self.now.first_new }
    {
        self.first_new
    }

    /// An object is named once more.
    fn hold(&mut self, name: Name)
        ensures { Moved self.old self.new (name ∷ []) [] }
    {
        if name.0 < self.first_new.0 {
            return;
        }
        let at = (name.0 - self.first_new.0) as usize;
        if at < self.numbers.len() && self.numbers[at] < u32::MAX {
            self.numbers[at] += 1;
        } else {
            self.exact = false;
        }
    }

    /// An object is named once less.
    fn release(&mut self, name: Name)
        ensures { Moved self.old self.new [] (name ∷ []) }
    {
        if name.0 < self.first_new.0 {
            return;
        }
        let at = (name.0 - self.first_new.0) as usize;
        if at >= self.numbers.len() || self.numbers[at] == 0 {
            self.exact = false;
            return;
        }
        let left = self.numbers[at] - 1;
        self.numbers[at] = left;
        if left > 0 {
            return;
        }
        if self.lost.push(name).is_err() {
            self.exact = false;
        }
    }

    /// What an entry names is named once more.
    pub(crate) fn hold_entry(&mut self, entry: &Entry)
        ensures { Moved self.old self.new (entry_names entry.now) [] }
    {
        if let Some(name) = named_by(entry) {
            self.hold(name);
        }
    }

    /// What an entry names is named once less.
    pub(crate) fn release_entry(&mut self, entry: &Entry)
        ensures { Moved self.old self.new [] (entry_names entry.now) }
    {
        if let Some(name) = named_by(entry) {
            self.release(name);
        }
    }

    /// What these entries name is named once more.
    #[tactic(auto, using(crate::proofs::CountLemmas::still))]
    pub(crate) fn hold_entries(&mut self, entries: &[Entry])
        ensures { Moved self.old self.new (flat_map entry_names entries.now) [] }
    {
        for entry in entries {
            self.hold_entry(entry);
        }
    }

    /// What these entries name is named once less.
    #[tactic(auto, using(crate::proofs::CountLemmas::still))]
    pub(crate) fn release_entries(&mut self, entries: &[Entry])
        ensures { Moved self.old self.new [] (flat_map entry_names entries.now) }
    {
        for entry in entries {
            self.release_entry(entry);
        }
    }

    /// Writes an entry of a list over another, if there is one.
    pub(crate) fn replace(&mut self, entries: &mut Entries, at: usize, entry: Entry)
        ensures entries { entries.new ≡ slice_set entries.old at entry }
        ensures counted { Moved self.old self.new (flat_map entry_names entries.new) (flat_map entry_names entries.old) }
    {
        if at >= entries.len() {
            return;
        }
        let old = entries.as_slice()[at];
        self.hold_entry(&entry);
        self.release_entry(&old);
        entries.set(at, entry);
    }

    /// What an object names is named once more.
    pub(crate) fn hold_object(&mut self, object: &Object)
        ensures { Moved self.old self.new (object_names object.now) [] }
    {
        self.hold(object.of);
        self.hold_entries(object.entries.as_slice());
    }

    /// What an object names is named once less.
    pub(crate) fn release_object(&mut self, object: &Object)
        ensures { Moved self.old self.new [] (object_names object.now) }
    {
        self.release(object.of);
        self.release_entries(object.entries.as_slice());
    }

    /// The semaphore at which a process waits is named once more.
    pub(crate) fn hold_run(&mut self, run: ProcessState)
        ensures { Moved self.old self.new (run_names run) [] }
    {
        if let ProcessState::Waiting(name) = run {
            self.hold(name);
        }
    }

    /// The semaphore at which a process waited is named once less.
    pub(crate) fn release_run(&mut self, run: ProcessState)
        ensures { Moved self.old self.new [] (run_names run) }
    {
        if let ProcessState::Waiting(name) = run {
            self.release(name);
        }
    }

    /// A new object is named by nothing yet; `objects` stand.
    pub(crate) fn add(&mut self, name: Name, objects: usize) -> Result<(), NoMemory>
        ensures moved { Moved self.old self.new [] [] }
        ensures listed { OnOk result (is_among name self.new.lost ≡ true) }
    {
        let at = name.0.saturating_sub(self.first_new.0) as usize;
        if self.numbers.len() <= at {
            self.numbers.push(0)?;
        }
        self.lost.reserve(objects.saturating_add(8))?;
        self.lost.push(name)?;
        Ok(())
    }

    /// Whether the numbers are right.
    pub(crate) fn is_exact(&self) -> bool
        ensures { result ≡ self.now.exact }
    {
        self.exact
    }

    /// Whether an object is made and its number is 0.
    fn is_unnamed(&self, name: Name) -> bool
        ensures { result ≡ is_unnamed self.now name }
    {
        if name.0 < self.first_new.0 {
            return false;
        }
        match self.numbers.get((name.0 - self.first_new.0) as usize) {
            Some(number) => *number == 0,
            None => true,
        }
    }

    /// The last of those that may be named no more.
    fn last_lost(&self) -> Option<Name>
        ensures some { IfSome result (λ name. self.now.lost ≡ take (length self.now.lost - 1) self.now.lost ++ name ∷ []) }
        ensures none { IfNone result (self.now.lost ≡ []) }
    {
        self.lost.last().copied()
    }

    /// That one goes from the list.
    fn pop_lost(&mut self)
        ensures { self.new ≡ record self.old { lost = take (length self.old.lost - 1) self.old.lost } }
    {
        let _last = self.lost.pop();
    }
}

/// The last object that stands and is named no more. Others go from the list on the way there.
pub(crate) fn last_unnamed(counts: &mut Counts, objects: &BTreeMap<Name, Object>) -> Option<Name>
    ensures same { counts.new ≡ record counts.old { lost = counts.new.lost } }
    ensures found { (k : ℕ) → has_made counts.old k objects.now.entries ≡ true → IsFound counts.old k → IsFound counts.new k }
    ensures stands { IfSome result (λ name. is_some (lookup (same_name name) objects.now.entries) ≡ true) }
    ensures lost { IfSome result (λ name. is_unnamed counts.old name ≡ true) }
    ensures none { IfNone result (counts.new.lost ≡ []) }
{
    while let Some(name) = counts.last_lost() {
        if counts.is_unnamed(name) && objects.contains_key(&name) {
            return Some(name);
        }
        counts.pop_lost();
    }
    None
}
