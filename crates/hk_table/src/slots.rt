//! The slots of the current incarnation of a process, and the calls that change them alone: Load, Drop and Restrict.

ghost use Rattle.std.specs.Prelude.{◌≡◌, ◌<◌, length, slice_index_or};
ghost use Rattle.hk_model.specs.declared.entries.Entry.TheVariants.{Empty};
ghost use Rattle.hk_model.specs.State.{incarnation, process, put_slot};
ghost use Rattle.hk_model.specs.Targets.{not_empty};
ghost use Rattle.hk_model.specs.Rule.{load_entry, drop_slot, restrict_slot};
ghost use Rattle.hk_table.specs.Giving.{Answers};

use crate::counting::{hold_entry, release_entry};
use crate::parts::Parts;
use hk_calls::slot_at;
use hk_merge::held;
use hk_model::{Answer, Cap, Entry, Path, Proc, Refusal, Slot, Template};
use hk_rights::Rights;
use std::marker::PhantomData;

/// Any entry but Empty.
fn not_empty(entry: Entry, step: u8) -> Result<Entry, Refusal>
    ensures { result ≡ not_empty entry step }
{
    match entry {
        Entry::Empty => Err(Refusal::Empty { step }),
        Entry::Held(cap) => Ok(Entry::Held(cap)),
        Entry::Form(form) => Ok(Entry::Form(form)),
    }
}

impl Parts {
    /// What stands in a slot of the current incarnation of a process; Empty where there is no such slot.
    pub(crate) fn slot(&self, proc: Proc, at: usize) -> Entry
        requires { proc.0 < length self.now.processes }
        ensures { result ≡ slice_index_or (incarnation self.now (process self.now proc).current).slots at Empty }
    {
        match self.stacks.top_slots(proc).get(at) {
            Some(entry) => *entry,
            None => Entry::Empty,
        }
    }

    /// Writes an entry into a slot of the current incarnation of a process.
    pub(crate) fn set_slot(&mut self, proc: Proc, at: usize, entry: Entry)
        requires proc { proc.0 < length self.old.processes }
        requires at { at < 256 }
        ensures { self.new ≡ put_slot self.old (process self.old proc).current at entry }
    {
        let Some(old) = self.stacks.at_top(proc, at) else {
            return;
        };
        hold_entry(&self.objects, &mut self.counts, &entry);
        release_entry(&self.objects, &mut self.counts, &old);
        self.stacks.set_top(proc, Slot(at as u8), entry);
    }

    /// Load: the slot becomes what the path leads to.
    #[tactic(auto, unfolding(hk_model::specs::Rule::load_entry))]
    pub(crate) fn load(&mut self, proc: Proc, path: &Path, into: Slot) -> Result<Answer, Refusal>
        requires { proc.0 < length self.old.processes }
        ensures { Answers self.old (load_entry self.old (process self.old proc).current path.now into) result self.new }
    {
        let _ = PhantomData::<Template>; // so that the check knows what an Entry holds
        let step = path.len() as u8;
        let slot = slot_at(into, step)?;
        let found = self.walk(proc, path)?;
        let entry = not_empty(found, step - 1)?;
        self.set_slot(proc, slot, entry);
        Ok(Answer::Done)
    }

    /// Drop: the slot becomes Empty.
    #[tactic(auto, unfolding(hk_model::specs::Rule::drop_slot))]
    pub(crate) fn drop_slot(&mut self, proc: Proc, from: Slot) -> Result<Answer, Refusal>
        requires { proc.0 < length self.old.processes }
        ensures { Answers self.old (drop_slot self.old (process self.old proc).current from) result self.new }
    {
        let slot = slot_at(from, 0)?;
        self.set_slot(proc, slot, Entry::Empty);
        Ok(Answer::Done)
    }

    /// Restrict: the capability in the slot keeps only these rights.
    #[tactic(auto, unfolding(hk_model::specs::Rule::restrict_slot))]
    pub(crate) fn restrict(
        &mut self,
        proc: Proc,
        from: Slot,
        keep: Rights,
    ) -> Result<Answer, Refusal>
        requires { proc.0 < length self.old.processes }
        ensures { Answers self.old (restrict_slot self.old (process self.old proc).current from keep) result self.new }
    {
        let slot = slot_at(from, 0)?;
        let cap = held(self.slot(proc, slot), 0)?;
        let kept = Cap {
            name: cap.name,
            rights: cap.rights.intersection(keep),
        };
        self.set_slot(proc, slot, Entry::Held(kept));
        Ok(Answer::Done)
    }
}
