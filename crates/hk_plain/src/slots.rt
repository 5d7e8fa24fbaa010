//! The calls on slots: Load, Drop, Restrict and Look.

ghost use Rattle.std.specs.Prelude.{◌≡◌};
ghost use Rattle.hk_model.specs.Rule.{load_entry, drop_slot, restrict_slot, look};
ghost use Rattle.hk_plain.specs.Giving.{Gives};

use crate::tables::Tables;
use crate::targets::not_empty;
use hk_calls::{Stop, looked, slot_at};
use hk_merge::held;
use hk_model::{Answer, Cap, Entry, Inc, Path, Slot, Template};
use hk_rights::Rights;
use std::marker::PhantomData;

impl Tables {
    /// Load: the slot becomes what the path leads to.
    #[tactic(auto, unfolding(hk_model::specs::Rule::load_entry))]
    pub(crate) fn load(&mut self, inc: Inc, path: &Path, into: Slot) -> Result<Answer, Stop>
        ensures { Gives self.old (load_entry self.old inc path.now into) result self.new }
    {
        let _ = PhantomData::<Template>; // Rattle is to know what an Entry holds
        let step = path.len() as u8;
        let slot = slot_at(into, step)?;
        let found = self.walk(inc, path)?;
        let entry = not_empty(found, step - 1)?;
        self.set_slot(inc, slot, entry);
        Ok(Answer::Done)
    }

    /// Drop: the slot becomes Empty.
    #[tactic(auto, unfolding(hk_model::specs::Rule::drop_slot))]
    pub(crate) fn drop_slot(&mut self, inc: Inc, from: Slot) -> Result<Answer, Stop>
        ensures { Gives self.old (drop_slot self.old inc from) result self.new }
    {
        let slot = slot_at(from, 0)?;
        self.set_slot(inc, slot, Entry::Empty);
        Ok(Answer::Done)
    }

    /// Restrict: the capability in the slot keeps only these rights.
    #[tactic(auto, unfolding(hk_model::specs::Rule::restrict_slot))]
    pub(crate) fn restrict(&mut self, inc: Inc, from: Slot, keep: Rights) -> Result<Answer, Stop>
        ensures { Gives self.old (restrict_slot self.old inc from keep) result self.new }
    {
        let slot = slot_at(from, 0)?;
        let cap = held(self.slot(inc, slot), 0)?;
        let kept = Cap {
            name: cap.name,
            rights: cap.rights.intersection(keep),
        };
        self.set_slot(inc, slot, Entry::Held(kept));
        Ok(Answer::Done)
    }

    /// Look: replies what the path leads to.
    #[tactic(auto, unfolding(hk_model::specs::Rule::look))]
    pub(crate) fn look(&self, inc: Inc, path: &Path) -> Result<Answer, Stop>
        ensures { Gives self.now (look self.now inc path.now) result self.now }
    {
        let _ = PhantomData::<Template>; // Rattle is to know what an Entry holds
        let found = self.walk(inc, path)?;
        Ok(Answer::Word(looked(found)))
    }
}
