//! The calls that make objects, Create and Copy.

ghost use Rattle.std.specs.Prelude.{◌≡◌, ◌<◌, ◌^◌, length, OnErr};
ghost use Rattle.hk_model.specs.State.{process};
ghost use Rattle.hk_model.specs.Rule.{create_object, copy_object};
ghost use Rattle.hk_table.specs.Giving.{Answers, Gives};
ghost use Rattle.hk_table.specs.Rooms.{IsKnownRooted};
ghost use Rattle.hk_table.specs.Told.{AllNamedStand};

use crate::objects::{NewObject, can_be_created, creating};
use crate::parts::Parts;
use hk_calls::{Stop, Wanted, slot_at};
use hk_model::{Answer, Entries, Path, Proc, Refusal, Slot, Template, Words};
use hk_rights::Rights;
use std::alloc::Global;
use std::marker::PhantomData;

impl Parts {
    /// Create: a new object by the template that the path leads to.
    #[tactic(auto, unfolding(hk_model::specs::Rule::create_object))]
    pub(crate) fn create(
        &mut self,
        alloc: Global,
        proc: Proc,
        path: &Path,
        into: Slot,
        rooted: &mut bool,
    ) -> Result<Answer, Refusal>
        requires known { proc.0 < length self.old.processes }
        requires next { self.old.next_name.0 < 2 ^ 63 }
        requires named { AllNamedStand self.old }
        requires rooted { IsKnownRooted rooted.old self.old }
        ensures rooted { OnErr result (IsKnownRooted rooted.new self.new) }
        ensures row { Answers self.old (create_object self.old (process self.old proc).current path.now into) result self.new }
    {
        let _ = PhantomData::<Template>; // so that the check knows what an Entry holds
        let step = path.len() as u8;
        let slot = slot_at(into, step)?;
        let entry = self.walk(proc, path)?;
        let (of, give) = creating(&entry, step - 1)?;
        if !can_be_created(of) {
            return Err(Refusal::WrongType { step: step - 1 });
        }
        let words = Words::new(alloc);
        let entries = Entries::new(alloc);
        let new = NewObject { of, words, entries };
        self.add_object(proc, slot, new, give, rooted)
    }

    /// Copy: a new object with the words and entries of another.
    #[tactic(auto, unfolding(hk_model::specs::Rule::copy_object))]
    pub(crate) fn copy(
        &mut self,
        alloc: Global,
        proc: Proc,
        path: &Path,
        into: Slot,
        rooted: &mut bool,
    ) -> Result<Answer, Stop>
        requires known { proc.0 < length self.old.processes }
        requires next { self.old.next_name.0 < 2 ^ 63 }
        requires named { AllNamedStand self.old }
        requires rooted { IsKnownRooted rooted.old self.old }
        ensures rooted { OnErr result (IsKnownRooted rooted.new self.new) }
        ensures row { Gives self.old (copy_object self.old (process self.old proc).current path.now into) result self.new }
    {
        let slot = slot_at(into, path.len() as u8)?;
        let cap = self.target(proc, path, Wanted::General, Rights::COPY)?;
        let new = self.copy_of(alloc, &cap)?;
        Ok(self.add_object(proc, slot, new, cap.rights, rooted)?)
    }
}
