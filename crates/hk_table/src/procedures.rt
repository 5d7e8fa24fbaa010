//! The calls of procedures: Enter and Leave.

ghost use Rattle.std.specs.Prelude.{◌≡◌, ◌<◌, ◌≤◌, ◌+◌, ◌^◌, true, length, map, take, OnOk};
ghost use Rattle.hk_model.specs.State.{incarnation, process};
ghost use Rattle.hk_model.specs.Processors.{code_found, is_running};
ghost use Rattle.hk_model.specs.Walking.{walk};
ghost use Rattle.hk_model.specs.Rule.{slots_at, type_held, argument, enter_procedure, leave, returned_cap};
ghost use Rattle.hk_table.specs.Giving.{Answers, Gives};
ghost use Rattle.hk_table.specs.Returns.{returned_with};

use crate::draft::Draft;
use crate::parts::Parts;
use hk_calls::{Stop, Wanted, slot_at};
use hk_merge::{Arg, allowed, fill_space, held};
use hk_model::limits::{DEPTH_LIMIT, SLOT_LIMIT};
use hk_model::{Answer, Args, Cap, Entry, Name, Path, Proc, Refusal, Slot, Template};
use hk_rights::{Right, Rights};
use std::marker::PhantomData;

/// The slots are to be below 64; they have the steps from `first` on.
fn slots_at(slots: &[u8], first: u8) -> Result<(), Refusal>
    requires { first + length slots.now < 256 }
    ensures { result ≡ slots_at slots.now first }
{
    for (i, slot) in slots.iter().enumerate() {
        if usize::from(*slot) >= SLOT_LIMIT {
            return Err(Refusal::Range {
                step: first + i as u8,
            });
        }
    }
    Ok(())
}

impl Parts {
    /// The type of the object that an entry is a capability for, or TYPE.
    fn type_held(&self, entry: &Entry) -> Name
        ensures { result ≡ type_held self.now entry.now }
    {
        match entry {
            Entry::Held(cap) => self.type_of(cap.name),
            _ => Name(0),
        }
    }

    /// The argument in a slot of the current incarnation of a process.
    fn arg(&self, proc: Proc, slot: u8) -> Arg
        requires { proc.0 < length self.now.processes }
        ensures { result ≡ argument self.now (process self.now proc).current slot }
    {
        let entry = self.slot(proc, slot as usize);
        let of = self.type_held(&entry);
        Arg { entry, of }
    }

    /// Writes the arguments in these slots into the first places.
    fn args(&self, proc: Proc, slots: &[u8], places: &mut [Arg; 8])
        requires known { proc.0 < length self.now.processes }
        requires few { length slots.now ≤ 8 }
        ensures { take (length slots.now) places.new ≡ map (argument self.now (process self.now proc).current) slots.now }
    {
        let _ = PhantomData::<(Entry, Template)>; // so that the check knows what an Arg holds
        for (i, slot) in slots.iter().enumerate() {
            places[i] = self.arg(proc, *slot);
        }
    }

    /// Enter: a new incarnation, with the merged parameters and what the procedure holds. They are put together in the draft,
    /// whatever stands there. Where the call is answered, the draft has the code of the procedure.
    #[tactic(auto, using(crate::proofs::TargetLemmas::target_lives, crate::proofs::TargetLemmas::target_code), unfolding(hk_model::specs::Rule::enter_procedure))]
    pub(crate) fn enter(
        &mut self,
        proc: Proc,
        path: &Path,
        args: &Args,
        into: Slot,
        draft: &mut Draft,
    ) -> Result<Answer, Stop>
        requires known { proc.0 < length self.old.processes }
        requires next { self.old.next_inc.0 < 2 ^ 63 }
        ensures row { Gives self.old (enter_procedure self.old proc (process self.old proc).current path.now args.now into) result self.new }
        ensures code { OnOk result (draft.new.code ≡ code_found self.old (walk self.old (process self.old proc).current path.now)) }
    {
        let step = path.len() as u8;
        let into_step = step + args.len() as u8;
        slots_at(args.as_slice(), step)?;
        slot_at(into, into_step)?;
        let cap = self.target(proc, path, Wanted::Procedures, Rights::A0)?;
        let confined = !cap.rights.has(Right::UNCONF);
        draft.code = self.code_of(cap.name);
        self.args(proc, args.as_slice(), &mut draft.args);
        draft.space.clear();
        fill_space(
            &mut draft.space,
            &draft.args[..args.len()],
            self.params(cap.name),
            self.entries(cap.name),
            confined,
            step,
        )?;
        if self.depth(proc) >= DEPTH_LIMIT {
            return Err(Stop::Refused(Refusal::Deep));
        }
        self.add_call(proc, cap.name, into, confined, &draft.space)?;
        Ok(Answer::Done)
    }

    /// What a return hands to its caller: nothing, or a capability with ENV.
    fn given(&self, proc: Proc, give: Option<Slot>) -> Result<Option<Cap>, Refusal>
        requires { proc.0 < length self.now.processes }
        ensures { result ≡ returned_cap (incarnation self.now (process self.now proc).current).slots give }
    {
        match give {
            None => Ok(None),
            Some(slot) => {
                let at = slot_at(slot, 0)?;
                let cap = held(self.slot(proc, at), 0)?;
                allowed(cap.rights, Rights::ENV, 0)?;
                Ok(Some(cap))
            }
        }
    }

    /// The current incarnation of a process goes, with a capability for its caller where there is one.
    fn return_with(&mut self, proc: Proc, cap: Option<Cap>)
        requires known { proc.0 < length self.old.processes }
        requires runs { is_running (process self.old proc).run ≡ true }
        ensures { self.new ≡ returned_with self.old proc (process self.old proc).current cap }
    {
        let Some(into) = self.go_back(proc) else {
            return;
        };
        if let Some(cap) = cap {
            self.set_slot(proc, into.0 as usize, Entry::Held(cap));
        }
    }

    /// Leave: the incarnation goes, and its caller goes on, with a capability where a slot is named.
    #[tactic(auto, unfolding(hk_model::specs::Rule::leave))]
    pub(crate) fn leave(&mut self, proc: Proc, give: Option<Slot>) -> Result<Answer, Refusal>
        requires known { proc.0 < length self.old.processes }
        requires runs { is_running (process self.old proc).run ≡ true }
        ensures { Answers self.old (leave self.old proc (process self.old proc).current give) result self.new }
    {
        let cap = self.given(proc, give)?;
        self.return_with(proc, cap);
        Ok(Answer::Done)
    }
}
