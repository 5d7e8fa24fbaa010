//! The calls of procedures: Enter and Leave.

ghost use Rattle.std.specs.Prelude.{◌≡◌, ◌<◌, ◌≤◌, ◌+◌, length, map, Ok, Err, IfOk, IfErr, OnOk, OnErr};
ghost use Rattle.std.specs.Map.{lookup};
ghost use Rattle.hk_model.specs.State.{object, incarnation, same_inc};
ghost use Rattle.hk_model.specs.Rule.{slots_at, type_held, argument, enter_procedure, leave, returned_cap};
ghost use Rattle.hk_model.specs.Merging.{name_space};
ghost use Rattle.hk_spaces.specs.Spaces.{empty_slots};
ghost use Rattle.hk_plain.specs.Giving.{Gives};
ghost use Rattle.hk_plain.specs.Numbers.{HasNumbers};
ghost use Rattle.hk_plain.specs.Removing.{HasRoom, removed_at};

use crate::removed::Removed;
use crate::tables::Tables;
use hk_calls::{Stop, Wanted, slot_at};
use hk_merge::{Arg, allowed, fill_space, held};
use hk_model::limits::{DEPTH_LIMIT, SLOT_LIMIT};
use hk_model::{
    Answer, Args, Cap, Entries, Entry, Inc, Incarnation, Name, Path, Proc, ProcessState, Refusal,
    Slot, Template,
};
use hk_rights::{Right, Rights};
use hk_spaces::Space;
use std::alloc::{AllocError, Global};
use std::marker::PhantomData;

/// The slots are to be below 64; they have the steps from `first` on.
fn slots_at(slots: &[u8], first: u8) -> Result<(), Refusal>
    requires { first + length slots.now < 256 }
    ensures { result ≡ slots_at slots.now first }
{
    for (i, slot) in slots.iter().enumerate() {
        if usize::from(*slot) >= SLOT_LIMIT {
            return Err(Refusal::Range {
                step: first + i as u8,
            });
        }
    }
    Ok(())
}

/// The entries of a name space, as an incarnation has them.
fn slots_of(alloc: Global, space: &Space) -> Result<Entries, AllocError>
    ensures { IfOk result (λ slots. slots ≡ space.now) }
{
    Ok(Entries::from_vec(Vec::from_slice(alloc, space.as_slice())?))
}

impl Tables {
    /// The type of the object that an entry is a capability for, or TYPE.
    fn type_held(&self, entry: &Entry) -> Name
        ensures { result ≡ type_held self.now entry.now }
    {
        match entry {
            Entry::Held(cap) => self.type_of(cap.name),
            _ => Name(0),
        }
    }

    /// The argument in a slot.
    fn arg(&self, inc: Inc, slot: u8) -> Arg
        ensures { result ≡ argument self.now inc slot }
    {
        let entry = self.slot(inc, slot as usize);
        let of = self.type_held(&entry);
        Arg { entry, of }
    }

    /// The arguments in these slots.
    fn args(&self, alloc: Global, inc: Inc, slots: &[u8]) -> Result<Vec<Arg>, AllocError>
        ensures { IfOk result (λ args. args.items ≡ map (argument self.now inc) slots.now) }
    {
        let _ = PhantomData::<(Entry, Template)>; // Rattle is to know what an Arg holds
        let mut args = Vec::new(alloc);
        for slot in slots {
            args.push(self.arg(inc, *slot))?;
        }
        Ok(args)
    }

    /// Fills a name space that is empty with the one that a call of a procedure gives.
    fn fill(
        &self,
        space: &mut Space,
        procedure: Name,
        args: &[Arg],
        confined: bool,
        first_step: u8,
    ) -> Result<(), Refusal>
        requires empty { space.old ≡ empty_slots }
        requires args { length args.now ≤ 8 }
        requires first_step { first_step ≤ 8 }
        ensures ok { OnOk result (let o = object self.now procedure in name_space args.now o.params o.entries confined first_step ≡ Ok space.new) }
        ensures refused { IfErr result (λ refusal. let o = object self.now procedure in name_space args.now o.params o.entries confined first_step ≡ Err refusal) }
    {
        match self.object(procedure) {
            Some(object) => {
                let params = object.params.as_slice();
                let entries = object.entries.as_slice();
                fill_space(space, args, params, entries, confined, first_step)
            }
            None => fill_space(space, args, &[], &[], confined, first_step),
        }
    }

    /// Enter: a new incarnation, with the merged parameters and what the procedure holds.
    #[tactic(auto, unfolding(hk_model::specs::Rule::enter_procedure))]
    pub(crate) fn enter(
        &mut self,
        alloc: Global,
        proc: Proc,
        inc: Inc,
        path: &Path,
        args: &Args,
        into: Slot,
    ) -> Result<Answer, Stop>
        requires { HasNumbers self.old }
        ensures { Gives self.old (enter_procedure self.old proc inc path.now args.now into) result self.new }
    {
        let step = path.len() as u8;
        let into_step = step + args.len() as u8;
        slots_at(args.as_slice(), step)?;
        slot_at(into, into_step)?;
        let cap = self.target(inc, path, Wanted::Procedures, Rights::A0)?;
        let confined = !cap.rights.has(Right::UNCONF);
        let held = self.args(alloc, inc, args.as_slice())?;
        let mut space = Space::empty();
        self.fill(&mut space, cap.name, held.as_slice(), confined, step)?;
        if self.depth(proc) >= DEPTH_LIMIT {
            return Err(Stop::Refused(Refusal::Deep));
        }
        self.add_incarnation(
            alloc,
            Incarnation {
                proc,
                procedure: Some(cap.name),
                caller: Some(inc),
                into,
                confined,
                slots: slots_of(alloc, &space)?,
            },
        )?;
        Ok(Answer::Done)
    }

    /// What a return hands to its caller: nothing, or a capability with ENV.
    fn given(&self, inc: Inc, give: Option<Slot>) -> Result<Option<Cap>, Refusal>
        ensures { result ≡ returned_cap (incarnation self.now inc).slots give }
    {
        match give {
            None => Ok(None),
            Some(slot) => {
                let at = slot_at(slot, 0)?;
                let cap = held(self.slot(inc, at), 0)?;
                allowed(cap.rights, Rights::ENV, 0)?;
                Ok(Some(cap))
            }
        }
    }

    /// Leave: the incarnation goes, and its caller goes on, with a capability where a slot is named.
    #[tactic(auto, unfolding(hk_model::specs::Rule::leave))]
    pub(crate) fn leave(
        &mut self,
        proc: Proc,
        inc: Inc,
        give: Option<Slot>,
        removed: &mut Removed,
    ) -> Result<Answer, Stop>
        requires { HasRoom self.old removed.old }
        ensures gives { Gives self.old (leave self.old proc inc give) result self.new }
        ensures went { OnOk result (removed.new ≡ removed_at removed.old inc (lookup (same_inc inc) self.old.incarnations)) }
        ensures none_went { OnErr result (removed.new ≡ removed.old) }
    {
        let cap = self.given(inc, give)?;
        let (caller, into) = self.return_place(inc);
        self.remove_incarnation(inc, removed);
        match caller {
            None => self.set_run(proc, ProcessState::Ended),
            Some(caller) => {
                self.set_current(proc, caller);
                if let Some(cap) = cap {
                    self.set_slot(caller, into.0 as usize, Entry::Held(cap));
                }
            }
        }
        Ok(Answer::Done)
    }
}
