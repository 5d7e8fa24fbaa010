//! The incarnations of calls: how many a process has, one more, and one that goes (`docs/RULES.md`, "Calls of procedures").

ghost use Rattle.std.specs.Prelude.{◌≡◌, ◌<◌, ◌^◌, [], true, length, slice_index_or, OnOk, OnErr};
ghost use Rattle.hk_model.specs.State.{incarnation, process};
ghost use Rattle.hk_model.specs.Processors.{is_running, ended};
ghost use Rattle.hk_model.specs.Rule.{depth, enter, called_incarnation};
ghost use Rattle.hk_reclaim.specs.Naming.{named_in};
ghost use Rattle.hk_table.specs.Held.{CanHold, CanRelease, Holds, Releases};
ghost use Rattle.hk_table.specs.Returns.{GoesBack};
ghost use Rattle.hk_table.specs.Settled.{stack_names};
ghost use Rattle.hk_table.specs.Stacked.{slots_of, top_of};

use crate::counting::{hold_space, release_space, release_stack};
use crate::parts::Parts;
use crate::stacks::Stacks;
use hk_model::{Inc, Name, NoMemory, Proc, ProcessState, Slot};
use hk_objects::Objects;
use hk_reclaim::Counts;
use hk_spaces::{Linkage, Space};

/// What the frames of a process named from outside goes.
fn release_frames(objects: &Objects, counts: &mut Counts, stacks: &Stacks, proc: Proc)
    requires { CanRelease objects.now.slots (stack_names (slice_index_or stacks.now.stacks proc.0 [])) counts.old }
    ensures { Releases objects.now.slots (stack_names (slice_index_or stacks.now.stacks proc.0 [])) counts.old counts.new }
{
    if let Some(stack) = stacks.as_slice().get(proc.0 as usize) {
        release_stack(objects, counts, stack);
    }
}

/// What the slots of the top frame of a process name comes from outside.
#[inline(always)]
fn hold_top(objects: &Objects, counts: &mut Counts, stacks: &Stacks, proc: Proc)
    requires { CanHold objects.now.slots (named_in (slots_of (top_of (slice_index_or stacks.now.stacks proc.0 [])))) counts.old }
    ensures { Holds objects.now.slots (named_in (slots_of (top_of (slice_index_or stacks.now.stacks proc.0 [])))) counts.old counts.new }
{
    if let Some(frame) = stacks.top(proc) {
        hold_space(objects, counts, &frame.space);
    }
}

/// What the slots of the top frame of a process named from outside goes.
#[inline(always)]
fn release_top(objects: &Objects, counts: &mut Counts, stacks: &Stacks, proc: Proc)
    requires { CanRelease objects.now.slots (named_in (slots_of (top_of (slice_index_or stacks.now.stacks proc.0 [])))) counts.old }
    ensures { Releases objects.now.slots (named_in (slots_of (top_of (slice_index_or stacks.now.stacks proc.0 [])))) counts.old counts.new }
{
    if let Some(frame) = stacks.top(proc) {
        release_space(objects, counts, &frame.space);
    }
}

impl Parts {
    /// How many incarnations a process has.
    pub(crate) fn depth(&self, proc: Proc) -> usize
        ensures { result ≡ depth self.now proc }
    {
        self.stacks.depth(proc)
    }

    /// One more incarnation, which is the current one of its process: that of a call of this procedure. NoMemory is want of
    /// memory, and changes nothing.
    #[inline(always)]
    pub(crate) fn add_call(
        &mut self,
        proc: Proc,
        procedure: Name,
        into: Slot,
        confined: bool,
        space: &Space,
    ) -> Result<(), NoMemory>
        requires known { proc.0 < length self.old.processes }
        requires lives { 0 < length (incarnation self.old (process self.old proc).current).slots }
        requires depth { depth self.old proc < 64 }
        requires next { self.old.next_inc.0 < 2 ^ 63 }
        ensures ok { OnOk result (self.new ≡ enter self.old (called_incarnation proc procedure (process self.old proc).current into confined space.now)) }
        ensures err { OnErr result (self.new ≡ self.old) }
    {
        let _deep = self.stacks.depth(proc);
        let _slots = space.as_slice(); // so that the check knows how many slots there are
        let inc = self.stacks.next();
        let linkage = Linkage {
            inc,
            into,
            confined,
            procedure,
        };
        self.stacks.push(proc, space, linkage)?;
        hold_top(&self.objects, &mut self.counts, &self.stacks, proc);
        self.processes.set_current(proc, inc);
        Ok(())
    }

    /// The current incarnation of a process goes, and its caller goes on: the slot there that takes what is returned. None
    /// exactly where there is no caller; then the process ends.
    pub(crate) fn go_back(&mut self, proc: Proc) -> Option<Slot>
        requires { is_running (process self.old proc).run ≡ true }
        ensures { GoesBack self.old proc (process self.old proc).current result self.new }
    {
        release_top(&self.objects, &mut self.counts, &self.stacks, proc);
        let Some(into) = self.stacks.pop(proc) else {
            self.processes.set_run(proc, ProcessState::Ended);
            return None;
        };
        match self.stacks.top_number(proc) {
            Some(caller) => {
                self.processes.set_current(proc, caller);
                Some(into)
            }
            None => {
                self.processes.set_run(proc, ProcessState::Ended);
                None
            }
        }
    }

    /// Ends a process, with all its incarnations.
    pub(crate) fn end(&mut self, proc: Proc)
        requires { is_running (process self.old proc).run ≡ true }
        ensures { self.new ≡ ended self.old proc }
    {
        release_frames(&self.objects, &mut self.counts, &self.stacks, proc);
        self.stacks.clear(proc);
        self.processes.set_run(proc, ProcessState::Ended);
    }
}
