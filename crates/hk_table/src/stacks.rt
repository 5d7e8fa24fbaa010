//! The stacks of the processes (`docs/RULES.md`, "Objects, incarnations, processes").
//!
//! An incarnation is a frame of its process's stack, and the frame below it is its caller. So the current incarnation of a
//! process is found without a search.

ghost use Rattle.std.specs.Prelude.{◌≡◌, ◌<◌, ◌≤◌, ◌+◌, ◌-◌, ◌++◌, ◌∷◌, ◌^◌, [], IfOk, OnOk, OnErr, IfSome, IfNone, length, option_copied, option_map, replicate, slice_set, slice_index_or};
ghost use Rattle.hk_model.specs.declared.entries.Entry.TheVariants.{Empty};
ghost use Rattle.hk_spaces.specs.declared.stack.StackFrame.{StackFrame};
ghost use Rattle.hk_spaces.specs.Slots.{called_frame, with_top};
ghost use Rattle.hk_table.specs.Small.{AreSmallStacks};
ghost use Rattle.hk_table.specs.Stacked.{base_frame, base_stacks, top_of, slots_of, with_top_of, with_frame, Pops, AreNumbered, IsIn};

use hk_model::{Entries, Entry, Inc, NoMemory, Proc, Slot, World};
use hk_spaces::{Linkage, Space, Stack, StackFrame};
use std::alloc::Global;
use std::marker::Model;

/// The stack of each process. Contracts see the frames of each, and the number that the next incarnation takes.
#[derive(Drop)]
pub struct Stacks {
    all: Vec<Stack>,
    next: Inc,
}

impl Model for Stacks {
    ghost use Rattle.hk_table.specs.Stacked.{Stacked, AreNumbered};

    ghost Value = { Stacked };

    ghost view = { λ s. record { stacks = s.all.items; next = s.next } };

    ghost invariant = { λ s. AreNumbered s.all.items s.next };
}

/// The name space that has these entries in its first slots.
fn space_of(entries: &[Entry]) -> Space
    requires { length entries.now ≤ 64 }
    ensures { result ≡ entries.now ++ replicate (64 - length entries.now) Empty }
{
    let mut space = Space::empty();
    for (i, entry) in entries.iter().enumerate() {
        space.set(Slot(i as u8), *entry);
    }
    space
}

/// The stack of a process with its base frame alone.
fn base_stack(alloc: Global, inc: Inc, entries: &Entries) -> Result<Stack, NoMemory>
    requires { length entries.now ≤ 64 }
    ensures { IfOk result (λ stack. stack ≡ base_frame inc.0 entries.now ∷ []) }
{
    let mut stack = Stack::empty(alloc);
    stack.push(StackFrame {
        space: space_of(entries.as_slice()),
        inc,
        into: Slot(0),
        confined: false,
        procedure: None,
    })?;
    Ok(stack)
}

/// Writes an entry into a slot of the top frame of a stack, if it has one and that has such a slot.
fn put_top(stack: &mut Stack, slot: Slot, entry: Entry)
    ensures { stack.new ≡ with_top stack.old slot.0 entry }
{
    let depth = stack.depth();
    if depth == 0 {
        return;
    }
    let slots = stack.frame(depth - 1).space.as_slice().len();
    if (slot.0 as usize) < slots {
        stack.set_top(slot, entry);
    }
}

/// Writes an entry into a slot of the top frame of a process.
fn put_top_of(all: &mut Vec<Stack>, at: usize, slot: Slot, entry: Entry)
    ensures { all.new.items ≡ with_top_of all.old.items at slot.0 entry }
{
    if at < all.len() {
        put_top(&mut all[at], slot, entry);
    }
}

/// Puts the frame of a call on top of the stack of a process.
#[inline(always)]
fn push_on(all: &mut Vec<Stack>, at: usize, space: &Space, linkage: Linkage) -> Result<(), NoMemory>
    requires at { at < length all.old.items }
    requires depth { length (slice_index_or all.old.items at []) < 64 }
    ensures ok { OnOk result (all.new.items ≡ slice_set all.old.items at (slice_index_or all.old.items at [] ++ called_frame space.now linkage ∷ [])) }
    ensures err { OnErr result (all.new.items ≡ all.old.items) }
{
    all[at].push_call(space, linkage)?;
    Ok(())
}

/// Takes the top frame of a process: the slot below that takes what it returns. None exactly where there is none.
#[inline(always)]
fn pop_off(all: &mut Vec<Stack>, at: usize) -> Option<Slot>
    ensures { Pops all.old.items at result all.new.items }
{
    if at >= all.len() {
        return None;
    }
    all[at].leave()
}

/// Takes all frames of a process.
fn empty_at(all: &mut Vec<Stack>, at: usize)
    ensures { all.new.items ≡ slice_set all.old.items at [] }
{
    if at < all.len() {
        all[at].clear();
    }
}

impl Stacks {
    /// The stacks as a world opens: process k has the base incarnation k. NoMemory is want of memory.
    pub(crate) fn open(alloc: Global, world: &World) -> Result<Stacks, NoMemory>
        ensures stacks { IfOk result (λ s. s.stacks ≡ base_stacks 0 world.now.tasks) }
        ensures next { IfOk result (λ s. s.next.0 ≡ length world.now.tasks) }
        ensures small { IfOk result (λ s. AreSmallStacks s.stacks) }
    {
        let tasks = world.tasks();
        let mut all = Vec::with_capacity(alloc, tasks.len())?;
        for (n, task) in tasks.iter().enumerate() {
            all.push(base_stack(alloc, Inc(n as u64), &task.slots)?)?;
        }
        Ok(Stacks {
            all,
            next: Inc(tasks.len() as u64),
        })
    }

    /// The stacks by process.
    pub(crate) fn as_slice(&self) -> &[Stack]
        ensures value { result.now ≡ self.now.stacks }
        ensures numbered { AreNumbered self.now.stacks self.now.next }
    {
        self.all.as_slice()
    }

    /// The top frame of a process. None exactly where it has no frame.
    pub(crate) fn top(&self, proc: Proc) -> Option<&StackFrame>
        ensures numbered { AreNumbered self.now.stacks self.now.next }
        ensures top { option_copied result ≡ top_of (slice_index_or self.now.stacks proc.0 []) }
    {
        let stack = self.all.as_slice().get(proc.0 as usize)?;
        let depth = stack.depth();
        if depth == 0 {
            return None;
        }
        Some(stack.frame(depth - 1))
    }

    /// The slots of the top frame of a process: none where it has no frame.
    pub(crate) fn top_slots(&self, proc: Proc) -> &[Entry]
        ensures value { result.now ≡ slots_of (top_of (slice_index_or self.now.stacks proc.0 [])) }
        ensures numbered { AreNumbered self.now.stacks self.now.next }
    {
        match self.top(proc) {
            Some(frame) => frame.space.as_slice(),
            None => &[],
        }
    }

    /// What stands in a slot of the top frame of a process. None exactly where it has no such slot.
    pub(crate) fn at_top(&self, proc: Proc, at: usize) -> Option<Entry>
        ensures some { IfSome result (λ entry. IsIn (slots_of (top_of (slice_index_or self.now.stacks proc.0 []))) at entry) }
        ensures none { IfNone result (length (slots_of (top_of (slice_index_or self.now.stacks proc.0 []))) ≤ at) }
        ensures numbered { AreNumbered self.now.stacks self.now.next }
    {
        match self.top_slots(proc).get(at) {
            Some(entry) => Some(*entry),
            None => None,
        }
    }

    /// Writes an entry into a slot of the top frame of a process, if it has one.
    pub(crate) fn set_top(&mut self, proc: Proc, slot: Slot, entry: Entry)
        ensures value { self.new ≡ record self.old { stacks = with_top_of self.old.stacks proc.0 slot.0 entry } }
        ensures numbered { AreNumbered self.old.stacks self.old.next }
    {
        put_top_of(&mut self.all, proc.0 as usize, slot, entry);
    }

    /// How many frames a process has.
    pub(crate) fn depth(&self, proc: Proc) -> usize
        ensures value { result ≡ length (slice_index_or self.now.stacks proc.0 []) }
        ensures numbered { AreNumbered self.now.stacks self.now.next }
    {
        match self.all.as_slice().get(proc.0 as usize) {
            Some(stack) => stack.depth(),
            None => 0,
        }
    }

    /// The number of the top frame of a process. None exactly where it has no frame.
    pub(crate) fn top_number(&self, proc: Proc) -> Option<Inc>
        ensures { result ≡ option_map (λ (f : StackFrame). f.inc) (top_of (slice_index_or self.now.stacks proc.0 [])) }
    {
        match self.top(proc) {
            Some(frame) => Some(frame.inc),
            None => None,
        }
    }

    /// Puts the frame of a call with the next number on top of the stack of a process. NoMemory is want of memory, and changes
    /// nothing.
    #[inline(always)]
    pub(crate) fn push(
        &mut self,
        proc: Proc,
        space: &Space,
        linkage: Linkage,
    ) -> Result<(), NoMemory>
        requires proc { proc.0 < length self.old.stacks }
        requires depth { length (slice_index_or self.old.stacks proc.0 []) < 64 }
        requires number { linkage.inc ≡ self.old.next }
        requires next { self.old.next.0 < 2 ^ 63 }
        ensures ok { OnOk result (self.new ≡ with_frame self.old proc.0 (called_frame space.now linkage)) }
        ensures err { OnErr result (self.new ≡ self.old) }
        ensures numbered { AreNumbered self.old.stacks self.old.next }
    {
        push_on(&mut self.all, proc.0 as usize, space, linkage)?;
        self.next = Inc(self.next.0 + 1);
        Ok(())
    }

    /// Takes the top frame of a process: the slot below that takes what it returns. None exactly where there is none; then
    /// nothing changes.
    #[inline(always)]
    pub(crate) fn pop(&mut self, proc: Proc) -> Option<Slot>
        ensures popped { Pops self.old.stacks proc.0 result self.new.stacks }
        ensures next { self.new.next ≡ self.old.next }
        ensures numbered { AreNumbered self.old.stacks self.old.next }
    {
        pop_off(&mut self.all, proc.0 as usize)
    }

    /// Takes all frames of a process.
    pub(crate) fn clear(&mut self, proc: Proc)
        ensures value { self.new ≡ record self.old { stacks = slice_set self.old.stacks proc.0 [] } }
        ensures numbered { AreNumbered self.old.stacks self.old.next }
    {
        empty_at(&mut self.all, proc.0 as usize);
    }

    /// The number that the next incarnation takes.
    pub(crate) fn next(&self) -> Inc
        ensures { result ≡ self.now.next }
    {
        self.next
    }
}
