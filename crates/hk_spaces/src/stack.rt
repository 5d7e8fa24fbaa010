//! The stack of the calls that a process is in.

ghost use Rattle.std.specs.Prelude.{◌≡◌, ◌<◌, ◌≤◌, [], ◌∷◌, ◌++◌, ◌+◌, length, slice_get, take, Some, OnOk, OnErr, IfSome, IfNone};
ghost use Rattle.hk_spaces.specs.declared.stack.StackFrame.{StackFrame};
ghost use Rattle.hk_spaces.specs.Slots.{called_frame, with_top, HasPlaces};

use crate::space::Space;
use hk_model::{Entry, Inc, Name, NoMemory, Slot};
use std::alloc::Global;
use std::marker::Model;

/// One call: its name space, and what a return needs.
#[derive(Drop)]
pub struct StackFrame {
    pub space: Space,
    /// The number of the incarnation.
    pub inc: Inc,
    /// The slot of the frame below that takes what is returned, 0 for the base.
    pub into: Slot,
    pub confined: bool,
    /// The procedure that was called, None for the base.
    pub procedure: Option<Name>,
}

/// What the frame of a call of a procedure has beside its name space.
#[derive(Clone, Copy, PartialEq, Eq, Debug)]
pub struct Linkage {
    /// The number of the incarnation.
    pub inc: Inc,
    /// The slot of the frame below that takes what is returned.
    pub into: Slot,
    pub confined: bool,
    /// The procedure that was called.
    pub procedure: Name,
}

/// At most 64 frames, the base of the process first and its current call last (`docs/RULES.md`,
/// "Limits"). Contracts see the list of frames.
#[derive(Drop)]
pub struct Stack {
    // The frames, and behind them such as have gone, in whose places the next ones are written.
    places: Vec<StackFrame>,
    depth: usize,
}

impl Model for Stack {
    ghost use Rattle.std.specs.Prelude.{List, take};
    ghost use Rattle.hk_spaces.specs.declared.stack.StackFrame.{StackFrame};
    ghost use Rattle.hk_spaces.specs.Slots.{HasPlaces};

    ghost Value = { List StackFrame };

    ghost view = { λ stack. take stack.depth stack.places.items };

    ghost invariant = { λ stack. HasPlaces stack.depth stack.places.items };
}

/// A frame of no call, for a call's to be written over.
fn blank_frame() -> StackFrame {
    StackFrame {
        space: Space::empty(),
        inc: Inc(0),
        into: Slot(0),
        confined: false,
        procedure: None,
    }
}

/// One place more. NoMemory is want of memory, and changes nothing. It stands apart, since a function that holds a frame in
/// place lays it out whenever it is called.
#[inline(never)]
fn add_place(places: &mut Vec<StackFrame>) -> Result<(), NoMemory>
    ensures ok { OnOk result (length places.new.items ≡ length places.old.items + 1) }
    ensures err { OnErr result (places.new.items ≡ places.old.items) }
    ensures same { take (length places.old.items) places.new.items ≡ places.old.items }
{
    places.push(blank_frame())?;
    Ok(())
}

/// There is a place behind the first frames, so many. NoMemory is want of memory, and changes nothing.
#[inline(always)]
fn make_place(places: &mut Vec<StackFrame>, depth: usize) -> Result<(), NoMemory>
    requires has { HasPlaces depth places.old.items }
    requires room { depth < 64 }
    ensures place { OnOk result (depth < length places.new.items) }
    ensures has { HasPlaces depth places.new.items }
    ensures same { take depth places.new.items ≡ take depth places.old.items }
{
    if depth == places.len() {
        add_place(places)?;
    }
    Ok(())
}

impl Stack {
    /// The stack of no frames. It takes no memory.
    pub fn empty(alloc: Global) -> Stack
        ensures { result ≡ [] }
    {
        Stack {
            places: Vec::new(alloc),
            depth: 0,
        }
    }

    /// Puts a frame on top, where there are fewer than 64. NoMemory is want of memory, and changes nothing.
    pub fn push(&mut self, frame: StackFrame) -> Result<(), NoMemory>
        requires { length self.old < 64 }
        ensures ok { OnOk result (self.new ≡ self.old ++ frame ∷ []) }
        ensures err { OnErr result (self.new ≡ self.old) }
    {
        if self.depth < self.places.len() {
            self.places[self.depth] = frame;
        } else {
            self.places.push(frame)?;
        }
        self.depth += 1;
        Ok(())
    }

    /// Puts the frame of a call on top, where there are fewer than 64. It has what stands in this name space. It is written
    /// where a frame stood that has gone, if there is such a place. NoMemory is want of memory, and changes nothing.
    #[inline(always)]
    pub fn push_call(&mut self, space: &Space, linkage: Linkage) -> Result<(), NoMemory>
        requires { length self.old < 64 }
        ensures ok { OnOk result (self.new ≡ self.old ++ called_frame space.now linkage ∷ []) }
        ensures err { OnErr result (self.new ≡ self.old) }
    {
        make_place(&mut self.places, self.depth)?;
        let frame = &mut self.places[self.depth];
        frame.space.copy_from(space);
        frame.inc = linkage.inc;
        frame.into = linkage.into;
        frame.confined = linkage.confined;
        frame.procedure = Some(linkage.procedure);
        self.depth += 1;
        Ok(())
    }

    /// Takes the frame from the top. None exactly where there is none.
    pub fn pop(&mut self) -> Option<StackFrame>
        ensures some { IfSome result (λ frame. self.old ≡ self.new ++ frame ∷ []) }
        ensures none { IfNone result ((self.old ≡ []) × (self.new ≡ [])) }
    {
        self.places.truncate(self.depth);
        let top = self.places.pop()?;
        self.depth -= 1;
        Some(top)
    }

    /// Takes the frame from the top, and gives its slot of the frame below. None exactly where there is no frame. Its place
    /// is kept for the next one.
    #[inline(always)]
    pub fn leave(&mut self) -> Option<Slot>
        ensures some { IfSome result (λ into. (frame : StackFrame) × ((self.old ≡ self.new ++ frame ∷ []) × (frame.into ≡ into))) }
        ensures none { IfNone result ((self.old ≡ []) × (self.new ≡ [])) }
    {
        if self.depth == 0 {
            return None;
        }
        self.depth -= 1;
        Some(self.places[self.depth].into)
    }

    /// Takes all frames. Their places are kept for the next ones.
    pub fn clear(&mut self)
        ensures { self.new ≡ [] }
    {
        self.depth = 0;
    }

    /// The number of frames, at most 64.
    #[inline(always)]
    pub fn depth(&self) -> usize
        ensures value { result ≡ length self.now }
        ensures few { result ≤ 64 }
    {
        self.depth
    }

    /// The frame at a depth, from 0 for the base.
    #[inline(always)]
    pub fn frame(&self, at: usize) -> &StackFrame
        requires { at < length self.now }
        ensures { slice_get self.now at ≡ Some result.now }
    {
        &self.places[at]
    }

    /// Writes an entry into a slot, which is below 64, of the top frame, which there is.
    #[inline(always)]
    pub fn set_top(&mut self, slot: Slot, entry: Entry)
        requires some { 0 < length self.old }
        requires slot { slot.0 < 64 }
        ensures { self.new ≡ with_top self.old slot.0 entry }
    {
        let top = self.depth - 1;
        self.places[top].space.set(slot, entry);
    }
}
