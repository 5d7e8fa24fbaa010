//! The frames of a process.

ghost use Rattle.std.specs.Prelude.{◌≡◌, ◌<◌, [], ◌∷◌, length, IfOk, IfSome, IfNone, IsTrue, ◌↔◌, slice_get, drop};
ghost use Rattle.hk_model.specs.Control as control;
ghost use Rattle.hk_model.specs.Control.{new_frame};
ghost use Rattle.hk_program.specs.Contexts.{AreFrames, behind_top};

use crate::answering::go_behind;
use crate::running::run;
use hk_model::limits::DEPTH_LIMIT;
use hk_model::{Frame, NoMemory, Reply, Todo, World};
use std::alloc::Global;
use std::marker::Model;

/// The control of a process: its frames, at most 64 and one for each of its incarnations
/// (`docs/RULES.md`, "Control of a process"). Contracts see the list of frames, the current one
/// first.
#[derive(Drop)]
pub struct Context {
    // The current frame stands last.
    frames: Vec<Frame>,
}

impl Model for Context {
    ghost use Rattle.std.specs.Prelude.{List, ◌≤◌, reverse, vec_capacity};
    ghost use Rattle.hk_model.specs.declared.frames.Frame.{Frame};

    ghost Value = { List Frame };

    ghost view = { λ context. reverse context.frames.items };

    ghost invariant = { λ context. 64 ≤ vec_capacity context.frames };
}

impl Context {
    /// The context of a process that begins a code, by the code's number: one new frame. It takes the
    /// memory for 64 frames. NoMemory is want of memory.
    pub fn new(alloc: Global, code: u16) -> Result<Context, NoMemory>
        ensures { IfOk result (λ context. context ≡ new_frame code ∷ []) }
    {
        let mut frames = Vec::with_capacity(alloc, DEPTH_LIMIT)?;
        frames.push_reserved(opened(code));
        Ok(Context { frames })
    }

    /// The current frame. None exactly where there is no frame.
    pub fn top(&self) -> Option<Frame>
        ensures { result ≡ slice_get self.now 0 }
    {
        self.frames.last().copied()
    }

    /// Writes what is next in the current frame, which keeps what its local instructions changed
    /// (`docs/RULES.md`, "Control of a process"). A context without a frame is halted.
    #[tactic(auto, unfolding(hk_model::specs::Control::next))]
    #[inline(always)]
    pub(crate) fn run_top(&mut self, world: &World, todo: &mut Todo)
        requires { AreFrames world.now self.old }
        ensures value { (todo.new, self.new) ≡ control.next world.now self.old }
        ensures fits { AreFrames world.now self.new }
        ensures depth { length self.new ≡ length self.old }
        ensures others { drop 1 self.new ≡ drop 1 self.old }
    {
        match self.frames.last_mut() {
            Some(frame) => run(world, frame, todo),
            None => *todo = Todo::Halt,
        }
    }

    /// Puts the current frame behind its answered call, and says whether there is one
    /// (`docs/RULES.md`, "Control of a process").
    #[inline(always)]
    pub(crate) fn answer_top(&mut self, world: &World, reply: &Reply) -> bool
        requires { AreFrames world.now self.old }
        ensures some { IsTrue result ↔ (0 < length self.old) }
        ensures value { self.new ≡ behind_top world.now self.old reply.now }
        ensures fits { AreFrames world.now self.new }
    {
        match self.frames.last_mut() {
            Some(frame) => {
                go_behind(world, frame, reply);
                true
            }
            None => false,
        }
    }

    /// Writes over the current frame.
    pub fn put_top(&mut self, frame: Frame)
        requires { 0 < length self.old }
        ensures { self.new ≡ frame ∷ drop 1 self.old }
    {
        self.frames.pop();
        self.frames.push_reserved(frame);
    }

    /// Puts a new current frame before the others. It takes no memory.
    pub fn push(&mut self, frame: Frame)
        requires { length self.old < 64 }
        ensures { self.new ≡ frame ∷ self.old }
    {
        self.frames.push_reserved(frame);
    }

    /// Takes the current frame away. None exactly where there is no frame.
    pub fn pop(&mut self) -> Option<Frame>
        ensures some { IfSome result (λ frame. self.old ≡ frame ∷ self.new) }
        ensures none { IfNone result ((self.old ≡ []) × (self.new ≡ [])) }
    {
        self.frames.pop()
    }

    /// Takes all frames away.
    pub fn clear(&mut self)
        ensures { self.new ≡ [] }
    {
        self.frames.clear();
    }
}

/// A frame at the beginning of a code.
pub(crate) fn opened(code: u16) -> Frame
    ensures { result ≡ new_frame code }
{
    Frame {
        code,
        at: 0,
        registers: [0; 8],
        refused: false,
    }
}
