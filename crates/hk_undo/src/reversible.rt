//! A kernel with the control of its processes, whose steps can be taken back (`docs/RULES.md`, "Lines taken
//! back").

ghost use Rattle.std.specs.Prelude.{◌≡◌, ◌<◌, length, IfOk, IfSome, IfNone, IsTrue, OnErr, OnOk, None, Some, slice_get};
ghost use Rattle.hk_model.specs.Legal.{end_word};
ghost use Rattle.hk_model.specs.Processors.{may_step, running_on};
ghost use Rattle.hk_model.specs.Running.{context_of, opened, step};
ghost use Rattle.hk_model.specs.Snapshots.{shown};
ghost use Rattle.hk_plain.specs.Changes.{IsBehind, taken_back};
ghost use Rattle.hk_program.specs.Machines.{IsSound};
ghost use Rattle.hk_undo.specs.Pasts.{CanPutBack, IsMade, contexts_back};

use crate::frames::{FramesBefore, put_back};
use crate::turning::turn;
use hk_model::limits::CPU_LIMIT;
use hk_model::{Cpu, End, Frame, Inc, Kernel, Line, NoMemory, Proc, Reply, Snapshot, What, World};
use hk_plain::{Inverse, Plain};
use hk_program::{Context, beginnings, end_word};
use std::alloc::Global;
use std::marker::Model;

/// A line that was made, with what takes it back.
#[derive(Drop)]
pub(crate) struct Made {
    pub(crate) line: Line,
    /// What takes it back of the state.
    pub(crate) inverse: Inverse,
    /// What takes it back of the frames of its process. None of a dispatch, which changes none.
    pub(crate) frames: Option<FramesBefore>,
}

/// A plain kernel with the control of each process of its world, by whose steps it is kept what takes
/// them back. Contracts see the state of the kernel and the frames of each process.
#[derive(Drop)]
pub(crate) struct Reversible {
    kernel: Plain,
    // By the numbers of the processes.
    contexts: Vec<Context>,
}

impl Model for Reversible {
    ghost use Rattle.hk_model.specs.Running.{Machine};

    ghost Value = { Machine };

    ghost view = { λ a. record { state = a.kernel; contexts = a.contexts.items } };
}

impl Reversible {
    /// The machine in which a world opens. NoMemory is want of memory.
    #[tactic(auto, unfolding(hk_model::specs::Running::opened))]
    pub(crate) fn open(alloc: Global, world: &World) -> Result<Reversible, NoMemory>
        ensures { IfOk result (λ machine. machine ≡ opened world.now) }
    {
        let kernel = Plain::new(alloc, world)?;
        let contexts = beginnings(alloc, world.tasks())?;
        Ok(Reversible { kernel, contexts })
    }

    /// Makes the step of a processor. None exactly where the processor has no step; then nothing
    /// changes. NoMemory is want of memory; then no event was made, and nothing changes.
    pub(crate) fn forward(
        &mut self,
        alloc: Global,
        world: &World,
        cpu: Cpu,
    ) -> Result<Option<Made>, NoMemory>
        requires { IsSound world.now self.old }
        ensures made { IfOk result (λ made. IfSome made (λ made. IsMade world.now self.old cpu made self.new)) }
        ensures none { IfOk result (λ made. IfNone made ((step world.now self.old cpu ≡ None) × (self.new ≡ self.old))) }
        ensures err { OnErr result (self.new ≡ self.old) }
    {
        if cpu.0 >= CPU_LIMIT {
            return Ok(None);
        }
        if self.kernel.limit_reached() {
            return Ok(None);
        }
        match self.kernel.current(cpu) {
            Some((proc, inc)) => {
                let made = self.event(alloc, world, cpu, proc, inc)?;
                Ok(Some(made))
            }
            None => self.dispatch(alloc, world, cpu),
        }
    }

    /// The event of the process that the processor runs, in its current incarnation.
    fn event(
        &mut self,
        alloc: Global,
        world: &World,
        cpu: Cpu,
        proc: Proc,
        inc: Inc,
    ) -> Result<Made, NoMemory>
        requires sound { IsSound world.now self.old }
        requires cpu { cpu.0 < 16 }
        requires below { IsTrue (may_step self.old.state) }
        requires runs { running_on self.old.state cpu ≡ Some (proc, inc) }
        ensures made { IfOk result (λ made. IsMade world.now self.old cpu made self.new) }
        ensures err { OnErr result (self.new ≡ self.old) }
    {
        let context = &mut self.contexts[proc.0 as usize];
        let turned = turn(alloc, &mut self.kernel, context, world, cpu)?;
        Ok(Made {
            line: Line {
                cpu,
                proc,
                inc,
                what: turned.what,
                reply: turned.reply,
            },
            inverse: turned.inverse,
            frames: Some(turned.frames),
        })
    }

    /// The dispatch of the first ready process. None exactly where none is ready.
    fn dispatch(&mut self, alloc: Global, world: &World, cpu: Cpu) -> Result<Option<Made>, NoMemory>
        requires sound { IsSound world.now self.old }
        requires cpu { cpu.0 < 16 }
        requires below { IsTrue (may_step self.old.state) }
        requires idle { running_on self.old.state cpu ≡ None }
        ensures made { IfOk result (λ made. IfSome made (λ made. IsMade world.now self.old cpu made self.new)) }
        ensures none { IfOk result (λ made. IfNone made ((step world.now self.old cpu ≡ None) × (self.new ≡ self.old))) }
        ensures err { OnErr result (self.new ≡ self.old) }
    {
        if !self.kernel.any_ready() {
            return Ok(None);
        }
        let (acted, inverse) = self.kernel.forward(alloc, cpu, &What::Dispatch)?;
        match self.kernel.current(cpu) {
            Some((proc, inc)) => Ok(Some(Made {
                line: Line {
                    cpu,
                    proc,
                    inc,
                    what: What::Dispatch,
                    reply: acted.reply,
                },
                inverse,
                frames: None,
            })),
            None => unreachable!(),
        }
    }

    /// Makes the state the one before an event. NoMemory is want of memory; then nothing changes.
    pub(crate) fn take_back(&mut self, alloc: Global, inverse: &Inverse) -> Result<(), NoMemory>
        requires { IsBehind inverse.now self.old.state }
        ensures ok { OnOk result (self.new ≡ record self.old { state = taken_back inverse.now self.old.state }) }
        ensures err { OnErr result (self.new ≡ self.old) }
    {
        self.kernel.undo(alloc, inverse)
    }

    /// Makes the frames of a process those before its event.
    pub(crate) fn put_back(&mut self, proc: Proc, frames: Option<FramesBefore>)
        requires { IfSome frames (λ kept. (proc.0 < length self.old.contexts) × CanPutBack kept (context_of self.old proc)) }
        ensures { self.new ≡ record self.old { contexts = contexts_back self.old proc frames } }
    {
        if let Some(kept) = frames {
            put_back(&mut self.contexts[proc.0 as usize], kept);
        }
    }

    /// The current frame of a process. None exactly where it has no frame.
    pub(crate) fn frame(&self, proc: Proc) -> Option<Frame>
        ensures { result ≡ slice_get (context_of self.now proc) 0 }
    {
        self.contexts.get(proc.0 as usize)?.top()
    }

    /// The end word of the state. None exactly where it has none. NoMemory is want of memory.
    pub(crate) fn end(&self, alloc: Global) -> Result<Option<End>, NoMemory>
        ensures { IfOk result (λ end. end ≡ end_word self.now.state) }
    {
        end_word(alloc, &self.kernel)
    }

    /// The state as plain data. NoMemory is want of memory.
    pub(crate) fn snapshot(&self, alloc: Global) -> Result<Snapshot, NoMemory>
        ensures { IfOk result (λ s. s ≡ shown self.now.state) }
    {
        self.kernel.snapshot(alloc)
    }
}
