//! A world and the lines that were made of it, from which the last can be taken back (`docs/RULES.md`, "Lines
//! taken back").

ghost use Rattle.std.specs.Prelude.{◌≡◌, [], length, IfOk, IfSome, IfNone, OnErr, None, Some, slice_get};
ghost use Rattle.hk_model.specs.Legal.{end_word};
ghost use Rattle.hk_model.specs.Running.{AreStepsOf, context_of, line_of};
ghost use Rattle.hk_model.specs.Snapshots.{shown};
ghost use Rattle.hk_undo.specs.Pasts.{machine_after, with_line};

use crate::reversible::{Made, Reversible};
use hk_model::{Cpu, End, Frame, Line, NoMemory, Proc, Snapshot, World};
use std::alloc::Global;
use std::marker::Model;

/// A world and the lines that were made of it so far (`docs/RULES.md`, "Lines taken back"): a step of a
/// processor adds a line, and the last line can be taken back. Contracts see the world and the lines.
#[derive(Drop)]
pub struct Past {
    world: World,
    machine: Reversible,
    // The last line stands last.
    made: Vec<Made>,
}

impl Model for Past {
    ghost use Rattle.hk_undo.specs.Pasts.{History, IsPast, lines_of};

    ghost Value = { History };

    ghost view = { λ a. record { world = a.world; lines = lines_of a.made.items } };

    ghost invariant = { λ a. IsPast a.world a.machine a.made.items };
}

impl Past {
    /// The world as it opens, of which no line was made. NoMemory is want of memory.
    pub fn begin(alloc: Global, world: World) -> Result<Past, NoMemory>
        ensures { IfOk result (λ past. past ≡ record { world = world; lines = [] }) }
    {
        let _limit = world.limit();
        let machine = Reversible::open(alloc, &world)?;
        Ok(Past {
            world,
            machine,
            made: Vec::new(alloc),
        })
    }

    /// Makes the step of a processor, adds its line and gives it. None exactly where the processor has
    /// no step; then nothing changes. NoMemory is want of memory; then nothing changes.
    pub fn forward(&mut self, alloc: Global, cpu: Cpu) -> Result<Option<Line>, NoMemory>
        ensures made { IfOk result (λ line. line ≡ line_of self.old.world (machine_after self.old) cpu) }
        ensures some { IfOk result (λ line. IfSome line (λ line. self.new ≡ with_line self.old line)) }
        ensures none { IfOk result (λ line. IfNone line (self.new ≡ self.old)) }
        ensures err { OnErr result (self.new ≡ self.old) }
    {
        self.made.reserve(1)?;
        match self.machine.forward(alloc, &self.world, cpu)? {
            Some(made) => {
                let line = made.line;
                self.made.push_reserved(made);
                Ok(Some(line))
            }
            None => Ok(None),
        }
    }

    /// Takes the last line back, and gives it: lines, state and frames are those before it. None exactly where there
    /// is no line; then nothing changes. NoMemory is want of memory; then nothing changes.
    pub fn back(&mut self, alloc: Global) -> Result<Option<Line>, NoMemory>
        ensures some { IfOk result (λ line. IfSome line (λ line. self.old ≡ with_line self.new line)) }
        ensures none { IfOk result (λ line. IfNone line ((self.old.lines ≡ []) × (self.new ≡ self.old))) }
        ensures err { OnErr result (self.new ≡ self.old) }
    {
        match self.made.last() {
            Some(made) => self.machine.take_back(alloc, &made.inverse)?,
            None => return Ok(None),
        }
        match self.made.pop() {
            Some(made) => {
                let line = made.line;
                self.machine.put_back(line.proc, made.frames);
                Ok(Some(line))
            }
            None => unreachable!(),
        }
    }

    /// How many lines were made and not taken back.
    pub fn len(&self) -> usize
        ensures value { result ≡ length self.now.lines }
        ensures steps { AreStepsOf self.now.world self.now.lines }
    {
        self.made.len()
    }

    /// The state after the lines, as plain data. NoMemory is want of memory.
    pub fn snapshot(&self, alloc: Global) -> Result<Snapshot, NoMemory>
        ensures { IfOk result (λ s. s ≡ shown (machine_after self.now).state) }
    {
        self.machine.snapshot(alloc)
    }

    /// The end word of the state after the lines (`docs/FORMATS.md`, "The record"). None exactly where it has none. NoMemory is
    /// want of memory.
    pub fn end(&self, alloc: Global) -> Result<Option<End>, NoMemory>
        ensures { IfOk result (λ end. end ≡ end_word (machine_after self.now).state) }
    {
        self.machine.end(alloc)
    }

    /// The current frame of a process after the lines. None exactly where it has no frame.
    pub fn frame(&self, proc: Proc) -> Option<Frame>
        ensures { result ≡ slice_get (context_of (machine_after self.now) proc) 0 }
    {
        self.machine.frame(proc)
    }
}
