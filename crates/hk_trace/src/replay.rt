//! A history once more, with what its lines write (`docs/RULES.md`, "Steps of processors").

ghost use Rattle.std.specs.Prelude.{◌≡◌, IfOk};
ghost use Rattle.hk_model.specs.Running.{opened, after_lines};
ghost use Rattle.hk_trace.specs.Writings.{writings_of};

use crate::writings::{Writing, writing_of};
use hk_model::{Line, NoMemory, World};
use hk_plain::Plain;
use hk_program::Machine;
use std::alloc::Global;

/// The machine after the lines of a history, and what each of them wrote.
#[derive(Drop)]
pub struct Replay {
    /// The machine behind the last line.
    pub machine: Machine<Plain>,
    /// What each line wrote, in their order.
    pub writings: Vec<Writing>,
}

/// The lines of a history once more, from the opening of its world on. NoMemory is want of memory.
pub(crate) fn replayed(alloc: Global, world: &World, lines: &[Line]) -> Result<Replay, NoMemory>
    ensures machine { IfOk result (λ r. r.machine ≡ after_lines world.now (opened world.now) lines.now) }
    ensures writings { IfOk result (λ r. r.writings.items ≡ writings_of world.now (opened world.now) lines.now) }
{
    let kernel = Plain::new(alloc, world)?;
    let mut machine = Machine::open(alloc, world, kernel)?;
    let mut writings = Vec::new(alloc);
    for line in lines {
        writings.push(writing_of(alloc, machine.kernel(), line)?)?;
        let _made = machine.step(alloc, world, line.cpu)?;
    }
    Ok(Replay { machine, writings })
}
