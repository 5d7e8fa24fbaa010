//! The first steps of a world's run, over any kernel.

ghost use Rattle.std.specs.Prelude.{◌≡◌, ◌≤◌, ◌⊎◌, All, IfOk, length};
ghost use Rattle.hk_model.specs.declared.lines.Line.{Line};
ghost use Rattle.hk_model.specs.Opening.{opening};
ghost use Rattle.hk_model.specs.Running.{AreStepsOf};
ghost use Rattle.refusals.specs.Refusals.{first_processor, is_refused, HasNoStepBehind, HasSteps};

use hk_confine::confinement_law;
use hk_model::{Cpu, Items, Kernel, Line, NoMemory, Reply, World};
use hk_program::Machine;
use std::alloc::Global;

/// How many of the first steps of processor 0 are refused, on a kernel that has opened the world.
/// `most` steps are made, or fewer where the processor then has no step. NoMemory is want of memory.
///
/// The clause says that there are lines that are steps of the world from its opening on, each of
/// processor 0; that they are `most`, or fewer where the processor has no step behind them; that the
/// confinement law holds over them; and that so many of them are refused.
pub fn refused_steps<K: Kernel>(
    alloc: Global,
    world: &World,
    kernel: K,
    most: u32,
) -> Result<usize, NoMemory>
    requires { K.state kernel ≡ opening world.now }
    ensures { IfOk result (λ count. HasSteps world.now most count) }
{
    let lines = first_steps(alloc, world, kernel, most)?;
    confinement_law(world, lines.as_slice());
    Ok(
        lines
            .as_slice()
            .iter()
            .filter(|line| is_refused(line))
            .count(),
    )
}

/// The lines of the first steps of processor 0: `most`, or fewer where it then has no step.
fn first_steps<K: Kernel>(
    alloc: Global,
    world: &World,
    kernel: K,
    most: u32,
) -> Result<Items<Line>, NoMemory>
    requires { K.state kernel ≡ opening world.now }
    ensures steps { IfOk result (λ lines. AreStepsOf world.now lines) }
    ensures alone { IfOk result (λ lines. All (λ (line : Line). line.cpu ≡ first_processor) lines) }
    ensures few { IfOk result (λ lines. length lines ≤ most) }
    ensures whole { IfOk result (λ lines. (length lines ≡ most) ⊎ HasNoStepBehind world.now lines) }
{
    let mut machine = Machine::open(alloc, world, kernel)?;
    let mut lines = Items::new(alloc);
    for _ in 0..most {
        let Some(line) = machine.step(alloc, world, Cpu(0))? else {
            break;
        };
        lines.push(line)?;
    }
    Ok(lines)
}

/// Whether a line tells a refusal.
fn is_refused(line: &Line) -> bool
    ensures { result ≡ is_refused line.now }
{
    matches!(line.reply, Reply::No(_))
}
