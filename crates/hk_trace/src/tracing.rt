//! The trace of a line.

ghost use Rattle.std.specs.Prelude.{◌≡◌, ◌<◌, ◌^◌, length, map, IfOk};
ghost use Rattle.hk_model.specs.Descent.{DescentLaw};
ghost use Rattle.hk_model.specs.Running.{AreStepsOf, state_after};
ghost use Rattle.hk_trace.specs.Used.{used};
ghost use Rattle.hk_trace.specs.Traced.{chain_after, trace_of};

use crate::chains::Chain;
use crate::following::chains_of;
use crate::replay::replayed;
use crate::using::used;
use hk_descent::descent_law;
use hk_model::{Line, NoMemory, World};
use std::alloc::Global;

/// Where the capabilities and templates came from that the line of a number used, counted from 1
/// (`docs/RULES.md`, "Traced descent"): for each place that it used, in the order of steps, the chain
/// of what stood there before the line, each link with the line that wrote the place, the place that
/// its entry came from and what stood there before that line. It is empty for a line that is not
/// there, a dispatch, a halt and a Drop. Each chain is one of which the law of descent speaks, which the
/// clause `law` has. NoMemory is want of memory.
///
/// `lines` are steps of `world` from its opening on, in the order of the history. The lines before
/// the traced one are made once more.
pub fn trace(
    alloc: Global,
    world: &World,
    lines: &[Line],
    number: u32,
) -> Result<Vec<Chain>, NoMemory>
    requires { AreStepsOf world.now lines.now }
    ensures traced { IfOk result (λ chains. chains.items ≡ trace_of world.now lines.now number) }
    ensures law { DescentLaw world.now lines.now }
{
    descent_law(world, lines);
    if number == 0 {
        return Ok(Vec::new(alloc));
    }
    let before = number as usize - 1;
    match lines.get(before) {
        Some(line) => trace_line(alloc, world, &lines[..before], line),
        None => Ok(Vec::new(alloc)),
    }
}

/// The chains of what a line used, behind these lines.
#[tactic(auto, using(crate::proofs::ChainLemmas::found_traced, crate::proofs::ChainLemmas::writings_few))]
fn trace_line(
    alloc: Global,
    world: &World,
    before: &[Line],
    line: &Line,
) -> Result<Vec<Chain>, NoMemory>
    requires steps { AreStepsOf world.now before.now }
    requires few { length before.now < 2 ^ 32 }
    ensures { IfOk result (λ chains. chains.items ≡ map (chain_after world.now before.now) (used (state_after world.now before.now) line.now)) }
{
    descent_law(world, before);
    let replay = replayed(alloc, world, before)?;
    let used = used(alloc, replay.machine.kernel(), line)?;
    chains_of(alloc, replay.writings.as_slice(), used.as_slice())
}
