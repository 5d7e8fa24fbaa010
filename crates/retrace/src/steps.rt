//! Steps of some processor, forward and back.

use hk_model::{Cpu, Line, NoMemory};
use hk_undo::Past;
use std::alloc::Global;

/// How many processors make steps.
const PROCESSORS: u8 = 3;

/// A number that looks like chance, and the one that the next is made of.
fn next_number(seed: u32) -> u32 {
    seed.wrapping_mul(1_103_515_245).wrapping_add(12_345)
}

/// The step of a processor. Where memory is wanted once, it is asked for again.
fn step_of(alloc: Global, past: &mut Past, cpu: Cpu) -> Result<Option<Line>, NoMemory> {
    match past.forward(alloc, cpu) {
        Ok(line) => Ok(line),
        Err(_) => past.forward(alloc, cpu),
    }
}

/// The step of a processor that has one, looked for from some processor on. None where none has one.
pub(crate) fn some_step(
    alloc: Global,
    past: &mut Past,
    seed: &mut u32,
) -> Result<Option<Line>, NoMemory> {
    *seed = next_number(*seed);
    let first = ((*seed >> 16) % u32::from(PROCESSORS)) as u8;
    for k in 0..PROCESSORS {
        let cpu = Cpu((first + k) % PROCESSORS);
        let made = step_of(alloc, past, cpu)?;
        if made.is_some() {
            return Ok(made);
        }
    }
    Ok(None)
}
