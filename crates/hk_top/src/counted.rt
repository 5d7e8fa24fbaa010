//! A run on processor 0 of which the changes are counted as its lines come (`docs/FORMATS.md`, "Summaries").

ghost use Rattle.std.specs.Prelude.{◌≡◌, IfOk};
ghost use Rattle.hk_model.specs.Opening.{opening};
ghost use Rattle.hk_gen.specs.ConfinedCalls.{AllCallsConfined};
ghost use Rattle.hk_top.specs.Outputs.{IsCountedRun};

use crate::running::FIRST_PROCESSOR;
use hk_model::{End, Kernel, NoMemory, World};
use hk_program::{Machine, blank_line};
use hk_report::Counting;
use std::alloc::Global;

/// A run: how many changes there are under confined calls, how it ended, and the kernel behind it.
#[derive(Drop)]
pub struct CountedRun<K: Kernel> {
    pub changes: u64,
    pub end: End,
    pub kernel: K,
}

/// Runs a world of which every call is confined on processor 0 and a kernel that has opened it, until the processor
/// has no step, and counts the changes of each line as it comes. NoMemory is want of memory.
pub(crate) fn run_counted<K: Kernel>(
    alloc: Global,
    world: &World,
    kernel: K,
) -> Result<CountedRun<K>, NoMemory>
    requires opened { K.state kernel ≡ opening world.now }
    requires confined { AllCallsConfined world.now }
    ensures { IfOk result (λ run. IsCountedRun world.now run.changes run.end (K.state run.kernel)) }
{
    let mut machine = Machine::open(alloc, world, kernel)?;
    let mut counting = Counting::new(alloc, world)?;
    let mut line = blank_line(FIRST_PROCESSOR);
    while machine.step_into(alloc, world, FIRST_PROCESSOR, &mut line)? {
        counting.add(&line, true)?;
    }
    let Some(end) = machine.end_word(world) else {
        unreachable!()
    };
    Ok(CountedRun {
        changes: counting.changes(),
        end,
        kernel: machine.into_kernel(),
    })
}
