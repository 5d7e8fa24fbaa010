//! The record of a run on processor 0, written as its lines come (`docs/FORMATS.md`, "Audit lines and records").

ghost use Rattle.std.specs.Prelude.{◌≡◌, IfOk};
ghost use Rattle.hk_model.specs.Opening.{opening};
ghost use Rattle.hk_top.specs.Outputs.{IsWrittenRun};

use crate::running::FIRST_PROCESSOR;
use hk_audit::Writer;
use hk_model::{End, Kernel, NoMemory, Text, World};
use hk_program::{Machine, blank_line};
use std::alloc::Global;

/// A run: its record, how it ended, and the kernel behind it.
#[derive(Drop)]
pub struct WrittenRun<K: Kernel> {
    pub text: Text,
    pub end: End,
    pub kernel: K,
}

/// Runs a world on processor 0 and a kernel that has opened it, until the processor has no step, and
/// writes each line as it comes. NoMemory is want of memory.
pub(crate) fn write_run<K: Kernel>(
    alloc: Global,
    world: &World,
    kernel: K,
) -> Result<WrittenRun<K>, NoMemory>
    requires { K.state kernel ≡ opening world.now }
    ensures { IfOk result (λ run. IsWrittenRun world.now run.text run.end (K.state run.kernel)) }
{
    let mut machine = Machine::open(alloc, world, kernel)?;
    let mut writer = Writer::new(alloc, world)?;
    let mut line = blank_line(FIRST_PROCESSOR);
    while machine.step_into(alloc, world, FIRST_PROCESSOR, &mut line)? {
        writer.add(&line)?;
    }
    let Some(end) = machine.end_word(world) else {
        unreachable!()
    };
    Ok(WrittenRun {
        text: writer.finish(end)?,
        end,
        kernel: machine.into_kernel(),
    })
}
