//! The verdict on a record.

ghost use Rattle.std.specs.Prelude.{◌≡◌, [], Decides, IfOk, IfNone, IfSome, Some};
ghost use Rattle.hk_model.specs.Legal.{end_word};
ghost use Rattle.hk_model.specs.Opening.{opening};
ghost use Rattle.hk_model.specs.Running.{line_of, step};
ghost use Rattle.hk_model.specs.declared.lines.End.{End};
ghost use Rattle.hk_model.specs.Verdicts.{Differs, IsMisstep, IsVerdict};
ghost use Rattle.hk_check.specs.Replays.{IsReplay};
ghost use Rattle.hk_program.specs.Machines.{IsSound};

use crate::differences::difference;
use hk_model::{End, Kernel, Line, Misstep, NoMemory, Verdict, World};
use hk_plain::Plain;
use hk_program::Machine;
use std::alloc::Global;

/// The verdict on the lines and the end word of a record of a world (`docs/FORMATS.md`, "Legal
/// records"): Legal, or the first bad line, counted from 1, with its first cause. It runs the
/// world again from its opening, on a plain kernel, and compares each line with the step of its
/// processor. NoMemory is want of memory.
pub fn check(alloc: Global, world: &World, lines: &[Line], end: End) -> Result<Verdict, NoMemory>
    ensures { IfOk result (λ verdict. IsVerdict world.now lines.now end verdict) }
{
    let kernel = Plain::new(alloc, world)?;
    check_on(alloc, world, lines, end, kernel)
}

/// The same verdict, by a kernel that has opened the world.
fn check_on<K: Kernel>(
    alloc: Global,
    world: &World,
    lines: &[Line],
    end: End,
    kernel: K,
) -> Result<Verdict, NoMemory>
    requires { K.state kernel ≡ opening world.now }
    ensures { IfOk result (λ verdict. IsVerdict world.now lines.now end verdict) }
{
    let mut machine = Machine::open(alloc, world, kernel)?;
    match first_misstep(alloc, world, &mut machine, lines)? {
        Some((line, cause)) => Ok(Verdict::Illegal { line, cause }),
        None => Ok(last_verdict(world, &machine, lines, end)),
    }
}

/// The first line, counted from 1, that is not the step of its processor, with its cause. None
/// exactly where all are steps, which are then made. The machine is the one in which the world opens.
fn first_misstep<K: Kernel>(
    alloc: Global,
    world: &World,
    machine: &mut Machine<K>,
    lines: &[Line],
) -> Result<Option<(u32, Misstep)>, NoMemory>
    requires { IsReplay world.now [] machine.old }
    ensures some { (end : End) → IfOk result (λ found. IfSome found (λ f. IsMisstep world.now lines.now end f.0 f.1)) }
    ensures none { IfOk result (λ found. IfNone found (IsReplay world.now lines.now machine.new)) }
{
    for (before, line) in lines.iter().enumerate() {
        if let Some(cause) = misstep(alloc, world, machine, line)? {
            return Ok(Some((before as u32 + 1, cause)));
        }
    }
    Ok(None)
}

/// The verdict on a record whose lines are all steps, and lead to this machine.
fn last_verdict<K: Kernel>(world: &World, machine: &Machine<K>, lines: &[Line], end: End) -> Verdict
    requires { IsReplay world.now lines.now machine.now }
    ensures { IsVerdict world.now lines.now end result }
{
    let _limit = world.limit();
    if ends_by(world, machine, end) {
        return Verdict::Legal;
    }
    Verdict::Illegal {
        line: lines.len() as u32 + 1,
        cause: Misstep::EndWord,
    }
}

/// Whether the state of a machine has this end word.
fn ends_by<K: Kernel>(world: &World, machine: &Machine<K>, end: End) -> bool
    requires { IsSound world.now machine.now }
    ensures { Decides result (end_word machine.now.state ≡ Some end) }
{
    match machine.end_word(world) {
        Some(word) => word == end,
        None => false,
    }
}

/// The cause for which a line is not the step of its processor. None exactly where it is that step,
/// which is then made.
fn misstep<K: Kernel>(
    alloc: Global,
    world: &World,
    machine: &mut Machine<K>,
    line: &Line,
) -> Result<Option<Misstep>, NoMemory>
    requires { IsSound world.now machine.old }
    ensures some { IfOk result (λ found. IfSome found (λ cause. Differs (line_of world.now machine.old line.now.cpu) line.now cause)) }
    ensures none { IfOk result (λ found. IfNone found (step world.now machine.old line.now.cpu ≡ Some (line.now, machine.new))) }
    ensures sound { IsSound world.now machine.new }
{
    match machine.step(alloc, world, line.cpu)? {
        Some(step) => Ok(difference(&step, line)),
        None => Ok(Some(Misstep::Cpu)),
    }
}
