//! Records that are followed step by step (`docs/FORMATS.md`, "Legal records").

ghost use Rattle.std.specs.Prelude.{◌≡◌, ◌+◌, ◌<◌, ◌^◌, ◌++◌, true, ℕ, List, Ok, Some, IfOk, IfSome};
ghost use Rattle.hk_model.specs.declared.lines.Line.{Line};
ghost use Rattle.hk_model.specs.declared.lines.End.{End};
ghost use Rattle.hk_model.specs.WorldValue.{WorldValue};
ghost use Rattle.hk_model.specs.Legal.{end_word};
ghost use Rattle.hk_model.specs.Opening.{opening};
ghost use Rattle.hk_model.specs.Running.{step};
ghost use Rattle.hk_format.specs.AuditLines.{line_text};
ghost use Rattle.hk_format.specs.Audits.{audit, audited, events};
ghost use Rattle.hk_format.specs.LineRanges.{IsLine};
ghost use Rattle.hk_audit.specs.Followed.{IsReadTo};
ghost use Rattle.hk_program.specs.Machines.{IsSound};
ghost use Rattle.hk_report.specs.Retold.{IsToldMore};
ghost use Rattle.hk_top.specs.Follows.{IsFollowed, IsFollowedTold};

use crate::running::FIRST_PROCESSOR;
use hk_audit::Reader;
use hk_model::{Cpu, End, Items, Kernel, Line, NoMemory, World};
use hk_program::{Machine, blank_line};
use hk_report::Retelling;
use std::alloc::Global;

/// The end word of a legal record, whose world and reader these are. It makes the step of the processor of
/// each line on a kernel that has opened the world, compares its text with the bytes, and keeps no line.
/// None where it finds a difference: then the record is to be read. NoMemory is want of memory.
pub(crate) fn follow<K: Kernel>(
    alloc: Global,
    world: &World,
    reader: Reader<'_>,
    kernel: K,
) -> Result<Option<End>, NoMemory>
    requires { K.state kernel ≡ opening world.now }
    ensures { IfOk result (λ found. IfSome found (λ end. (lines : List Line) × IsFollowed world.now reader.entry lines end)) }
{
    let mut reader = reader;
    let mut machine = Machine::open(alloc, world, kernel)?;
    let mut line = blank_line(FIRST_PROCESSOR);
    while let Some(cpu) = reader.cpu() {
        if !takes_step(alloc, world, &mut machine, &mut reader, cpu, &mut line)? {
            return Ok(None);
        }
    }
    Ok(end_reached(world, &machine, &reader))
}

/// The lines of a legal record, followed in the same way. None where it finds a difference. NoMemory is want
/// of memory.
pub(crate) fn follow_lines<K: Kernel>(
    alloc: Global,
    world: &World,
    reader: Reader<'_>,
    kernel: K,
) -> Result<Option<Items<Line>>, NoMemory>
    requires { K.state kernel ≡ opening world.now }
    ensures { IfOk result (λ found. IfSome found (λ lines. (end : End) × IsFollowed world.now reader.entry lines end)) }
{
    let mut reader = reader;
    let mut machine = Machine::open(alloc, world, kernel)?;
    let mut lines = Items::new(alloc);
    let mut line = blank_line(FIRST_PROCESSOR);
    while let Some(cpu) = reader.cpu() {
        if !takes_step(alloc, world, &mut machine, &mut reader, cpu, &mut line)? {
            return Ok(None);
        }
        lines.push(line)?;
    }
    match end_reached(world, &machine, &reader) {
        Some(_end) => Ok(Some(lines)),
        None => Ok(None),
    }
}

/// What the lines of a legal record tell, followed in the same way on a plain kernel: each is told as it comes, and none is kept.
/// None where it finds a difference. NoMemory is want of memory.
pub(crate) fn follow_told(
    alloc: Global,
    world: &World,
    reader: Reader<'_>,
) -> Result<Option<Retelling>, NoMemory>
    ensures { IfOk result (λ found. IfSome found (λ told. IsFollowedTold world.now reader.entry told)) }
{
    let mut reader = reader;
    let mut told = Retelling::begin(alloc, world)?;
    let mut line = blank_line(FIRST_PROCESSOR);
    while let Some(cpu) = reader.cpu() {
        if !tells_step(alloc, world, &mut told, &mut reader, cpu, &mut line)? {
            return Ok(None);
        }
    }
    match end_reached(world, &told.machine, &reader) {
        Some(_end) => Ok(Some(told)),
        None => Ok(None),
    }
}

/// Whether the step of a processor has the text that is the next line of the record: then it is made and the
/// line, which is written over the one that is handed in, is read. Otherwise there is no such step, or it has
/// another text. NoMemory is want of memory.
fn takes_step<K: Kernel>(
    alloc: Global,
    world: &World,
    machine: &mut Machine<K>,
    reader: &mut Reader<'_>,
    cpu: Cpu,
    line: &mut Line,
) -> Result<bool, NoMemory>
    requires { IsSound world.now machine.old }
    ensures made { IfOk result (λ taken. taken ≡ true → step world.now machine.old cpu ≡ Some (line.new, machine.new)) }
    ensures read { IfOk result (λ taken. taken ≡ true → IsLine line.new × (reader.old ≡ line_text line.new ++ reader.new)) }
    ensures sound { IsSound world.now machine.new }
{
    if !machine.step_into(alloc, world, cpu, line)? {
        return Ok(false);
    }
    Ok(reader.take(line)?)
}

/// The same of a machine whose lines are told: where the step has that text it was made, told and read.
fn tells_step(
    alloc: Global,
    world: &World,
    told: &mut Retelling,
    reader: &mut Reader<'_>,
    cpu: Cpu,
    line: &mut Line,
) -> Result<bool, NoMemory>
    requires sound { IsSound world.now told.old.machine }
    requires few { told.old.count + 1 < 2 ^ 32 }
    ensures made { IfOk result (λ taken. taken ≡ true → step world.now told.old.machine cpu ≡ Some (line.new, told.new.machine)) }
    ensures told { IfOk result (λ taken. taken ≡ true → IsToldMore told.old told.new line.new) }
    ensures read { IfOk result (λ taken. taken ≡ true → IsLine line.new × (reader.old ≡ line_text line.new ++ reader.new)) }
    ensures sound { IsSound world.now told.new.machine }
{
    if !told.step_into(alloc, world, cpu, line)? {
        return Ok(false);
    }
    let taken = reader.take(line)?;
    Ok(taken)
}

/// The end word with which a record ends here, where the machine's state has it.
fn end_reached<K: Kernel>(world: &World, machine: &Machine<K>, reader: &Reader<'_>) -> Option<End>
    requires { IsSound world.now machine.now }
    ensures state { IfSome result (λ end. end_word machine.now.state ≡ Some end) }
    ensures whole { IfSome result (λ end. (bytes : List ℕ) (w : WorldValue) (lines : List Line) → IsReadTo bytes w lines reader.now
        → audit bytes ≡ Ok (audited w (events lines end))) }
{
    let end = reader.end()?;
    match machine.end_word(world) {
        Some(word) if word == end => Some(end),
        _ => None,
    }
}
