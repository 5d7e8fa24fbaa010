//! The status and the text that are due to what a command read (`docs/FORMATS.md`, "Statuses and
//! outputs").

ghost use Rattle.std.specs.Prelude.{◌≡◌, ◌≢◌, ◌≤◌, [], IfOk, IfSome, List, None, length};
ghost use Rattle.hk_model.specs.declared.lines.Line.{Line};
ghost use Rattle.hk_report.specs.Retold.{IsRetold};
ghost use Rattle.hk_format.specs.CauseTexts.{cause_name, refusal_text, too_long_text, verdict_text};
ghost use Rattle.hk_model.specs.Limits.{script_bytes, record_bytes};
ghost use Rattle.hk_format.specs.Canonical.{canon};
ghost use Rattle.hk_format.specs.Texts.{ended_line};
ghost use Rattle.serde_json.specs.Written.{compact_text};
ghost use Rattle.hk_json.specs.Values.{value};
ghost use Rattle.hk_model.specs.Opening.{opening};
ghost use Rattle.hk_model.specs.Running.{AreStepsOf};
ghost use Rattle.hk_model.specs.declared.verdicts.Verdict.TheVariants.{Legal};
ghost use Rattle.hk_top.specs.Words.{words_of, byte_limit, IsInRange, MayTakeBack, MayTrace, ReadsAlone, json_bytes};
ghost use Rattle.hk_top.specs.BoundTexts.{AreTold};
ghost use Rattle.hk_top.specs.Runs.{IsRecord};
ghost use Rattle.hk_top.specs.Outputs.{DueTo, IsChecked, TellsChains, TellsChanges, TellsLegal, TellsState, bad_json_text};
ghost use Rattle.hk_top.specs.Follows.{AreDue};
ghost use Rattle.hk_top.specs.Served.{IsDueTo, Records};

use crate::bounds::bounds_text;
use crate::causes::{refusal_text, verdict_text};
use crate::followed::{follow, follow_lines, follow_told};
use crate::maker::Maker;
use crate::running::laws;
use crate::served::{DueText, Served};
use crate::status;
use crate::taking_back::{makes_again, text_before};
use crate::words::Command;
use crate::written::write_run;
use hk_audit::{Audit, Reader, RecordError, read_record, record_text, steps_have_texts};
use hk_bound::bound;
use hk_check::check;
use hk_format::Cause;
use hk_json::{JsonError, json_text, read_json};
use hk_load::{WorldError, read_world};
use hk_model::{End, Kernel, Line, NoMemory, Text, Verdict, World};
use hk_plain::Plain;
use hk_print::script_text;
use hk_report::{Retelling, report_text};
use hk_trace::{chains_text, trace};
use hk_undo::Past;
use std::alloc::Global;

/// What is due to a command and the bytes that it read, where one processor serves it. NoMemory is
/// want of memory.
pub(crate) fn due_to_bytes<M: Maker>(
    alloc: Global,
    command: Command,
    bytes: &[u8],
    kernels: &M,
) -> Result<Served<M::Made>, NoMemory>
    requires few { length bytes.now ≤ byte_limit command }
    requires alone { ReadsAlone command }
    requires range { IsInRange command }
    ensures { IfOk result (λ served. IsDueTo M.Made.state (words_of command) bytes.now served) }
{
    match command {
        Command::Run => run_script(alloc, bytes, kernels),
        Command::RunOn(_) | Command::Gen(_) => unreachable!(),
        Command::Show => Ok(text_alone(show_script(alloc, bytes)?)),
        Command::Bound => Ok(text_alone(bound_script(alloc, bytes)?)),
        Command::Json => Ok(text_alone(json_script(alloc, bytes)?)),
        Command::Unjson => Ok(text_alone(unjson(alloc, bytes)?)),
        Command::Check => Ok(text_alone(check_record(alloc, bytes)?)),
        Command::Confine => Ok(text_alone(confine_record(alloc, bytes)?)),
        Command::Trace(line) => Ok(text_alone(trace_record(alloc, bytes, line)?)),
        Command::Back(count) => Ok(text_alone(back_record(alloc, bytes, count)?)),
    }
}

/// A text that is neither the record nor the summary of a run.
pub(crate) fn text_alone<K>(due: DueText) -> Served<K>
    ensures due { result.due ≡ due }
    ensures kernel { result.kernel ≡ None }
{
    Served { due, kernel: None }
}

/// What is due to more bytes than a command may read. NoMemory is want of memory.
#[tactic(auto, using(crate::proofs::AnswerLemmas::too_long_is))]
pub(crate) fn too_long(alloc: Global) -> Result<DueText, NoMemory>
    ensures { IfOk result (λ due. (due.status ≡ 3) × (due.text ≡ too_long_text)) }
{
    Ok(DueText {
        status: status::REFUSED,
        text: Text::from_str(alloc, "line 0: TooLong\n")?,
    })
}

/// What is due to `run` and the bytes of a script.
fn run_script<M: Maker>(
    alloc: Global,
    bytes: &[u8],
    kernels: &M,
) -> Result<Served<M::Made>, NoMemory>
    requires few { length bytes.now ≤ script_bytes }
    ensures { IfOk result (λ served. IsDueTo M.Made.state (words_of Command.Run) bytes.now served) }
{
    match read_world(alloc, bytes) {
        Ok(world) => {
            let kernel = kernels.make(alloc, &world)?;
            recorded(alloc, &world, kernel)
        }
        Err(WorldError::Refused { line, cause }) => { Ok(text_alone(refused(alloc, line, cause)?)) }
        Err(WorldError::NoMemory) => Err(NoMemory),
    }
}

/// What is due to `run` and a world, run on this kernel: the record of its run.
#[tactic(auto, using(crate::proofs::WrittenRuns::written_due))]
fn recorded<K: Kernel>(alloc: Global, world: &World, kernel: K) -> Result<Served<K>, NoMemory>
    requires { K.state kernel ≡ opening world.now }
    ensures { IfOk result (λ served. Records K.state (words_of Command.Run) world.now served) }
{
    let run = write_run(alloc, world, kernel)?;
    Ok(Served {
        due: DueText {
            status: status::of_run(run.end),
            text: run.text,
        },
        kernel: Some(run.kernel),
    })
}

/// What is due to `show` and the bytes of a script.
fn show_script(alloc: Global, bytes: &[u8]) -> Result<DueText, NoMemory>
    requires few { length bytes.now ≤ script_bytes }
    ensures { IfOk result (λ due. DueTo (words_of Command.Show) bytes.now due.status due.text None) }
{
    match read_world(alloc, bytes) {
        Ok(world) => script(alloc, &world),
        Err(WorldError::Refused { line, cause }) => refused(alloc, line, cause),
        Err(WorldError::NoMemory) => Err(NoMemory),
    }
}

/// What is due to `bound` and the bytes of a script.
fn bound_script(alloc: Global, bytes: &[u8]) -> Result<DueText, NoMemory>
    requires few { length bytes.now ≤ script_bytes }
    ensures { IfOk result (λ due. DueTo (words_of Command.Bound) bytes.now due.status due.text None) }
{
    match read_world(alloc, bytes) {
        Ok(world) => bounds(alloc, &world),
        Err(WorldError::Refused { line, cause }) => refused(alloc, line, cause),
        Err(WorldError::NoMemory) => Err(NoMemory),
    }
}

/// What is due to `json` and the bytes of a script.
fn json_script(alloc: Global, bytes: &[u8]) -> Result<DueText, NoMemory>
    requires few { length bytes.now ≤ script_bytes }
    ensures { IfOk result (λ due. DueTo (words_of Command.Json) bytes.now due.status due.text None) }
{
    match read_world(alloc, bytes) {
        Ok(world) => json(alloc, &world),
        Err(WorldError::Refused { line, cause }) => refused(alloc, line, cause),
        Err(WorldError::NoMemory) => Err(NoMemory),
    }
}

/// What is due to `unjson` and the bytes of a JSON text.
fn unjson(alloc: Global, bytes: &[u8]) -> Result<DueText, NoMemory>
    ensures { IfOk result (λ due. DueTo (words_of Command.Unjson) bytes.now due.status due.text None) }
{
    match read_json(alloc, bytes) {
        Ok(world) => {
            let _limit = world.limit(); // so that the check knows that it is a world
            script(alloc, &world)
        }
        Err(JsonError::BadJson) => bad_json(alloc),
        Err(JsonError::NoMemory) => Err(NoMemory),
    }
}

/// What is due to `check` and the bytes of a record. The record is followed step by step on a plain kernel; where that
/// finds a difference, it is read.
fn check_record(alloc: Global, bytes: &[u8]) -> Result<DueText, NoMemory>
    requires few { length bytes.now ≤ record_bytes }
    ensures { IfOk result (λ due. DueTo (words_of Command.Check) bytes.now due.status due.text None) }
{
    match Reader::open(alloc, bytes) {
        Ok((world, reader)) => {
            let kernel = Plain::new(alloc, &world)?;
            match follow(alloc, &world, reader, kernel)? {
                Some(_end) => told(alloc, status::DONE, Verdict::Legal),
                None => check_read(alloc, bytes),
            }
        }
        Err(RecordError::Refused { line, cause }) => refused(alloc, line, cause),
        Err(RecordError::NoMemory) => Err(NoMemory),
    }
}

/// What is due to `check` and the bytes of a record, which is read and then checked.
fn check_read(alloc: Global, bytes: &[u8]) -> Result<DueText, NoMemory>
    requires few { length bytes.now ≤ record_bytes }
    ensures { IfOk result (λ due. DueTo (words_of Command.Check) bytes.now due.status due.text None) }
{
    match read_record(alloc, bytes) {
        Ok(audit) => verdict(alloc, &audit),
        Err(RecordError::Refused { line, cause }) => refused(alloc, line, cause),
        Err(RecordError::NoMemory) => Err(NoMemory),
    }
}

/// What is due to `confine` and the bytes of a record. The record is followed step by step on a plain kernel; where that
/// finds a difference, it is read.
fn confine_record(alloc: Global, bytes: &[u8]) -> Result<DueText, NoMemory>
    requires few { length bytes.now ≤ record_bytes }
    ensures { IfOk result (λ due. DueTo (words_of Command.Confine) bytes.now due.status due.text None) }
{
    match Reader::open(alloc, bytes) {
        Ok((world, reader)) => {
            match follow_changes(alloc, &world, reader)? {
                Some(due) => Ok(due),
                None => confine_read(alloc, bytes),
            }
        }
        Err(RecordError::Refused { line, cause }) => refused(alloc, line, cause),
        Err(RecordError::NoMemory) => Err(NoMemory),
    }
}

/// What is due to `confine` and the bytes of a record, which is read and then checked.
fn confine_read(alloc: Global, bytes: &[u8]) -> Result<DueText, NoMemory>
    requires few { length bytes.now ≤ record_bytes }
    ensures { IfOk result (λ due. DueTo (words_of Command.Confine) bytes.now due.status due.text None) }
{
    match read_record(alloc, bytes) {
        Ok(audit) => confined(alloc, &audit),
        Err(RecordError::Refused { line, cause }) => refused(alloc, line, cause),
        Err(RecordError::NoMemory) => Err(NoMemory),
    }
}

/// What is due to `trace` with the number of a line, and the bytes of a record. The record is followed step by
/// step on a plain kernel; where that finds a difference, it is read.
fn trace_record(alloc: Global, bytes: &[u8], line: u32) -> Result<DueText, NoMemory>
    requires few { length bytes.now ≤ record_bytes }
    requires line { MayTrace line }
    ensures { IfOk result (λ due. DueTo (words_of (Command.Trace line)) bytes.now due.status due.text None) }
{
    match Reader::open(alloc, bytes) {
        Ok((world, reader)) => {
            let kernel = Plain::new(alloc, &world)?;
            match follow_lines(alloc, &world, reader, kernel)? {
                Some(lines) => chains(alloc, &world, lines.as_slice(), line),
                None => trace_read(alloc, bytes, line),
            }
        }
        Err(RecordError::Refused { line, cause }) => refused(alloc, line, cause),
        Err(RecordError::NoMemory) => Err(NoMemory),
    }
}

/// What is due to `trace` with the number of a line, and the bytes of a record, which is read and then checked.
fn trace_read(alloc: Global, bytes: &[u8], line: u32) -> Result<DueText, NoMemory>
    requires few { length bytes.now ≤ record_bytes }
    requires line { MayTrace line }
    ensures { IfOk result (λ due. DueTo (words_of (Command.Trace line)) bytes.now due.status due.text None) }
{
    match read_record(alloc, bytes) {
        Ok(audit) => traced(alloc, &audit, line),
        Err(RecordError::Refused { line, cause }) => refused(alloc, line, cause),
        Err(RecordError::NoMemory) => Err(NoMemory),
    }
}

/// What is due to `back` with a number of lines, and the bytes of a record.
fn back_record(alloc: Global, bytes: &[u8], count: u32) -> Result<DueText, NoMemory>
    requires few { length bytes.now ≤ record_bytes }
    requires count { MayTakeBack count }
    ensures { IfOk result (λ due. DueTo (words_of (Command.Back count)) bytes.now due.status due.text None) }
{
    match read_record(alloc, bytes) {
        Ok(audit) => taken_back(alloc, &audit, count),
        Err(RecordError::Refused { line, cause }) => refused(alloc, line, cause),
        Err(RecordError::NoMemory) => Err(NoMemory),
    }
}

/// What is due to bytes that are refused: the line and the cause. NoMemory is want of memory.
pub(crate) fn refused(alloc: Global, line: u32, cause: Cause) -> Result<DueText, NoMemory>
    ensures { IfOk result (λ due. (due.status ≡ 3) × (due.text ≡ refusal_text line (cause_name cause))) }
{
    Ok(DueText {
        status: status::REFUSED,
        text: refusal_text(alloc, line, cause)?,
    })
}

/// What is due to bytes that are the JSON of no world.
#[tactic(auto, using(crate::proofs::AnswerLemmas::bad_json_is))]
fn bad_json(alloc: Global) -> Result<DueText, NoMemory>
    ensures { IfOk result (λ due. (due.status ≡ 3) × (due.text ≡ bad_json_text)) }
{
    Ok(DueText {
        status: status::REFUSED,
        text: Text::from_str(alloc, "line 0: BadJson\n")?,
    })
}

/// The record of lines that are steps of a world, of which the laws of protection hold. NoMemory is
/// want of memory.
pub(crate) fn record(
    alloc: Global,
    world: &World,
    lines: &[Line],
    end: End,
) -> Result<DueText, NoMemory>
    requires { AreStepsOf world.now lines.now }
    ensures { IfOk result (λ due. IsRecord world.now lines.now end due.status due.text) }
{
    laws(world, lines);
    steps_have_texts(world, lines);
    Ok(DueText {
        status: status::of_run(end),
        text: record_text(alloc, world, lines, end)?,
    })
}

/// What is due to `show` and a world: its canonical script.
fn script(alloc: Global, world: &World) -> Result<DueText, NoMemory>
    ensures { IfOk result (λ due. (due.status ≡ 0) × (due.text ≡ canon world.now)) }
{
    Ok(DueText {
        status: status::DONE,
        text: script_text(alloc, world)?,
    })
}

/// What is due to `json` and a world: its JSON, on one line.
fn json(alloc: Global, world: &World) -> Result<DueText, NoMemory>
    ensures { IfOk result (λ due. (due.status ≡ 0) × (due.text ≡ ended_line (compact_text (value world.now)))) }
{
    let json = json_text(alloc, world)?;
    let mut text = String::with_capacity(alloc, json.as_bytes().len() + 1)?;
    text.push_str(json.as_str())?;
    text.push_str("\n")?;
    Ok(DueText {
        status: status::DONE,
        text: Text::from_string(text)?,
    })
}

/// What is due to `bound` and a world: the bounds of its processes.
fn bounds(alloc: Global, world: &World) -> Result<DueText, NoMemory>
    ensures { IfOk result (λ due. AreTold world.now due.status due.text) }
{
    let bounds = bound(alloc, world)?;
    Ok(DueText {
        status: status::DONE,
        text: bounds_text(alloc, bounds.as_slice())?,
    })
}

/// What is due to `check` and a record: the verdict on it.
fn verdict(alloc: Global, audit: &Audit) -> Result<DueText, NoMemory>
    ensures { IfOk result (λ due. IsChecked audit.now TellsLegal due.status due.text) }
{
    let world = audit.world();
    let lines = audit.lines();
    let verdict = check(alloc, world, lines, audit.end())?;
    match verdict {
        Verdict::Legal => {
            laws(world, lines);
            told(alloc, status::DONE, verdict)
        }
        Verdict::Illegal { .. } => told(alloc, status::ILLEGAL, verdict),
    }
}

/// What is due to `trace` with the number of a line, and a record: the chains of what the line used, or
/// the verdict where the record is not legal.
fn traced(alloc: Global, audit: &Audit, line: u32) -> Result<DueText, NoMemory>
    ensures { IfOk result (λ due. IsChecked audit.now (TellsChains line) due.status due.text) }
{
    let world = audit.world();
    let lines = audit.lines();
    let found = check(alloc, world, lines, audit.end())?;
    match found {
        Verdict::Legal => {
            laws(world, lines);
            chains(alloc, world, lines, line)
        }
        Verdict::Illegal { .. } => told(alloc, status::ILLEGAL, found),
    }
}

/// The chains of what a line used, as a text.
fn chains(alloc: Global, world: &World, lines: &[Line], line: u32) -> Result<DueText, NoMemory>
    requires { AreStepsOf world.now lines.now }
    ensures { IfOk result (λ due. (due.status ≡ 0) × TellsChains line world.now lines.now due.text) }
{
    let chains = trace(alloc, world, lines, line)?;
    Ok(DueText {
        status: status::DONE,
        text: chains_text(alloc, lines, chains.as_slice())?,
    })
}

/// What is due to `confine` and a record: its changes under confined calls, each with its reason, or the
/// verdict where the record is not legal.
fn confined(alloc: Global, audit: &Audit) -> Result<DueText, NoMemory>
    ensures { IfOk result (λ due. IsChecked audit.now TellsChanges due.status due.text) }
{
    let world = audit.world();
    let lines = audit.lines();
    let found = check(alloc, world, lines, audit.end())?;
    match found {
        Verdict::Legal => {
            laws(world, lines);
            changes(alloc, world, lines)
        }
        Verdict::Illegal { .. } => told(alloc, status::ILLEGAL, found),
    }
}

/// The changes under confined calls, as a text.
fn changes(alloc: Global, world: &World, lines: &[Line]) -> Result<DueText, NoMemory>
    requires { AreStepsOf world.now lines.now }
    ensures { IfOk result (λ due. (due.status ≡ 0) × TellsChanges world.now lines.now due.text) }
{
    Ok(DueText {
        status: status::DONE,
        text: report_text(alloc, world, lines)?,
    })
}

/// What is due to `confine` and a legal record, whose world and reader these are: the record is followed step by step on
/// a plain kernel, and each line told as it comes. None where that finds a difference.
fn follow_changes(
    alloc: Global,
    world: &World,
    reader: Reader<'_>,
) -> Result<Option<DueText>, NoMemory>
    ensures { IfOk result (λ found. IfSome found (λ due. AreDue world.now reader.entry due)) }
{
    match follow_told(alloc, world, reader)? {
        Some(told) => {
            let due = changes_told(alloc, world, told)?;
            Ok(Some(due))
        }
        None => Ok(None),
    }
}

/// The changes under confined calls of lines that were told as they came, as a text.
fn changes_told(alloc: Global, world: &World, told: Retelling) -> Result<DueText, NoMemory>
    requires { (lines : List Line) × IsRetold world.now lines told }
    ensures { IfOk result (λ due. (due.status ≡ 0) × ((lines : List Line) → IsRetold world.now lines told → TellsChanges world.now lines due.text)) }
{
    let _limit = world.limit(); // so that the check knows that it is a world
    Ok(DueText {
        status: status::DONE,
        text: told.text(alloc)?,
    })
}

/// What is due to `back` with a number of lines, and a record: the state before its last lines, so many, or
/// the verdict where the record is not legal.
fn taken_back(alloc: Global, audit: &Audit, count: u32) -> Result<DueText, NoMemory>
    ensures { IfOk result (λ due. IsChecked audit.now (TellsState count) due.status due.text) }
{
    let mut past = Past::begin(alloc, audit.world().copy(alloc)?)?;
    state_left(alloc, audit, &mut past, count)
}

/// The same, by a past of the record's world that has no line: the lines of the record are made once more, and the last are
/// taken back.
fn state_left(
    alloc: Global,
    audit: &Audit,
    past: &mut Past,
    count: u32,
) -> Result<DueText, NoMemory>
    requires { past.old ≡ record { world = audit.now.world; lines = [] } }
    ensures { IfOk result (λ due. IsChecked audit.now (TellsState count) due.status due.text) }
{
    let world = audit.world();
    let lines = audit.lines();
    let end = audit.end();
    let _limit = world.limit(); // so that the check knows that it is a world
    if makes_again(alloc, past, lines, end)? {
        laws(world, lines);
        return Ok(DueText {
            status: status::DONE,
            text: text_before(alloc, past, count)?,
        });
    }
    let found = check(alloc, world, lines, end)?;
    told(alloc, status::ILLEGAL, found)
}

/// A verdict as a text, with its status.
fn told(alloc: Global, status: u8, verdict: Verdict) -> Result<DueText, NoMemory>
    ensures { IfOk result (λ due. (due.status ≡ status) × (due.text ≡ verdict_text verdict)) }
{
    Ok(DueText {
        status,
        text: verdict_text(alloc, verdict)?,
    })
}
