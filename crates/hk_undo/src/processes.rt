//! Incarnations and processes as lines of a state (`docs/FORMATS.md`, "The text of a state").

ghost use Rattle.std.specs.Prelude.{◌≡◌, ◌++◌, OnOk, string_bytes};
ghost use Rattle.std.specs.List.{flat_map};
ghost use Rattle.hk_undo.specs.StateTexts.{beginning, incarnation_line, incarnation_lines, process_lines, run_text};

use crate::places::write_places;
use hk_model::{Live, NoMemory, ProcessState};

/// Writes how an incarnation began.
fn write_beginning(out: &mut String, live: &Live) -> Result<(), NoMemory>
    ensures { OnOk result (string_bytes out.new ≡ string_bytes out.old ++ beginning live.now live.now.caller live.now.procedure) }
{
    let (Some(caller), Some(procedure)) = (live.caller, live.procedure) else {
        out.push_str("base")?;
        return Ok(());
    };
    let (caller, into, procedure) = (caller.0, live.into.0, procedure.0);
    write!(out, "by {caller} into {into} of {procedure}")?;
    out.push_str(if live.confined { " confined" } else { " open" })?;
    Ok(())
}

/// Writes the first line of an incarnation.
#[tactic(auto, unfolding(crate::specs::StateTexts::incarnation_line))]
fn write_line(out: &mut String, live: &Live) -> Result<(), NoMemory>
    ensures { OnOk result (string_bytes out.new ≡ string_bytes out.old ++ incarnation_line live.now) }
{
    let (inc, proc) = (live.inc.0, live.proc.0);
    write!(out, "incarnation {inc} {proc} ")?;
    write_beginning(out, live)?;
    out.push_str("\n")?;
    Ok(())
}

/// Writes the lines of an incarnation.
#[tactic(auto, unfolding(crate::specs::StateTexts::incarnation_lines))]
fn write_incarnation(out: &mut String, live: &Live) -> Result<(), NoMemory>
    ensures { OnOk result (string_bytes out.new ≡ string_bytes out.old ++ incarnation_lines live.now) }
{
    write_line(out, live)?;
    write_places(out, "slot ", live.slots.as_slice())
}

/// Writes the lines of all incarnations.
pub(crate) fn write_incarnations(out: &mut String, incarnations: &[Live]) -> Result<(), NoMemory>
    ensures { OnOk result (string_bytes out.new ≡ string_bytes out.old ++ flat_map incarnation_lines incarnations.now) }
{
    for live in incarnations {
        write_incarnation(out, live)?;
    }
    Ok(())
}

/// Writes what a process does.
fn write_run(out: &mut String, run: ProcessState) -> Result<(), NoMemory>
    ensures { OnOk result (string_bytes out.new ≡ string_bytes out.old ++ run_text run) }
{
    match run {
        ProcessState::Ready => out.push_str("ready")?,
        ProcessState::Running(cpu) => {
            let cpu = cpu.0;
            write!(out, "running {cpu}")?;
        }
        ProcessState::Waiting(at) => {
            let at = at.0;
            write!(out, "waiting {at}")?;
        }
        ProcessState::Ended => out.push_str("ended")?,
    }
    Ok(())
}

/// Writes the lines of all processes.
pub(crate) fn write_processes(out: &mut String, runs: &[ProcessState]) -> Result<(), NoMemory>
    ensures { OnOk result (string_bytes out.new ≡ string_bytes out.old ++ process_lines 0 runs.now) }
{
    for (number, run) in runs.iter().enumerate() {
        write!(out, "process {number} ")?;
        write_run(out, *run)?;
        out.push_str("\n")?;
    }
    Ok(())
}
