//! The list of changes as text (`docs/FORMATS.md`, "Statuses and outputs").

ghost use Rattle.std.specs.Prelude.{◌≡◌, ◌++◌, IfOk, OnOk, codes, string_bytes};
ghost use Rattle.std.specs.Fmt.{decimal};
ghost use Rattle.std.specs.List.{flat_map};
ghost use Rattle.hk_format.specs.Texts.{ended_line};
ghost use Rattle.hk_report.specs.ChangeTexts.{hop_text, reach_text, change_text, changes_text};

use hk_model::{Change, Hop, NoMemory, Reach, Text};
use hk_print::{write_next_number, write_number};
use std::alloc::Global;

/// A line `LINE C OBJECT made` or `LINE C OBJECT param I` for each change, with ` entry INDEX MOMENT`
/// or ` handed INDEX MOMENT` for each hop behind it; and last `changes COUNT` with the number of
/// changes. NoMemory is want of memory.
pub fn changes_text(alloc: Global, changes: &[Change]) -> Result<Text, NoMemory>
    ensures { IfOk result (λ text. text ≡ changes_text changes.now) }
{
    let mut out = String::new(alloc);
    for change in changes {
        write_change(&mut out, change)?;
    }
    write_count(&mut out, changes.len())?;
    Ok(Text::from_string(out)?)
}

/// Writes the line that tells how many changes there are.
pub(crate) fn write_count(out: &mut String, count: usize) -> Result<(), NoMemory>
    ensures { OnOk result (string_bytes out.new ≡ string_bytes out.old ++ ended_line (codes "changes " ++ decimal count)) }
{
    write!(out, "changes {count}\n")?;
    Ok(())
}

/// Writes the line of a change.
pub(crate) fn write_change(out: &mut String, change: &Change) -> Result<(), NoMemory>
    ensures { OnOk result (string_bytes out.new ≡ string_bytes out.old ++ change_text change.now) }
{
    write_number(out, change.line as u64)?;
    write_next_number(out, change.under.0)?;
    write_next_number(out, change.object.0)?;
    out.push(' ')?;
    write_reach(out, &change.reach)?;
    out.push('\n')?;
    Ok(())
}

/// Writes why a call may change an object.
fn write_reach(out: &mut String, reach: &Reach) -> Result<(), NoMemory>
    ensures { OnOk result (string_bytes out.new ≡ string_bytes out.old ++ reach_text reach.now) }
{
    match reach {
        Reach::Made => {
            out.push_str("made")?;
            Ok(())
        }
        Reach::Param { arg, hops } => {
            out.push_str("param ")?;
            write_number(out, *arg as u64)?;
            write_hops(out, hops.as_slice())
        }
    }
}

/// Writes hops, each behind a blank.
fn write_hops(out: &mut String, hops: &[Hop]) -> Result<(), NoMemory>
    ensures { OnOk result (string_bytes out.new ≡ string_bytes out.old ++ flat_map hop_text hops.now) }
{
    for hop in hops {
        write_hop(out, *hop)?;
    }
    Ok(())
}

/// Writes a hop behind a blank.
fn write_hop(out: &mut String, hop: Hop) -> Result<(), NoMemory>
    ensures { OnOk result (string_bytes out.new ≡ string_bytes out.old ++ hop_text hop) }
{
    match hop {
        Hop::Entry { index, moment } => {
            out.push_str(" entry ")?;
            write_number(out, index as u64)?;
            write_next_number(out, moment as u64)
        }
        Hop::Handed { index, moment } => {
            out.push_str(" handed ")?;
            write_number(out, index as u64)?;
            write_next_number(out, moment as u64)
        }
    }
}
