//! Chains as text (`docs/FORMATS.md`, "Statuses and outputs").

ghost use Rattle.std.specs.Prelude.{◌≡◌, ◌++◌, IfOk, OnOk, string_bytes};
ghost use Rattle.std.specs.List.{flat_map};
ghost use Rattle.hk_format.specs.Texts.{ended_line};
ghost use Rattle.hk_trace.specs.ChainTexts.{chain_text, chains_text, link_text, origin_text, place_text, standing_text, word_at, word_of};

use crate::chains::{Chain, Link, Origin, Place, Standing};
use hk_model::{Call, Line, NoMemory, Text, What};
use hk_print::{ByNumber, write_entry};
use std::alloc::Global;

/// For each chain a line `step K PLACE CONTENT`, a line `LINE WORD PLACE CONTENT` for each link from
/// the latest back, and `opening` or `made LINE`; and last `steps COUNT` with the number of chains.
/// `lines` are those of the history that was traced. NoMemory is want of memory.
pub fn chains_text(alloc: Global, lines: &[Line], chains: &[Chain]) -> Result<Text, NoMemory>
    ensures { IfOk result (λ text. text ≡ chains_text lines.now chains.now) }
{
    let mut out = String::new(alloc);
    for chain in chains {
        write_chain(&mut out, lines, chain)?;
    }
    let count = chains.len();
    write!(&mut out, "steps {count}\n")?;
    Ok(Text::from_string(out)?)
}

/// Writes the lines of a chain.
fn write_chain(out: &mut String, lines: &[Line], chain: &Chain) -> Result<(), NoMemory>
    ensures { OnOk result (string_bytes out.new ≡ string_bytes out.old ++ chain_text lines.now chain.now) }
{
    let step = chain.step;
    write!(out, "step {step} ")?;
    write_standing(out, chain.at)?;
    out.push_str("\n")?;
    write_links(out, lines, chain.links.as_slice())?;
    write_origin(out, chain.origin)
}

/// Writes the lines of the links of a chain.
fn write_links(out: &mut String, lines: &[Line], links: &[Link]) -> Result<(), NoMemory>
    ensures { OnOk result (string_bytes out.new ≡ string_bytes out.old ++ flat_map (link_text lines.now) links.now) }
{
    for link in links {
        write_link(out, lines, *link)?;
    }
    Ok(())
}

/// Writes the line of a link.
fn write_link(out: &mut String, lines: &[Line], link: Link) -> Result<(), NoMemory>
    ensures { OnOk result (string_bytes out.new ≡ string_bytes out.old ++ link_text lines.now link) }
{
    let line = link.line;
    let word = word_at(lines, line);
    write!(out, "{line} {word} ")?;
    write_standing(out, link.from)?;
    out.push_str("\n")?;
    Ok(())
}

/// Writes a place and what stands there.
fn write_standing(out: &mut String, at: Standing) -> Result<(), NoMemory>
    ensures { OnOk result (string_bytes out.new ≡ string_bytes out.old ++ standing_text at) }
{
    write_place(out, at.place)?;
    out.push_str(" ")?;
    write_entry(out, &ByNumber, at.entry)
}

/// Writes a place.
fn write_place(out: &mut String, place: Place) -> Result<(), NoMemory>
    ensures { OnOk result (string_bytes out.new ≡ string_bytes out.old ++ place_text place) }
{
    match place {
        Place::SlotOf { inc, slot } => {
            let (inc, slot) = (inc.0, slot.0);
            write!(out, "slot {inc} {slot}")?;
        }
        Place::EntryOf { name, index } => {
            let name = name.0;
            write!(out, "entry {name} {index}")?;
        }
    }
    Ok(())
}

/// Writes the line that tells where a chain ends.
fn write_origin(out: &mut String, origin: Origin) -> Result<(), NoMemory>
    ensures { OnOk result (string_bytes out.new ≡ string_bytes out.old ++ ended_line (origin_text origin)) }
{
    match origin {
        Origin::Opening => out.push_str("opening\n")?,
        Origin::Made(line) => write!(out, "made {line}\n")?,
    }
    Ok(())
}

/// The first word of what the line of a number tells, counted from 1; none of a line that is not there.
fn word_at(lines: &[Line], number: u32) -> &'static str
    ensures { result.now ≡ word_at lines.now number }
{
    match lines.get((number as usize).saturating_sub(1)) {
        Some(line) => word_of(&line.what),
        None => "",
    }
}

/// The first word of what a line tells.
fn word_of(what: &What) -> &'static str
    ensures { result.now ≡ word_of what.now }
{
    match what {
        What::Dispatch => "dispatch",
        What::Call(call) => word_of_call(call),
        What::Halt => "halt",
    }
}

/// The word of a call.
fn word_of_call(call: &Call) -> &'static str
    ensures { result.now ≡ word_of (What.Call call.now) }
{
    match call {
        Call::Get { .. } => "getdata",
        Call::Put { .. } => "putdata",
        Call::Add { .. } => "adddata",
        Call::Length { .. } => "length",
        Call::Load { .. } => "load",
        Call::Store { .. } => "store",
        Call::Append { .. } => "append",
        Call::Erase { .. } => "erase",
        Call::Drop { .. } => "drop",
        Call::Restrict { .. } => "restrict",
        Call::Look { .. } => "look",
        Call::MakeTemplate { .. } => "template",
        Call::Create { .. } => "create",
        Call::Merge { .. } => "merge",
        Call::Copy { .. } => "copy",
        Call::Enter { .. } => "call",
        Call::Leave { .. } => "return",
        Call::P { .. } => "p",
        Call::V { .. } => "v",
        Call::Yield => "yield",
    }
}
