//! The text of an audit line (`docs/FORMATS.md`, "Audit lines and records").

ghost use Rattle.std.specs.Prelude.{◌≡◌, ◌++◌, ◌∷◌, [], All, IfOk, OnOk, codes, string_bytes};
ghost use Rattle.std.specs.Fmt.{decimal};
ghost use Rattle.hk_format.specs.LineRanges.{IsLine, IsWhat};
ghost use Rattle.hk_format.specs.AuditLines.{line_text, reply_pieces, what_pieces};
ghost use Rattle.hk_format.specs.Records.{lines_text};
ghost use Rattle.hk_format.specs.Texts.{spell_line};

use crate::calls::write_call;
use crate::refusals::write_refusal;
use hk_model::{Line, NoMemory, Reply, Text, What};
use hk_print::{write_next_number, write_number, write_word};
use std::alloc::Global;

/// The text of a line, with its line feed. The only error is want of memory.
pub fn line_text(alloc: Global, line: &Line) -> Result<Text, NoMemory>
    requires { IsLine line.now }
    ensures { IfOk result (λ text. text ≡ line_text line.now) }
{
    let mut out = String::new(alloc);
    write_line(&mut out, line)?;
    Ok(Text::from_string(out)?)
}

/// Writes the text of each line.
pub(crate) fn write_lines(out: &mut String, lines: &[Line]) -> Result<(), NoMemory>
    requires { All IsLine lines.now }
    ensures { OnOk result (string_bytes out.new ≡ string_bytes out.old ++ lines_text lines.now) }
{
    for line in lines {
        write_line(out, line)?;
    }
    Ok(())
}

/// Writes the text of a line.
pub(crate) fn write_line(out: &mut String, line: &Line) -> Result<(), NoMemory>
    requires { IsLine line.now }
    ensures { OnOk result (string_bytes out.new ≡ string_bytes out.old ++ line_text line.now) }
{
    write_actor(out, line)?;
    write_what(out, &line.what)?;
    write_ending(out, &line.reply)?;
    Ok(())
}

/// Writes an arrow, a reply and a line feed.
#[inline(always)]
fn write_ending(out: &mut String, reply: &Reply) -> Result<(), NoMemory>
    ensures { OnOk result (string_bytes out.new ≡ string_bytes out.old ++ (codes " -> " ++ (spell_line (reply_pieces reply.now) ++ 10 ∷ []))) }
{
    match reply {
        Reply::Done => out.push_str(" -> done\n")?,
        Reply::Waits => out.push_str(" -> waits\n")?,
        Reply::Word(word) => {
            out.push_str(" -> word")?;
            write_next_number(out, u64::from(*word))?;
            out.push('\n')?;
        }
        Reply::No(refusal) => {
            out.push_str(" -> ")?;
            write_refusal(out, refusal)?;
            out.push('\n')?;
        }
    }
    Ok(())
}

/// Writes the numbers of the processor, the process and the incarnation, a space behind each.
fn write_actor(out: &mut String, line: &Line) -> Result<(), NoMemory>
    ensures { OnOk result (string_bytes out.new ≡ string_bytes out.old ++ (decimal line.now.cpu.0 ++ 32 ∷ (decimal line.now.proc.0 ++ 32 ∷ (decimal line.now.inc.0 ++ 32 ∷ [])))) }
{
    write_number(out, line.cpu.0 as u64)?;
    write_next_number(out, line.proc.0 as u64)?;
    write_next_number(out, line.inc.0)?;
    out.push(' ')?;
    Ok(())
}

/// Writes what happened.
fn write_what(out: &mut String, what: &What) -> Result<(), NoMemory>
    requires { IsWhat what.now }
    ensures { OnOk result (string_bytes out.new ≡ string_bytes out.old ++ spell_line (what_pieces what.now)) }
{
    match what {
        What::Dispatch => write_word(out, "dispatch"),
        What::Call(call) => write_call(out, call),
        What::Halt => write_word(out, "halt"),
    }
}
