//! The text of a record (`docs/FORMATS.md`, "Audit lines and records").

ghost use Rattle.std.specs.Prelude.{◌≡◌, All, IfOk};
ghost use Rattle.hk_format.specs.LineRanges.{IsLine};
ghost use Rattle.hk_format.specs.Records.{record_text, end_text};
ghost use Rattle.hk_format.specs.Texts.{ended_line};

use crate::lines::write_lines;
use hk_model::{End, Line, NoMemory, Text, World};
use hk_print::script_text;
use std::alloc::Global;

/// The text of a record: the canonical script of the world, the line `record`, the text of each
/// line, and the end line. The only error is want of memory.
#[tactic(auto, unfolding(hk_format::specs::Records::record_text))]
pub fn record_text(alloc: Global, world: &World, lines: &[Line], end: End) -> Result<Text, NoMemory>
    requires { All IsLine lines.now }
    ensures { IfOk result (λ text. text ≡ record_text world.now lines.now end) }
{
    let script = script_text(alloc, world)?;
    let mut out = String::from_str(alloc, script.as_str())?;
    out.push_str("record\n")?;
    write_lines(&mut out, lines)?;
    out.push_str(end_line(end))?;
    Ok(Text::from_string(out)?)
}

/// The last line, with its line feed.
pub(crate) fn end_line(end: End) -> &'static str
    ensures { result.now ≡ ended_line (end_text end) }
{
    match end {
        End::Done => "end done\n",
        End::Stuck => "end stuck\n",
        End::Limit => "end limit\n",
    }
}
