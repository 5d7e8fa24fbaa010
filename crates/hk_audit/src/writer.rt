//! The text of a record, written as its lines come (`docs/FORMATS.md`, "Audit lines and records").

ghost use Rattle.std.specs.Prelude.{◌≡◌, ◌++◌, ◌∷◌, [], List, IfOk, OnOk, string_bytes};
ghost use Rattle.hk_model.specs.declared.lines.Line.{Line};
ghost use Rattle.hk_format.specs.AuditLines.{line_text};
ghost use Rattle.hk_format.specs.LineRanges.{IsLine};
ghost use Rattle.hk_format.specs.Records.{record_text, end_text};
ghost use Rattle.hk_model.specs.WorldValue.{WorldValue};
ghost use Rattle.hk_format.specs.Texts.{ended_line};
ghost use Rattle.hk_audit.specs.Begun.{begun};

use crate::lines::write_line;
use crate::records::end_line;
use hk_model::{End, Line, NoMemory, Text, World};
use hk_print::script_text;
use std::alloc::Global;
use std::marker::Model;

/// A record whose further lines and end line are still to come (`docs/FORMATS.md`, "Audit lines and
/// records"). Contracts see its bytes so far.
#[derive(Drop)]
pub struct Writer {
    out: String,
}

impl Model for Writer {
    ghost use Rattle.std.specs.Prelude.{List, ℕ, string_bytes};

    ghost Value = { List ℕ };

    ghost view = { λ a. string_bytes a.out };
}

impl Writer {
    /// The record of a world as it begins: the canonical script and the line `record`. NoMemory is want
    /// of memory.
    pub fn new(alloc: Global, world: &World) -> Result<Writer, NoMemory>
        ensures { IfOk result (λ writer. writer ≡ begun world.now []) }
    {
        let script = script_text(alloc, world)?;
        let mut out = String::from_str(alloc, script.as_str())?;
        out.push_str("record\n")?;
        Ok(Writer { out })
    }

    /// Writes the next line: where the bytes so far are those of some lines, they are now those of one
    /// line more. NoMemory is want of memory.
    #[tactic(auto, using(crate::proofs::Begun::begun_more))]
    pub fn add(&mut self, line: &Line) -> Result<(), NoMemory>
        requires { IsLine line.now }
        ensures { OnOk result ((w : WorldValue) → (lines : List Line) → self.old ≡ begun w lines → self.new ≡ begun w (lines ++ line.now ∷ [])) }
    {
        write_line(&mut self.out, line)
    }

    /// The whole record, with its end line behind the lines so far. NoMemory is want of memory.
    #[tactic(auto, using(crate::proofs::Begun::begun_whole))]
    pub fn finish(self, end: End) -> Result<Text, NoMemory>
        ensures { IfOk result (λ text. (w : WorldValue) → (lines : List Line) → self ≡ begun w lines → text ≡ record_text w lines end) }
    {
        let mut out = self.out;
        out.push_str(end_line(end))?;
        let text = Text::from_string(out)?;
        Ok(text)
    }
}
