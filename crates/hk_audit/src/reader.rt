//! A record, read as its lines are told (`docs/FORMATS.md`, "Audit lines and records").

ghost use Rattle.std.specs.Prelude.{◌≡◌, ◌≢◌, ◌<◌, ◌-◌, ◌^◌, ◌+◌, ◌++◌, ◌∷◌, [], true, false, ℕ, List, Some, Ok, Err, Decides, IfOk, IfSome, IfNone, OnErr, length};
ghost use Rattle.hk_model.specs.declared.lines.Line.{Line};
ghost use Rattle.hk_model.specs.WorldValue.{WorldValue};
ghost use Rattle.hk_format.specs.declared.causes.Cause.{Cause};
ghost use Rattle.hk_format.specs.declared.causes.Cause.TheVariants.{OfParse};
ghost use Rattle.hk_format.specs.declared.causes.ParseCause.TheVariants as parse_cause;
ghost use Rattle.hk_format.specs.AuditLines.{line_text};
ghost use Rattle.hk_format.specs.LineRanges.{IsLine};
ghost use Rattle.hk_format.specs.Outcomes.{IsRefused};
ghost use Rattle.hk_format.specs.Records.{end_text};
ghost use Rattle.hk_format.specs.Texts.{ended_line, lines_of};
ghost use Rattle.hk_format.specs.Audits.{audit, audited, events, events_behind, events_from};
ghost use Rattle.hk_audit.specs.Followed.{IsReadTo, cpu_by, digit_at};
ghost use Rattle.hk_audit.specs.RecordCuts.{behind_first, texts_of};

use crate::audits::RecordError;
use crate::fronts::behind_line;
use crate::lines::write_line;
use crate::reading::behind;
use crate::records::end_line;
use crate::scripts::{line_count, script_length};
use hk_format::{Cause, ParseCause};
use hk_load::read_world;
use hk_model::{Cpu, End, Line, NoMemory, World};
use hk_text::first_of;
use std::alloc::Global;
use std::marker::Model;

/// The lines and the end line of a record, of which some are still to be read (`docs/FORMATS.md`,
/// "Audit lines and records"). Contracts see the bytes that are left. It looks at bytes once, and
/// keeps no line.
#[derive(Drop)]
pub struct Reader<'a> {
    left: &'a [u8],
    // The text of a line that was made, where looking at it piece by piece told nothing.
    text: String,
}

impl<'a> Model for Reader<'a> {
    ghost use Rattle.std.specs.Prelude.{List, ℕ};

    ghost Value = { List ℕ };

    ghost view = { λ a. a.left.now };
}

impl<'a> Reader<'a> {
    /// The world of a record, and the reader of what stands behind its script. `Refused` tells the line
    /// and the cause where the script is refused or the line `record` is missing; what stands behind that
    /// line is not looked at. Want of memory is `NoMemory`. The bytes are to have fewer than 2^32 - 1
    /// lines, so that each, and the line after the last, has a number.
    pub fn open(alloc: Global, bytes: &'a [u8]) -> Result<(World, Reader<'a>), RecordError>
        requires { length (lines_of bytes.now) < 2 ^ 32 - 1 }
        ensures ok { IfOk result (λ opened. IsReadTo bytes.now opened.0 [] opened.1) }
        ensures refused { (line : ℕ) (cause : Cause) → IsRefused result line cause → audit bytes.now ≡ Err (line, cause) }
    {
        let (script, behind) = bytes.split_at(script_length(bytes));
        let world = read_world(alloc, script)?;
        match behind_record(behind) {
            Some(left) => {
                let text = String::new(alloc);
                Ok((world, Reader { left, text }))
            }
            None => Err(RecordError::Refused {
                line: line_count(script) + 1,
                cause: Cause::OfParse(ParseCause::Missing),
            }),
        }
    }

    /// The processor of the line that stands next: where what is left begins with the text of a line, it is that line's.
    /// It is found by the first two bytes, so whether a line stands there is still to be seen.
    #[tactic(auto, using(crate::proofs::ReadOn::cpu_found))]
    pub fn cpu(&self) -> Option<Cpu>
        ensures number { (line : Line) (rest : List ℕ) → IsLine line → self.now ≡ line_text line ++ rest → result ≡ Some line.cpu }
        ensures below { IfSome result (λ cpu. cpu.0 < 16) }
    {
        cpu_by(digit(self.left, 0), digit(self.left, 1))
    }

    /// Takes this line, if what is left begins with its text: then what stands behind the text is left, and
    /// the line is one more of those that were read. Otherwise it gives false, and nothing changes.
    /// NoMemory is want of memory; nothing changes then either.
    pub fn take(&mut self, line: &Line) -> Result<bool, NoMemory>
        requires { IsLine line.now }
        ensures taken { IfOk result (λ taken. taken ≡ true → self.old ≡ line_text line.now ++ self.new) }
        ensures reads { IfOk result (λ taken. taken ≡ true → (bytes : List ℕ) (w : WorldValue) (lines : List Line) → IsReadTo bytes w lines self.old
            → IsReadTo bytes w (lines ++ line.now ∷ []) self.new) }
        ensures other { IfOk result (λ taken. taken ≡ false → (rest : List ℕ) → self.old ≢ line_text line.now ++ rest) }
        ensures same { IfOk result (λ taken. taken ≡ false → self.new ≡ self.old) }
        ensures memory { OnErr result (self.new ≡ self.old) }
    {
        if let Some(left) = behind_line(self.left, line) {
            self.left = left;
            return Ok(true);
        }
        self.text.clear();
        write_line(&mut self.text, line)?;
        match behind(self.left, self.text.as_bytes()) {
            Some(left) => {
                self.left = left;
                Ok(true)
            }
            None => Ok(false),
        }
    }

    /// The end word, where nothing is left but the end line. None exactly where it is not so.
    pub fn end(&self) -> Option<End>
        ensures some { IfSome result (λ end. self.now ≡ ended_line (end_text end)) }
        ensures whole { IfSome result (λ end. (bytes : List ℕ) (w : WorldValue) (lines : List Line) → IsReadTo bytes w lines self.now → audit bytes ≡ Ok (audited w (events lines end))) }
        ensures none { IfNone result ((end : End) → self.now ≢ ended_line (end_text end)) }
    {
        if is_end_line(self.left, End::Done) {
            return Some(End::Done);
        }
        if is_end_line(self.left, End::Stuck) {
            return Some(End::Stuck);
        }
        if is_end_line(self.left, End::Limit) {
            return Some(End::Limit);
        }
        None
    }
}

/// The bytes behind the line `record`, with which the bytes begin; None where there are none, as that line is
/// missing. Where no line feed ends that line, none are left.
fn behind_record(bytes: &[u8]) -> Option<&[u8]>
    ensures some { IfSome result (λ left. (n : ℕ) → events_from (n + 1) (texts_of left.now) ≡ events_behind n (behind_first bytes.now)) }
    ensures none { IfNone result ((n : ℕ) → events_behind n (behind_first bytes.now) ≡ Err (n, OfParse parse_cause.Missing)) }
{
    if bytes.is_empty() {
        return None;
    }
    let start = first_of(bytes, b'\n') + 1;
    Some(&bytes[start.min(bytes.len())..])
}

/// A processor, by the two digits with which its line can begin.
fn cpu_by(first: Option<u8>, second: Option<u8>) -> Option<Cpu>
    requires { IfSome first (λ digit. digit < 10) }
    ensures cpu { result ≡ cpu_by first second }
    ensures below { IfSome result (λ cpu. cpu.0 < 16) }
{
    let first = first?;
    match second {
        Some(second) => {
            if first == 1 && second < 6 {
                Some(Cpu(10 + second))
            } else {
                None
            }
        }
        None => Some(Cpu(first)),
    }
}

/// The digit that stands at a place.
fn digit(bytes: &[u8], at: usize) -> Option<u8>
    ensures digit { result ≡ digit_at bytes.now at }
    ensures below { IfSome result (λ digit. digit < 10) }
{
    match bytes.get(at) {
        Some(byte) => {
            if b'0' <= *byte && *byte <= b'9' {
                Some(*byte - b'0')
            } else {
                None
            }
        }
        None => None,
    }
}

/// Whether the bytes are the end line with this word.
fn is_end_line(bytes: &[u8], end: End) -> bool
    ensures { Decides result (bytes.now ≡ ended_line (end_text end)) }
{
    bytes == end_line(end).as_bytes()
}
