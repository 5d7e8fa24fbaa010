//! The definitions that read a line and a record, and the texts of these (`docs/FORMATS.md`, "Audit
//! lines and records").

ghost use Rattle.std.specs.Prelude.{◌≡◌, ◌↔◌, All, Ok, Some};
ghost use Rattle.hk_format.specs.AuditLines.{line_body};
ghost use Rattle.hk_format.specs.LineReading.{read_body};
ghost use Rattle.hk_format.specs.LineRanges.{IsLine};
ghost use Rattle.hk_format.specs.Audits.{audit, audited, events};
ghost use Rattle.hk_format.specs.Records.{record_text};
ghost use Rattle.hk_format.specs.StepTexts.{HasTextOf};
ghost use Rattle.hk_model.specs.Control.{Calls, meaning};

use hk_model::{Call, End, Frame, Instr, Line, World};

/// The definition reads a line in exactly the bytes on which that line stands, before its line
/// feed. The function does nothing; its contract is the law.
pub fn line_is_read_again(bytes: &[u8], line: &Line)
    ensures { (read_body bytes.now ≡ Some line.now) ↔ (IsLine line.now × (line_body line.now ≡ bytes.now)) }
{
    let _cpu = line.cpu;
    let _len = bytes.len();
}

/// The definition reads the text of a record as its world, its lines and its end word. The function
/// does nothing; its contract is the law.
#[tactic(auto, using(crate::proofs::RecordAgain::record_again))]
pub fn record_is_read_again(world: &World, lines: &[Line], end: End)
    requires { All IsLine lines.now }
    ensures { audit (record_text world.now lines.now end) ≡ Ok (audited world.now (events lines.now end)) }
{
    let _limit = world.limit();
    let _count = lines.len();
}

/// Records with the same text are of the same world, lines and end word. The function does nothing;
/// its contract is the law.
#[tactic(auto, using(crate::proofs::RecordAgain::record_is_of_one))]
pub fn record_text_is_of_one(
    world: &World,
    lines: &[Line],
    end: End,
    other_world: &World,
    other_lines: &[Line],
    other_end: End,
)
    requires lines { All IsLine lines.now }
    requires other_lines { All IsLine other_lines.now }
    requires same { record_text world.now lines.now end ≡ record_text other_world.now other_lines.now other_end }
    ensures world { world.now ≡ other_world.now }
    ensures lines { lines.now ≡ other_lines.now }
    ensures end { end ≡ other_end }
{
    let _limits = (world.limit(), other_world.limit());
    let _counts = (lines.len(), other_lines.len());
}

/// A call has the text of the instruction that makes it, with the path and the operands resolved, and
/// without the register that takes a word reply (`docs/FORMATS.md`, "Texts of calls"). The function
/// does nothing; its contract is the law.
#[tactic(auto, using(hk_format::proofs::StepCalls::step_text))]
pub fn call_has_text_of_its_step(frame: &Frame, step: &Instr, call: &Call)
    requires { meaning frame.now step.now ≡ Calls call.now }
    ensures { HasTextOf frame.now step.now call.now }
{
    let _at = frame.at;
    let _step = step;
    let _call = call;
}
