//! How refusals and verdicts are told (`docs/FORMATS.md`, "Statuses and outputs" and "Legal records").

ghost use Rattle.std.specs.Prelude.{◌≡◌, IfOk, codes};
ghost use Rattle.hk_format.specs.CauseTexts.{text_cause, parse_cause, load_cause, cause_name, misstep_name, refusal_text, verdict_text};

use hk_format::{Cause, LoadCause, ParseCause, TextCause};
use hk_model::{Misstep, NoMemory, Text, Verdict};
use std::alloc::Global;

/// `line L: CAUSE`, and a line feed. NoMemory is want of memory.
pub(crate) fn refusal_text(alloc: Global, line: u32, cause: Cause) -> Result<Text, NoMemory>
    ensures { IfOk result (λ text. text ≡ refusal_text line (cause_name cause)) }
{
    let name = cause_name(cause);
    Ok(Text::from_string(format!(in alloc; "line {line}: {name}\n")?)?)
}

/// `legal`, or `illegal L CAUSE`, and a line feed. NoMemory is want of memory.
pub(crate) fn verdict_text(alloc: Global, verdict: Verdict) -> Result<Text, NoMemory>
    ensures { IfOk result (λ text. text ≡ verdict_text verdict) }
{
    match verdict {
        Verdict::Legal => Ok(Text::from_str(alloc, "legal\n")?),
        Verdict::Illegal { line, cause } => illegal_text(alloc, line, cause),
    }
}

/// The verdict on a record whose first bad line is this.
fn illegal_text(alloc: Global, line: u32, cause: Misstep) -> Result<Text, NoMemory>
    ensures { IfOk result (λ text. text ≡ verdict_text (Verdict.Illegal line cause)) }
{
    let name = misstep_name(cause);
    Ok(Text::from_string(format!(in alloc; "illegal {line} {name}\n")?)?)
}

/// The name of the cause for which a line is bad.
fn misstep_name(cause: Misstep) -> &'static str
    ensures { result.now ≡ misstep_name cause }
{
    match cause {
        Misstep::Cpu => "Cpu",
        Misstep::Process => "Process",
        Misstep::Call => "Call",
        Misstep::Reply => "Reply",
        Misstep::EndWord => "EndWord",
    }
}

/// The name of a cause.
fn cause_name(cause: Cause) -> &'static str
    ensures { result.now ≡ cause_name cause }
{
    match cause {
        Cause::OfText(cause) => text_cause(cause),
        Cause::OfParse(cause) => parse_cause(cause),
        Cause::OfLoad(cause) => load_cause(cause),
        Cause::BadLine => "BadLine",
    }
}

/// The name of a cause by which a line is no text of a script.
fn text_cause(cause: TextCause) -> &'static str
    ensures { result.now ≡ text_cause cause }
{
    match cause {
        TextCause::NotAscii => "NotAscii",
        TextCause::LongLine => "LongLine",
        TextCause::BadToken => "BadToken",
        TextCause::NumberTooLarge => "NumberTooLarge",
    }
}

/// The name of a cause by which a line does not follow the grammar.
fn parse_cause(cause: ParseCause) -> &'static str
    ensures { result.now ≡ parse_cause cause }
{
    match cause {
        ParseCause::UnknownWord => "UnknownWord",
        ParseCause::Missing => "Missing",
        ParseCause::Extra => "Extra",
        ParseCause::Repeated => "Repeated",
        ParseCause::OutOfRange => "OutOfRange",
        ParseCause::Unclosed => "Unclosed",
    }
}

/// The name of a cause by which a line can not be loaded.
fn load_cause(cause: LoadCause) -> &'static str
    ensures { result.now ≡ load_cause cause }
{
    match cause {
        LoadCause::UnknownName => "UnknownName",
        LoadCause::WrongPart => "WrongPart",
        LoadCause::TooMany => "TooMany",
        LoadCause::BadRights => "BadRights",
    }
}
