//! The lines behind the script of a record (`docs/FORMATS.md`, "Audit lines and records").

ghost use Rattle.std.specs.Prelude.{◌≡◌, ◌<◌, ◌+◌, ◌^◌, ◌∷◌, [], ℕ, List, Err, IfOk, length};
ghost use Rattle.hk_format.specs.Audits.{end_spelled, events_behind, events_from};
ghost use Rattle.hk_format.specs.Texts.{lines_of, without_last_empty};
ghost use Rattle.hk_audit.specs.Left.{texts};
ghost use Rattle.hk_audit.specs.RecordCuts.{behind_first};
ghost use Rattle.hk_audit.specs.RecordEvents.{Finds, GivesEvents, have_no_byte};

use crate::audits::RecordError;
use crate::parts::Parts;
use crate::reading::read_body;
use hk_format::{Cause, ParseCause};
use hk_model::{End, Items, Line, Template};
use std::alloc::Global;
use std::marker::PhantomData;

/// The audit lines and the end word.
#[derive(Drop)]
pub(crate) struct Events {
    pub(crate) lines: Items<Line>,
    pub(crate) end: End,
}

/// What a line behind the script is.
#[derive(Clone, Copy)]
enum Found {
    Line(Line),
    End(End),
}

/// What stands behind the script: the bytes begin with the line `record`, which has this number, or
/// are none, where that line is missing.
pub(crate) fn read_events(alloc: Global, bytes: &[u8], number: u32) -> Result<Events, RecordError>
    requires few { number + length (lines_of bytes.now) < 2 ^ 32 }
    ensures { GivesEvents result (events_behind number (behind_first bytes.now)) }
{
    let mut left = Parts::new(bytes, b'\n');
    if bytes.is_empty() || left.next().is_err() {
        return Err(RecordError::Refused {
            line: number,
            cause: Cause::OfParse(ParseCause::Missing),
        });
    }
    read_lines(alloc, &mut left, number + 1)
}

/// The audit lines and the end word of what is left, where the next line has this number.
fn read_lines(alloc: Global, left: &mut Parts, first: u32) -> Result<Events, RecordError>
    requires few { first + length (without_last_empty (texts left.old)) < 2 ^ 32 }
    ensures { GivesEvents result (events_from first (texts left.old)) }
{
    let _ = PhantomData::<Template>; // Rattle is to know what an Entry holds
    let mut lines = Items::new(alloc);
    let mut number = first;
    loop {
        match next_line(left) {
            Ok(Found::Line(line)) => lines.push(line)?,
            Ok(Found::End(end)) => {
                if is_at_end(left) {
                    return Ok(Events { lines, end });
                }
                return Err(RecordError::Refused {
                    line: number + 1,
                    cause: Cause::OfParse(ParseCause::Extra),
                });
            }
            Err(cause) => {
                return Err(RecordError::Refused {
                    line: number,
                    cause,
                });
            }
        }
        number += 1;
    }
}

/// The next line, or why it is refused.
fn next_line(left: &mut Parts) -> Result<Found, Cause>
    ensures finds { Finds result (texts left.old) (texts left.new) }
    ensures counts { IfOk result (λ _. length (without_last_empty (texts left.old)) ≡ 1 + length (without_last_empty (texts left.new))) }
{
    let Ok(text) = left.next() else {
        return Err(Cause::OfParse(ParseCause::Missing));
    };
    if left.is_read() {
        return Err(why_last(text));
    }
    whole_line(text)
}

/// Why what stands behind the last line feed is refused.
fn why_last(text: &[u8]) -> Cause
    ensures { (n : ℕ) → events_from n (text.now ∷ []) ≡ Err (n, result) }
{
    if text.is_empty() {
        Cause::OfParse(ParseCause::Missing)
    } else {
        Cause::BadLine
    }
}

/// What a line is that has a line feed.
fn whole_line(text: &[u8]) -> Result<Found, Cause>
    ensures { (y : List ℕ) (more : List (List ℕ)) → Finds result (text.now ∷ y ∷ more) (y ∷ more) }
{
    if let Some(end) = end_spelled(text) {
        return Ok(Found::End(end));
    }
    match read_body(text) {
        Some(line) => Ok(Found::Line(line)),
        None => Err(Cause::BadLine),
    }
}

/// The end word that the line is.
fn end_spelled(line: &[u8]) -> Option<End>
    ensures { result ≡ end_spelled line.now }
{
    if line == b"end done".as_slice() {
        return Some(End::Done);
    }
    if line == b"end stuck".as_slice() {
        return Some(End::Stuck);
    }
    if line == b"end limit".as_slice() {
        return Some(End::Limit);
    }
    None
}

/// Whether no byte is left.
fn is_at_end(left: &mut Parts) -> bool
    ensures { result ≡ have_no_byte (texts left.old) }
{
    match left.next() {
        Ok(text) => text.is_empty() && left.is_read(),
        Err(_) => true,
    }
}
