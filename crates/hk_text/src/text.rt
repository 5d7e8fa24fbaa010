//! Bytes as lines, and lines as pieces (`docs/FORMATS.md`, "Text").

ghost use Rattle.std.specs.Prelude.{◌≡◌, ℕ, ◌<◌, ◌≤◌, ◌^◌, ◌+◌, ◌-◌, ◌==◌, length, map, Ok, Err, Some, IfOk, OnOk, MatchOption};
ghost use Rattle.std.specs.List.{slice_range, flat_map, position_or_len};
ghost use Rattle.hk_model.specs.Limits.{line_bytes};
ghost use Rattle.hk_format.specs.Texts.{lines_of, text, text_line, pieces_of, is_no_text};
ghost use Rattle.hk_text.specs.Views.{seen, line_seen, line_pieces, texts_of, is_mark, LieBetween};
ghost use Rattle.hk_format.specs.Outcomes.{Gives, IsRefused};
ghost use Rattle.hk_text.specs.Outcomes.{first_line, FindsLine};

use crate::bytes::{first_mark, first_no_text, first_token, is_blank};
use crate::errors::{LineError, TextError};
use crate::pieces::{Piece, kind_of};
use hk_format::TextCause;
use hk_model::Items;
use hk_model::limits::LINE_BYTES;
use std::alloc::{AllocError, Global};

/// A line that has pieces.
#[derive(Drop)]
pub struct TextLine {
    /// The number of the line, from 1.
    pub number: u32,
    /// The pieces from left to right, one at least.
    pub pieces: Items<Piece>,
}

/// The lines of a source that have pieces, in order. `Refused` tells the first line that is bad,
/// and the first of its causes: NotAscii, LongLine, and then those of its pieces from the left
/// (`docs/FORMATS.md`, "Text"). Want of memory is `NoMemory`. The source is to have fewer than
/// 2^32 - 1 lines, so that each has a number.
pub fn lines(alloc: Global, bytes: &[u8]) -> Result<Vec<TextLine>, TextError>
    requires { length (lines_of bytes.now) < 2 ^ 32 - 1 }
    ensures ok { IfOk result (λ v. text bytes.now ≡ Ok (map (line_seen bytes.now) v.items)) }
    ensures spans { IfOk result (λ v. LieBetween 0 (length bytes.now) (flat_map line_pieces v.items)) }
    ensures refused { (line : ℕ) (cause : TextCause) → IsRefused result line cause → text bytes.now ≡ Err (line, cause) }
{
    let mut lines = Items::new(alloc);
    let mut scratch = Vec::new(alloc); // so that a line takes no more memory than its pieces need
    let mut number = 1;
    let mut start = 0;
    while start < bytes.len() {
        let len = match cut_line(&mut scratch, bytes, start) {
            Ok(len) => len,
            Err(error) => return Err(error.on_line(number)),
        };
        let cut = scratch.as_slice();
        if !cut.is_empty() {
            let pieces = Items::from_vec(Vec::from_slice(alloc, cut)?);
            lines.push(TextLine { number, pieces })?;
        }
        number += 1;
        start += len + 1;
    }
    Ok(lines.into_vec())
}

/// Puts the pieces of the line that begins at this place in the place of others, and tells the length of
/// the line; else the first cause of the line.
pub(crate) fn cut_line(
    pieces: &mut Vec<Piece>,
    source: &[u8],
    start: usize,
) -> Result<usize, LineError>
    requires inside { start ≤ length source.now }
    ensures line { IfOk result (λ len. len ≡ position_or_len (λ b. b == 10) (slice_range source.now start (length source.now))) }
    ensures within { IfOk result (λ len. start + len ≤ length source.now) }
    ensures value { Gives (λ len. map (seen source.now) pieces.new.items) result (text_line (first_line (slice_range source.now start (length source.now)))) }
    ensures spans { IfOk result (λ len. LieBetween start (start + len) pieces.new.items) }
{
    let cut = cut_text(pieces, source, start)?;
    let len = line_len(&source[start..], cut.end - start)?;
    if len > LINE_BYTES {
        return Err(LineError::Bad(TextCause::LongLine));
    }
    match cut.refused {
        Some(cause) => Err(LineError::Bad(cause)),
        None => Ok(len),
    }
}

/// The length of the first line, in which each byte may stand in a script; else NotAscii. The mark is where its text
/// ends, at a comment or with the line.
fn line_len(text: &[u8], mark: usize) -> Result<usize, LineError>
    requires mark { mark ≡ position_or_len is_mark text.now }
    requires within { mark ≤ length text.now }
    ensures line { FindsLine result text.now }
    ensures within { IfOk result (λ len. len ≤ length text.now) }
    ensures comment { OnOk result (mark ≡ position_or_len (λ b. b == 35) (first_line text.now)) }
    ensures before { IfOk result (λ len. mark ≤ len) }
{
    let len = no_text_from(text, mark);
    if len == text.len() {
        return Ok(len);
    }
    if text[len] == b'\n' {
        return Ok(len);
    }
    Err(LineError::Bad(TextCause::NotAscii))
}

/// The place of the first byte that may not stand in a line, or the length, where the text of the line ends at the mark.
fn no_text_from(text: &[u8], mark: usize) -> usize
    requires mark { mark ≡ position_or_len is_mark text.now }
    requires within { mark ≤ length text.now }
    ensures place { result ≡ position_or_len is_no_text text.now }
    ensures within { result ≤ length text.now }
{
    if mark == text.len() {
        return mark;
    }
    if text[mark] != b'#' {
        return mark;
    }
    mark + first_no_text(&text[mark..])
}

/// The text of a line, as it was cut into pieces.
#[derive(Clone, Copy)]
struct Cut {
    /// Where it ends, at a comment or with the line.
    end: usize,
    /// Why it has no pieces, if it has none: the cause of the first that is bad, or LongLine.
    refused: Option<TextCause>,
}

/// Puts the pieces of the line that begins at this place in the place of others, up to the first that is bad,
/// or that ends behind the bytes that a line may have. The bytes are gone over once, and so the end of the text
/// is found by the way.
fn cut_text(pieces: &mut Vec<Piece>, source: &[u8], start: usize) -> Result<Cut, AllocError>
    requires inside { start ≤ length source.now }
    ensures end { IfOk result (λ cut. cut.end ≡ start + position_or_len is_mark (slice_range source.now start (length source.now))) }
    ensures within { IfOk result (λ cut. cut.end ≤ length source.now) }
    ensures value { IfOk result (λ cut. cut.end ≤ start + line_bytes → MatchOption cut.refused (pieces_of (texts_of (slice_range source.now start cut.end)) ≡ Ok (map (seen source.now) pieces.new.items)) (λ cause. pieces_of (texts_of (slice_range source.now start cut.end)) ≡ Err cause)) }
    ensures spans { IfOk result (λ cut. LieBetween start cut.end pieces.new.items) }
{
    pieces.clear();
    let mut at = start;
    while at < source.len() {
        let rest = &source[at..];
        let token = first_token(rest);
        let len = token.len;
        let end = at + len;
        if end - start > LINE_BYTES {
            return Ok(refused_at(source, end, TextCause::LongLine));
        }
        if len > 0 {
            match kind_of(&rest[..len], token.in_word) {
                Ok(kind) => pieces.push(Piece {
                    start: at,
                    end,
                    kind,
                })?,
                Err(cause) => return Ok(refused_at(source, end, cause)),
            }
        }
        if len == rest.len() || !is_blank(rest[len]) {
            return Ok(Cut { end, refused: None });
        }
        at += len + 1;
    }
    Ok(Cut {
        end: at,
        refused: None,
    })
}

/// The text that has no pieces for this cause, and ends at this place or behind it.
fn refused_at(source: &[u8], place: usize, cause: TextCause) -> Cut
    requires inside { place ≤ length source.now }
    ensures end { result.end ≡ place + position_or_len is_mark (slice_range source.now place (length source.now)) }
    ensures within { result.end ≤ length source.now }
    ensures refused { result.refused ≡ Some cause }
{
    Cut {
        end: place + first_mark(&source[place..]),
        refused: Some(cause),
    }
}
