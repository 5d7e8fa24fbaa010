//! The forms of a piece (`docs/FORMATS.md`, "Pieces").

ghost use Rattle.std.specs.Prelude.{◌≡◌, ◌<◌, ◌==◌, length, min, IsTrue, Some, None, if◌then◌else◌};
ghost use Rattle.std.specs.List.{slice_split, list_all, list_any};
ghost use Rattle.hk_model.specs.Labels.{is_digit, is_word_byte};
ghost use Rattle.hk_model.specs.Limits.{word_bound};
ghost use Rattle.hk_format.specs.Pieces.{is_number, is_upper, is_index_text, is_too_large, value, number_of, plain_of, pointed_of, piece_of};
ghost use Rattle.hk_text.specs.Views.{kind_piece};
ghost use Rattle.hk_text.specs.Outcomes.{GivesOrCause};

use crate::bytes::{are_digits, has_point, is_capital, is_digit, is_lower, is_register};
use hk_format::TextCause;

/// The least number that no piece can be.
const TOO_LARGE: u64 = 1 << 32;

/// What a piece is.
#[derive(Clone, Copy, PartialEq, Eq, Debug)]
pub enum PieceKind {
    /// A lower-case letter, and then at most 31 lower-case letters, digits or underscores.
    Word,
    /// Names that `+` joins, each a capital letter and then capital letters or digits.
    Upper,
    /// `-`
    Dash,
    /// Digits, and their value.
    Number(u32),
    /// Two to eight indices that points join, each a number or `r0` to `r7`.
    Path,
}

/// A piece of a source: its bytes are those from `start` on and before `end`.
#[derive(Clone, Copy, PartialEq, Eq, Debug)]
pub struct Piece {
    pub start: usize,
    pub end: usize,
    pub kind: PieceKind,
}

/// What the text is as a piece, or why it is none. No text with a point has another form than that of a
/// path, so points are looked for only where it has no other form. The caller knows whether all bytes may stand in
/// a word.
pub fn kind_of(text: &[u8], in_word: bool) -> Result<PieceKind, TextCause>
    requires some { 0 < length text.now }
    requires word { in_word ≡ list_all is_word_byte text.now }
    ensures { GivesOrCause (λ kind. kind_piece kind text.now) result (piece_of text.now) }
{
    match plain(text, in_word) {
        Ok(kind) => Ok(kind),
        Err(cause) => {
            if has_point(text) {
                path(text)
            } else {
                Err(cause)
            }
        }
    }
}

/// What a text without a point is.
fn plain(text: &[u8], in_word: bool) -> Result<PieceKind, TextCause>
    requires some { 0 < length text.now }
    requires word { in_word ≡ list_all is_word_byte text.now }
    ensures { GivesOrCause (λ kind. kind_piece kind text.now) result (plain_of text.now) }
{
    let first = text[0];
    if is_digit(first) {
        return number(text);
    }
    if is_lower(first) {
        if in_word && text.len() <= 32 {
            return Ok(PieceKind::Word);
        }
        return Err(TextCause::BadToken);
    }
    if is_capital(first) {
        if are_names(text) {
            return Ok(PieceKind::Upper);
        }
        return Err(TextCause::BadToken);
    }
    if first == b'-' && text.len() == 1 {
        return Ok(PieceKind::Dash);
    }
    Err(TextCause::BadToken)
}

/// The number that a text stands for, as a piece, or why it is none.
fn number(text: &[u8]) -> Result<PieceKind, TextCause>
    ensures { GivesOrCause (λ kind. kind_piece kind text.now) result (number_of text.now) }
{
    match digits(text) {
        Some(n) if n < TOO_LARGE => Ok(PieceKind::Number(n as u32)),
        Some(_) => Err(TextCause::NumberTooLarge),
        None => Err(TextCause::BadToken),
    }
}

/// The value of digits (`docs/FORMATS.md`, "Pieces"): None where no piece can be so large.
pub fn value(text: &[u8]) -> Option<u32>
    requires { IsTrue (is_number text.now) }
    ensures { result ≡ (if is_too_large text.now then None else Some (value text.now)) }
{
    match digits(text) {
        Some(n) if n < TOO_LARGE => Some(n as u32),
        _ => None,
    }
}

/// The value of digits, or 2^32 where it is more. None where some byte is no digit.
fn digits(text: &[u8]) -> Option<u64>
    ensures { result ≡ (if list_all is_digit text.now then Some (min (value text.now) word_bound) else None) }
{
    let mut n: u64 = 0;
    for byte in text {
        if !is_digit(*byte) {
            return None;
        }
        n = (n * 10 + (*byte - b'0') as u64).min(TOO_LARGE);
    }
    Some(n)
}

/// Whether the text is names that `+` joins.
fn are_names(text: &[u8]) -> bool
    ensures { result ≡ is_upper text.now }
{
    let mut begins = true;
    for byte in text {
        if *byte == b'+' {
            if begins {
                return false;
            }
            begins = true;
        } else {
            if begins && !is_capital(*byte) {
                return false;
            }
            if !is_capital(*byte) && !is_digit(*byte) {
                return false;
            }
            begins = false;
        }
    }
    !begins
}

/// What a text with a point is.
fn path(text: &[u8]) -> Result<PieceKind, TextCause>
    ensures { GivesOrCause (λ kind. kind_piece kind text.now) result (pointed_of (slice_split (λ b. b == 46) text.now)) }
{
    let count = count_of_indices(text);
    if count < 2 || count > 8 || !are_indices(text) {
        return Err(TextCause::BadToken);
    }
    if has_large_index(text) {
        return Err(TextCause::NumberTooLarge);
    }
    Ok(PieceKind::Path)
}

/// The number of parts that points join.
fn count_of_indices(text: &[u8]) -> usize
    ensures { result ≡ length (slice_split (λ b. b == 46) text.now) }
{
    text.split(|byte| *byte == b'.').count()
}

/// Whether each part is an index.
fn are_indices(text: &[u8]) -> bool
    ensures { result ≡ list_all is_index_text (slice_split (λ b. b == 46) text.now) }
{
    text.split(|byte| *byte == b'.').all(|part| is_index(part))
}

/// Whether some part is a number that no piece can be.
fn has_large_index(text: &[u8]) -> bool
    ensures { result ≡ list_any is_too_large (slice_split (λ b. b == 46) text.now) }
{
    text.split(|byte| *byte == b'.')
        .any(|part| is_too_large(part))
}

/// Whether the text is a number or a register.
fn is_index(text: &[u8]) -> bool
    ensures { result ≡ is_index_text text.now }
{
    !text.is_empty() && is_digit(text[0]) && are_digits(text) || is_register(text)
}

/// Whether the text is a number that no piece can be.
fn is_too_large(text: &[u8]) -> bool
    ensures { result ≡ is_too_large text.now }
{
    match digits(text) {
        Some(n) => n == TOO_LARGE,
        None => false,
    }
}
