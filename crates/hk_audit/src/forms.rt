//! The forms that a text of an audit line can be wanted in (`docs/FORMATS.md`, "Audit lines and
//! records"): a text of another form is UnknownWord, a number outside its range OutOfRange.

ghost use Rattle.std.specs.Prelude.{◌≡◌, ◌≤◌, ◌<◌, Ok, Err, IfOk, IfErr};
ghost use Rattle.hk_model.specs.Labels.{first, is_lower};
ghost use Rattle.hk_format.specs.Pieces.{Number};
ghost use Rattle.hk_format.specs.Forms.{as_verb, as_word, as_number_below};
ghost use Rattle.hk_format.specs.LineReading.{as_path, as_any_slot, as_rights_set, as_right, as_word32, as_full};
ghost use Rattle.hk_model.specs.Limits.{inc_bound};
ghost use Rattle.hk_audit.specs.TextPieces.{seen};

use crate::paths::path_in;
use crate::rights::{right_in, rights_in};
use hk_format::{ParseCause, Verb};
use hk_model::limits::INDEX_BOUND;
use hk_model::{Path, Slot, What8};
use hk_rights::{Right, Rights};
use hk_script::verb_of;
use hk_text::numeral;

/// A number below the bound.
pub fn number_below(text: &[u8], bound: u64) -> Result<u64, ParseCause>
    ensures value { as_number_below bound (seen text.now) ≡ result }
    ensures below { IfOk result (λ n. n < bound) }
{
    match numeral(text) {
        Some(n) => {
            if n < bound {
                Ok(n)
            } else {
                Err(ParseCause::OutOfRange)
            }
        }
        None => Err(ParseCause::UnknownWord),
    }
}

/// The number of an incarnation, below 2^64.
pub fn inc(text: &[u8]) -> Result<u64, ParseCause>
    ensures { as_number_below inc_bound (seen text.now) ≡ result }
{
    match numeral(text) {
        Some(n) => Ok(n),
        None => Err(ParseCause::UnknownWord),
    }
}

/// A word of 32 bits.
pub fn word32(text: &[u8]) -> Result<u32, ParseCause>
    ensures { as_word32 (seen text.now) ≡ result }
{
    match numeral(text) {
        Some(n) => {
            if n <= 4294967295 {
                Ok(n as u32)
            } else {
                Err(ParseCause::OutOfRange)
            }
        }
        None => Err(ParseCause::UnknownWord),
    }
}

/// A slot of a call, 0 to 255.
pub fn slot(text: &[u8]) -> Result<Slot, ParseCause>
    ensures { as_any_slot (seen text.now) ≡ result }
{
    match numeral(text) {
        Some(n) => {
            if n < 256 {
                Ok(Slot(n as u8))
            } else {
                Err(ParseCause::OutOfRange)
            }
        }
        None => Err(ParseCause::UnknownWord),
    }
}

/// A path of one index, or of several.
pub fn path(text: &[u8]) -> Result<Path, ParseCause>
    ensures { as_path (seen text.now) ≡ result }
{
    match numeral(text) {
        Some(n) => one_index(n),
        None => match path_in(text) {
            Some(path) => Ok(path),
            None => Err(ParseCause::UnknownWord),
        },
    }
}

/// The path of one index.
fn one_index(n: u64) -> Result<Path, ParseCause>
    ensures { as_path (Number n) ≡ result }
{
    if n >= u64::from(INDEX_BOUND) {
        return Err(ParseCause::OutOfRange);
    }
    match Path::new(&[n as u16]) {
        Some(path) => Ok(path),
        None => Err(ParseCause::OutOfRange),
    }
}

/// A set of rights.
pub fn rights(text: &[u8]) -> Result<Rights, ParseCause>
    ensures { as_rights_set (seen text.now) ≡ result }
{
    match rights_in(text) {
        Some(rights) => Ok(rights),
        None => Err(ParseCause::UnknownWord),
    }
}

/// A right.
pub fn right(text: &[u8]) -> Result<Right, ParseCause>
    ensures { as_right (seen text.now) ≡ result }
{
    match right_in(text) {
        Some(right) => Ok(right),
        None => Err(ParseCause::UnknownWord),
    }
}

/// A word.
pub fn word(text: &[u8]) -> Result<&[u8], ParseCause>
    ensures ok { IfOk result (λ word. as_word (seen text.now) ≡ Ok word.now) }
    ensures refused { IfErr result (λ cause. as_word (seen text.now) ≡ Err cause) }
{
    if begins_low(text) {
        Ok(text)
    } else {
        Err(ParseCause::UnknownWord)
    }
}

/// Whether the text begins with a lower-case letter.
fn begins_low(text: &[u8]) -> bool
    ensures { result ≡ is_lower (first text.now) }
{
    match text.first() {
        Some(byte) => b'a' <= *byte && *byte <= b'z',
        None => false,
    }
}

/// The word of a verb.
pub fn verb(text: &[u8]) -> Result<Verb, ParseCause>
    ensures { as_verb (seen text.now) ≡ result }
{
    match verb_of(word(text)?) {
        Some(verb) => Ok(verb),
        None => Err(ParseCause::UnknownWord),
    }
}

/// What there is no room for.
pub fn full(text: &[u8]) -> Result<What8, ParseCause>
    ensures { as_full (seen text.now) ≡ result }
{
    match word(text)? {
        b"words" => Ok(What8::Words),
        b"entries" => Ok(What8::Entries),
        b"objects" => Ok(What8::Objects),
        b"slots" => Ok(What8::Slots),
        b"tokens" => Ok(What8::Tokens),
        _ => Err(ParseCause::UnknownWord),
    }
}
