//! The text of an audit line at the front of bytes, piece by piece (`docs/FORMATS.md`, "Audit lines and records").
//!
//! Each function gives what stands behind a text with which the bytes begin. None tells nothing: who is to know whether the
//! bytes begin with the text then makes the text and compares.

ghost use Rattle.std.specs.Prelude.{◌≡◌, ◌++◌, ◌∷◌, ◌<◌, ◌≤◌, ◌+◌, [], IfSome, codes};
ghost use Rattle.std.specs.List.{flat_map};
ghost use Rattle.std.specs.Fmt.{decimal};
ghost use Rattle.hk_rights.specs.Rights.{name_of};
ghost use Rattle.hk_format.specs.AuditLines.{call_pieces, full_word, line_text, refusal_pieces, reply_pieces, what_pieces};
ghost use Rattle.hk_format.specs.LineRanges.{IsCall, IsLine, IsPathValue, IsWhat};
ghost use Rattle.hk_format.specs.Operands.{argument_pieces, path_piece};
ghost use Rattle.hk_format.specs.Pieces.{spell, Number, Upper, Word};
ghost use Rattle.hk_format.specs.Texts.{spell_line};
ghost use Rattle.hk_audit.specs.ThreeDigits.{three_digits};

use crate::reading::behind;
use crate::refusals::kind_name;
use hk_model::{Args, Call, Line, Path, Refusal, Reply, Slot, What, What8};
use hk_rights::Right;

/// What stands behind the text of a line.
pub(crate) fn behind_line<'a>(bytes: &'a [u8], line: &Line) -> Option<&'a [u8]>
    requires { IsLine line.now }
    ensures { IfSome result (λ rest. line_text line.now ++ rest.now ≡ bytes.now) }
{
    let what = behind_actor(bytes, line)?;
    let arrow = behind_what(what, &line.what)?;
    let rest = behind_end(arrow, &line.reply)?;
    Some(rest)
}

/// What stands behind an arrow, a reply and a line feed. Most calls are answered Done, so of these the arrow and the word are
/// compared at once.
#[inline(always)]
fn behind_end<'a>(bytes: &'a [u8], reply: &Reply) -> Option<&'a [u8]>
    ensures { IfSome result (λ rest. (32 ∷ 45 ∷ 62 ∷ 32 ∷ []) ++ (spell_line (reply_pieces reply.now) ++ 10 ∷ rest.now) ≡ bytes.now) }
{
    match reply {
        Reply::Done => {
            let end = behind(bytes, b" -> done")?;
            let rest = behind(end, b"\n")?;
            Some(rest)
        }
        _ => behind_told(bytes, reply),
    }
}

/// The same, piece by piece.
fn behind_told<'a>(bytes: &'a [u8], reply: &Reply) -> Option<&'a [u8]>
    ensures { IfSome result (λ rest. (32 ∷ 45 ∷ 62 ∷ 32 ∷ []) ++ (spell_line (reply_pieces reply.now) ++ 10 ∷ rest.now) ≡ bytes.now) }
{
    let told = behind(bytes, b" -> ")?;
    let end = behind_reply(told, reply)?;
    let rest = behind(end, b"\n")?;
    Some(rest)
}

/// What stands behind the numbers of the processor, the process and the incarnation, a space behind each.
fn behind_actor<'a>(bytes: &'a [u8], line: &Line) -> Option<&'a [u8]>
    ensures { IfSome result (λ rest. (decimal line.now.cpu.0 ++ 32 ∷ (decimal line.now.proc.0 ++ 32 ∷ (decimal line.now.inc.0 ++ 32 ∷ []))) ++ rest.now ≡ bytes.now) }
{
    let first = behind_number(bytes, u64::from(line.cpu.0))?;
    let second = behind_next_few(first, u64::from(line.proc.0))?;
    let third = behind_next_few(second, line.inc.0)?;
    behind(third, b" ")
}

/// What stands behind what happened.
fn behind_what<'a>(bytes: &'a [u8], what: &What) -> Option<&'a [u8]>
    requires { IsWhat what.now }
    ensures { IfSome result (λ rest. spell_line (what_pieces what.now) ++ rest.now ≡ bytes.now) }
{
    match what {
        What::Dispatch => behind_word(bytes, "dispatch"),
        What::Call(call) => behind_call(bytes, call),
        What::Halt => behind_word(bytes, "halt"),
    }
}

/// What stands behind a call. None for Restrict and MakeTemplate, whose texts have sets of rights.
fn behind_call<'a>(bytes: &'a [u8], call: &Call) -> Option<&'a [u8]>
    requires { IsCall call.now }
    ensures { IfSome result (λ rest. spell_line (call_pieces call.now) ++ rest.now ≡ bytes.now) }
{
    match call {
        Call::Get { of, at } => behind_with_two(bytes, "getdata", of, u64::from(*at)),
        Call::Put { of, at, word } => {
            behind_with_three(bytes, "putdata", of, u64::from(*at), u64::from(*word))
        }
        Call::Add { of, word } => behind_with_two(bytes, "adddata", of, u64::from(*word)),
        Call::Length { of } => behind_with_one(bytes, "length", of),
        Call::Load { from, into } => behind_with_two(bytes, "load", from, u64::from(into.0)),
        Call::Store { list, at, from } => {
            behind_with_three(bytes, "store", list, u64::from(*at), u64::from(from.0))
        }
        Call::Append { list, from } => behind_with_two(bytes, "append", list, u64::from(from.0)),
        Call::Erase { list, at } => behind_with_two(bytes, "erase", list, u64::from(*at)),
        Call::Drop { slot } => behind_with_number(bytes, "drop", u64::from(slot.0)),
        Call::Look { of } => behind_with_one(bytes, "look", of),
        Call::Create { by, into } => behind_with_two(bytes, "create", by, u64::from(into.0)),
        Call::Merge { with, cap, into } => {
            behind_with_three(bytes, "merge", with, u64::from(cap.0), u64::from(into.0))
        }
        Call::Copy { of, into } => behind_with_two(bytes, "copy", of, u64::from(into.0)),
        Call::Enter { proc, args, into } => behind_with_arguments(bytes, "call", proc, args, into),
        Call::Leave { give: Some(slot) } => {
            behind_with_number(bytes, "return", u64::from(slot.0))
        }
        Call::Leave { give: None } => behind_word(bytes, "return"),
        Call::P { of } => behind_with_one(bytes, "p", of),
        Call::V { of } => behind_with_one(bytes, "v", of),
        Call::Yield => behind_word(bytes, "yield"),
        Call::Restrict { .. } | Call::MakeTemplate { .. } => None,
    }
}

/// What stands behind a reply.
fn behind_reply<'a>(bytes: &'a [u8], reply: &Reply) -> Option<&'a [u8]>
    ensures { IfSome result (λ rest. spell_line (reply_pieces reply.now) ++ rest.now ≡ bytes.now) }
{
    match reply {
        Reply::Done => behind_word(bytes, "done"),
        Reply::Word(word) => behind_with_number(bytes, "word", u64::from(*word)),
        Reply::Waits => behind_word(bytes, "waits"),
        Reply::No(refusal) => behind_refusal(bytes, refusal),
    }
}

/// What stands behind a refusal.
fn behind_refusal<'a>(bytes: &'a [u8], refusal: &Refusal) -> Option<&'a [u8]>
    ensures { IfSome result (λ rest. spell_line (refusal_pieces refusal.now) ++ rest.now ≡ bytes.now) }
{
    match refusal {
        Refusal::Range { step } => behind_with_number(bytes, "range", u64::from(*step)),
        Refusal::Empty { step } => behind_with_number(bytes, "empty", u64::from(*step)),
        Refusal::NotCap { step } => behind_with_number(bytes, "notcap", u64::from(*step)),
        Refusal::WrongType { step } => behind_with_number(bytes, "wrongtype", u64::from(*step)),
        Refusal::BadTemplate { step } => behind_with_number(bytes, "badtemplate", u64::from(*step)),
        Refusal::Denied { step, right } => behind_denied(bytes, *step, *right),
        Refusal::Count => behind_word(bytes, "count"),
        Refusal::Full { what } => behind_full(bytes, *what),
        Refusal::Deep => behind_word(bytes, "deep"),
    }
}

/// What stands behind a refusal for want of a right.
fn behind_denied(bytes: &[u8], step: u8, right: Right) -> Option<&[u8]>
    ensures { IfSome result (λ rest. spell_line (Word (codes "denied") ∷ Number step ∷ Upper (name_of right) ∷ []) ++ rest.now ≡ bytes.now) }
{
    let space = behind_with_number(bytes, "denied", u64::from(step))?;
    let name = behind(space, b" ")?;
    behind(name, right.name().as_bytes())
}

/// What stands behind a refusal for want of room.
fn behind_full(bytes: &[u8], what: What8) -> Option<&[u8]>
    ensures { IfSome result (λ rest. spell_line (Word (codes "full") ∷ Word (full_word what) ∷ []) ++ rest.now ≡ bytes.now) }
{
    let word = behind(bytes, b"full ")?;
    behind(word, kind_name(what).as_bytes())
}

/// What stands behind a word alone.
#[inline(always)]
fn behind_word<'a>(bytes: &'a [u8], word: &str) -> Option<&'a [u8]>
    ensures { IfSome result (λ rest. spell_line (Word word.now ∷ []) ++ rest.now ≡ bytes.now) }
{
    behind(bytes, word.as_bytes())
}

/// What stands behind a word and a number.
#[inline(always)]
fn behind_with_number<'a>(bytes: &'a [u8], word: &str, n: u64) -> Option<&'a [u8]>
    ensures { IfSome result (λ rest. spell_line (Word word.now ∷ Number n ∷ []) ++ rest.now ≡ bytes.now) }
{
    let number = behind(bytes, word.as_bytes())?;
    behind_next(number, n)
}

/// What stands behind a word and a path.
#[inline(always)]
fn behind_with_one<'a>(bytes: &'a [u8], word: &str, of: &Path) -> Option<&'a [u8]>
    requires { IsPathValue of.now }
    ensures { IfSome result (λ rest. spell_line (Word word.now ∷ path_piece of.now ∷ []) ++ rest.now ≡ bytes.now) }
{
    let space = behind(bytes, word.as_bytes())?;
    let path = behind(space, b" ")?;
    behind_path(path, of)
}

/// What stands behind a word, a path and a number.
#[inline(always)]
fn behind_with_two<'a>(bytes: &'a [u8], word: &str, of: &Path, n: u64) -> Option<&'a [u8]>
    requires { IsPathValue of.now }
    ensures { IfSome result (λ rest. spell_line (Word word.now ∷ path_piece of.now ∷ Number n ∷ []) ++ rest.now ≡ bytes.now) }
{
    let number = behind_with_one(bytes, word, of)?;
    behind_next(number, n)
}

/// What stands behind a word, a path and two numbers.
#[inline(always)]
fn behind_with_three<'a>(
    bytes: &'a [u8],
    word: &str,
    of: &Path,
    first: u64,
    second: u64,
) -> Option<&'a [u8]>
    requires { IsPathValue of.now }
    ensures { IfSome result (λ rest. spell_line (Word word.now ∷ path_piece of.now ∷ Number first ∷ Number second ∷ []) ++ rest.now ≡ bytes.now) }
{
    let number = behind_with_two(bytes, word, of, first)?;
    behind_next(number, second)
}

/// What stands behind a word, a path, the slots of arguments and a last slot.
fn behind_with_arguments<'a>(
    bytes: &'a [u8],
    word: &str,
    of: &Path,
    args: &Args,
    into: &Slot,
) -> Option<&'a [u8]>
    requires { IsPathValue of.now }
    ensures { IfSome result (λ rest. spell_line (Word word.now ∷ path_piece of.now ∷ argument_pieces args.now into.now) ++ rest.now ≡ bytes.now) }
{
    let slots = behind_with_one(bytes, word, of)?;
    let last = behind_slots(slots, args)?;
    let rest = behind_next(last, u64::from(into.0))?;
    Some(rest)
}

/// What stands behind the slots of arguments, a space before each.
fn behind_slots<'a>(bytes: &'a [u8], args: &Args) -> Option<&'a [u8]>
    ensures { IfSome result (λ rest. flat_map (λ slot. 32 ∷ decimal slot) args.now ++ rest.now ≡ bytes.now) }
{
    let mut left = bytes;
    for slot in args.as_slice() {
        left = behind_next(left, u64::from(*slot))?;
    }
    Some(left)
}

/// What stands behind the indices of a path, which points join.
#[inline(always)]
fn behind_path<'a>(bytes: &'a [u8], path: &Path) -> Option<&'a [u8]>
    requires { IsPathValue path.now }
    ensures { IfSome result (λ rest. spell (path_piece path.now) ++ rest.now ≡ bytes.now) }
{
    let indices = path.as_slice();
    let mut left = behind_number(bytes, u64::from(indices[0]))?;
    for index in &indices[1..] {
        left = behind_number(behind(left, b".")?, u64::from(*index))?;
    }
    Some(left)
}

/// What stands behind a space and a number.
#[inline(always)]
fn behind_next<'a>(bytes: &'a [u8], n: u64) -> Option<&'a [u8]>
    ensures { IfSome result (λ rest. (32 ∷ decimal n) ++ rest.now ≡ bytes.now) }
{
    let number = behind(bytes, b" ")?;
    behind_number(number, n)
}

/// What stands behind a space and a number, of which most have up to three digits: these are compared where the call stands.
#[inline(always)]
fn behind_next_few<'a>(bytes: &'a [u8], n: u64) -> Option<&'a [u8]>
    ensures { IfSome result (λ rest. (32 ∷ decimal n) ++ rest.now ≡ bytes.now) }
{
    let number = behind(bytes, b" ")?;
    if n < 1000 {
        return behind_small(number, n);
    }
    behind_longer(number, n)
}

/// What stands behind a number.
#[tactic(auto, using(std::proofs::lemmas::Fmt::decimal_digit))]
#[inline(always)]
fn behind_number<'a>(bytes: &'a [u8], n: u64) -> Option<&'a [u8]>
    ensures { IfSome result (λ rest. decimal n ++ rest.now ≡ bytes.now) }
{
    if n < 10 {
        return behind_digit(bytes, n);
    }
    behind_longer(bytes, n)
}

/// What stands behind a number of any length, which stands apart for those of more than one digit. Most of these have up to
/// six digits.
#[inline(never)]
fn behind_longer<'a>(bytes: &'a [u8], n: u64) -> Option<&'a [u8]>
    ensures { IfSome result (λ rest. decimal n ++ rest.now ≡ bytes.now) }
{
    if n < 1000 {
        return behind_small(bytes, n);
    }
    if n < 1_000_000 {
        return behind_thousands(bytes, n);
    }
    let last = behind_longer(bytes, n / 1000)?;
    let rest = behind_three(last, n % 1000)?;
    Some(rest)
}

/// What stands behind a number of four to six digits.
#[inline(always)]
fn behind_thousands<'a>(bytes: &'a [u8], n: u64) -> Option<&'a [u8]>
    requires more { 1000 ≤ n }
    requires few { n < 1000000 }
    ensures { IfSome result (λ rest. decimal n ++ rest.now ≡ bytes.now) }
{
    let last = behind_small(bytes, n / 1000)?;
    let rest = behind_three(last, n % 1000)?;
    Some(rest)
}

/// What stands behind three digits, with which a longer number ends.
#[inline(always)]
fn behind_three<'a>(bytes: &'a [u8], n: u64) -> Option<&'a [u8]>
    requires { n < 1000 }
    ensures { IfSome result (λ rest. three_digits n ++ rest.now ≡ bytes.now) }
{
    let second = behind_digit(bytes, n / 100)?;
    let third = behind_digit(second, n / 10 % 10)?;
    behind_digit(third, n % 10)
}

/// What stands behind a number of up to three digits.
#[tactic(auto, using(std::proofs::lemmas::Fmt::decimal_digit, crate::proofs::Thousands::last_digit))]
#[inline(always)]
fn behind_small<'a>(bytes: &'a [u8], n: u64) -> Option<&'a [u8]>
    requires { n < 1000 }
    ensures { IfSome result (λ rest. decimal n ++ rest.now ≡ bytes.now) }
{
    if n < 10 {
        return behind_digit(bytes, n);
    }
    let last = behind_tens(bytes, n / 10)?;
    behind_digit(last, n % 10)
}

/// What stands behind a number of up to two digits.
#[tactic(auto, using(std::proofs::lemmas::Fmt::decimal_digit, crate::proofs::Thousands::two_digits))]
#[inline(always)]
fn behind_tens<'a>(bytes: &'a [u8], n: u64) -> Option<&'a [u8]>
    requires { n < 100 }
    ensures { IfSome result (λ rest. decimal n ++ rest.now ≡ bytes.now) }
{
    if n < 10 {
        return behind_digit(bytes, n);
    }
    let last = behind_digit(bytes, n / 10)?;
    behind_digit(last, n % 10)
}

/// What stands behind a digit.
#[inline(always)]
fn behind_digit<'a>(bytes: &'a [u8], digit: u64) -> Option<&'a [u8]>
    requires { digit < 10 }
    ensures { IfSome result (λ rest. (48 + digit) ∷ rest.now ≡ bytes.now) }
{
    match bytes.split_first() {
        Some((first, rest)) if u64::from(*first) == 48 + digit => Some(rest),
        _ => None,
    }
}
