//! The shapes that the lines of instructions and the texts of calls have: a word, and then its
//! operands with one space between (`docs/FORMATS.md`, "Texts of calls").

ghost use Rattle.std.specs.Prelude.{◌≡◌, ◌∷◌, ◌++◌, [], OnOk, string_bytes};
ghost use Rattle.std.specs.List.{flat_map};
ghost use Rattle.std.specs.Fmt.{decimal};
ghost use Rattle.hk_format.specs.AuditLines.{making_pieces};
ghost use Rattle.hk_format.specs.Operands.{argument_pieces, slot_piece};
ghost use Rattle.hk_format.specs.Pieces.{Word};
ghost use Rattle.hk_format.specs.Texts.{spell_line};

use crate::numbers::write_next_number;
use crate::operands::AsPiece;
use crate::rights::{write_both, write_rights};
use hk_model::{Args, Making, NoMemory, Slot};

/// Writes a word alone. The only error is want of memory.
#[inline(always)]
pub fn write_word(out: &mut String, word: &str) -> Result<(), NoMemory>
    ensures { OnOk result (string_bytes out.new ≡ string_bytes out.old ++ spell_line (Word word.now ∷ [])) }
{
    out.push_str(word)?;
    Ok(())
}

/// Writes a word and one piece. The only error is want of memory.
#[inline(always)]
pub fn write_with_one<A: AsPiece>(out: &mut String, word: &str, one: &A) -> Result<(), NoMemory>
    requires { A.has_piece one.now }
    ensures { OnOk result (string_bytes out.new ≡ string_bytes out.old ++ spell_line (Word word.now ∷ A.piece one.now ∷ [])) }
{
    out.push_str(word)?;
    one.write_next(out)
}

/// Writes a word and two pieces. The only error is want of memory.
#[inline(always)]
pub fn write_with_two<A: AsPiece, B: AsPiece>(
    out: &mut String,
    word: &str,
    first: &A,
    second: &B,
) -> Result<(), NoMemory>
    requires first { A.has_piece first.now }
    requires second { B.has_piece second.now }
    ensures { OnOk result (string_bytes out.new ≡ string_bytes out.old ++ spell_line (Word word.now ∷ A.piece first.now ∷ B.piece second.now ∷ [])) }
{
    out.push_str(word)?;
    first.write_next(out)?;
    second.write_next(out)
}

/// Writes a word and three pieces. The only error is want of memory.
#[inline(always)]
pub fn write_with_three<A: AsPiece, B: AsPiece, C: AsPiece>(
    out: &mut String,
    word: &str,
    first: &A,
    second: &B,
    third: &C,
) -> Result<(), NoMemory>
    requires first { A.has_piece first.now }
    requires second { B.has_piece second.now }
    requires third { C.has_piece third.now }
    ensures { OnOk result (string_bytes out.new ≡ string_bytes out.old ++ spell_line (Word word.now ∷ A.piece first.now ∷ B.piece second.now ∷ C.piece third.now ∷ [])) }
{
    out.push_str(word)?;
    first.write_next(out)?;
    second.write_next(out)?;
    third.write_next(out)
}

/// Writes a word, a piece, the slots of arguments and a last slot. The only error is want of memory.
pub fn write_with_arguments<A: AsPiece>(
    out: &mut String,
    word: &str,
    of: &A,
    args: &Args,
    into: &Slot,
) -> Result<(), NoMemory>
    requires { A.has_piece of.now }
    ensures { OnOk result (string_bytes out.new ≡ string_bytes out.old ++ spell_line (Word word.now ∷ A.piece of.now ∷ argument_pieces args.now into.now)) }
{
    write_with_one(out, word, of)?;
    write_slots(out, args)?;
    into.write_next(out)
}

/// Writes a word, a piece, what a template is made of and a last slot. The only error is want of
/// memory.
#[tactic(auto, using(crate::proofs::Pieces::template_spelled))]
pub fn write_with_making<A: AsPiece>(
    out: &mut String,
    word: &str,
    of: &A,
    making: &Making,
    into: &Slot,
) -> Result<(), NoMemory>
    requires { A.has_piece of.now }
    ensures { OnOk result (string_bytes out.new ≡ string_bytes out.old ++ spell_line (Word word.now ∷ A.piece of.now ∷ (making_pieces making.now ++ slot_piece into.now ∷ []))) }
{
    write_with_one(out, word, of)?;
    write_making(out, *making)?;
    into.write_next(out)
}

/// Writes the slots of arguments, each behind a space.
fn write_slots(out: &mut String, args: &Args) -> Result<(), NoMemory>
    ensures { OnOk result (string_bytes out.new ≡ string_bytes out.old ++ flat_map (λ slot. 32 ∷ decimal slot) args.now) }
{
    for slot in args.as_slice() {
        write_next_number(out, u64::from(*slot))?;
    }
    Ok(())
}

/// Writes what a template is made of, behind a space.
fn write_making(out: &mut String, making: Making) -> Result<(), NoMemory>
    ensures { OnOk result (string_bytes out.new ≡ string_bytes out.old ++ 32 ∷ spell_line (making_pieces making)) }
{
    match making {
        Making::Amplify { check, give } => {
            out.push_str(" amplify")?;
            write_both(out, check, give)?;
        }
        Making::Create { give } => {
            out.push_str(" create ")?;
            write_rights(out, give)?;
        }
    }
    Ok(())
}
