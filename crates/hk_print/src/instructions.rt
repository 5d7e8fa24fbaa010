//! How an instruction is spelled (`docs/FORMATS.md`, "Texts of calls").

ghost use Rattle.std.specs.Prelude.{◌≡◌, ◌++◌, IfOk, OnOk, string_bytes};
ghost use Rattle.hk_model.specs.WorldValue.{IsInstr, IsRoute};
ghost use Rattle.hk_format.specs.Texts.{spell_line};
ghost use Rattle.hk_format.specs.Spelling.{written_pieces};
ghost use Rattle.hk_format.specs.Canonical.{written_of, making_text};
ghost use Rattle.hk_format.specs.declared.syntax.Written.TheVariants as written;

use crate::operands::{Register, Target};
use crate::shapes::{
    write_with_arguments, write_with_making, write_with_one, write_with_three, write_with_two,
    write_word,
};
use hk_model::{Instr, Making, NoMemory, Route, Slot};
use std::alloc::Global;

/// The line of an instruction of a code of `len` instructions, without its line feed. Jumps name
/// the label of the place that they go to, `l` and its number. The only error is want of memory.
pub fn instr_text(alloc: Global, instr: &Instr, len: usize) -> Result<String, NoMemory>
    requires { IsInstr len instr.now }
    ensures { IfOk result (λ t. string_bytes t ≡ spell_line (written_pieces (written_of instr.now))) }
{
    let mut out = String::new(alloc);
    write_instr(&mut out, instr, len)?;
    Ok(out)
}

/// Writes what `instr_text` gives.
pub(crate) fn write_instr(out: &mut String, instr: &Instr, len: usize) -> Result<(), NoMemory>
    requires { IsInstr len instr.now }
    ensures { OnOk result (string_bytes out.new ≡ string_bytes out.old ++ spell_line (written_pieces (written_of instr.now))) }
{
    match instr {
        Instr::Get { of, at, reg } => write_with_three(out, "getdata", of, at, &Register(*reg)),
        Instr::Put { of, at, word } => write_with_three(out, "putdata", of, at, word),
        Instr::Add { of, word } => write_with_two(out, "adddata", of, word),
        Instr::Length { of, reg } => write_with_two(out, "length", of, &Register(*reg)),
        Instr::Load { from, into } => write_with_two(out, "load", from, into),
        Instr::Store { list, at, from } => write_with_three(out, "store", list, at, from),
        Instr::Append { list, from } => write_with_two(out, "append", list, from),
        Instr::Erase { list, at } => write_with_two(out, "erase", list, at),
        Instr::Drop { slot } => write_with_one(out, "drop", slot),
        Instr::Restrict { slot, keep } => write_with_two(out, "restrict", slot, keep),
        Instr::Look { of, reg } => write_with_two(out, "look", of, &Register(*reg)),
        Instr::MakeTemplate { of, making, into } => write_template(out, of, making, into),
        Instr::Create { by, into } => write_with_two(out, "create", by, into),
        Instr::Merge { with, cap, into } => write_with_three(out, "merge", with, cap, into),
        Instr::Copy { of, into } => write_with_two(out, "copy", of, into),
        Instr::Enter { proc, args, into } => write_with_arguments(out, "call", proc, args, into),
        Instr::Leave { give: Some(slot) } => write_with_one(out, "return", slot),
        Instr::Leave { give: None } => write_word(out, "return"),
        Instr::P { of } => write_with_one(out, "p", of),
        Instr::V { of } => write_with_one(out, "v", of),
        Instr::Yield => write_word(out, "yield"),
        Instr::SetReg { reg, to } => write_with_two(out, "set", &Register(*reg), to),
        Instr::AddReg { reg, by } => write_with_two(out, "add", &Register(*reg), by),
        Instr::Goto { to } => write_with_one(out, "goto", &Target(*to)),
        Instr::IfEq { left, right, to } => {
            write_with_three(out, "ifeq", left, right, &Target(*to))
        }
        Instr::IfLess { left, right, to } => {
            write_with_three(out, "iflt", left, right, &Target(*to))
        }
        Instr::IfDenied { to } => write_with_one(out, "ifdenied", &Target(*to)),
    }
}

/// The line that makes a template.
#[tactic(auto, using(crate::proofs::Pieces::made_as_written))]
fn write_template(
    out: &mut String,
    of: &Route,
    making: &Making,
    into: &Slot,
) -> Result<(), NoMemory>
    requires { IsRoute of.now }
    ensures { OnOk result (string_bytes out.new ≡ string_bytes out.old ++ spell_line (written_pieces (written.MakeTemplate of.now (making_text making.now) into.now))) }
{
    write_with_making(out, "template", of, making, into)
}
