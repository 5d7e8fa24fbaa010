//! How calls are spelled in audit lines (`docs/FORMATS.md`, "Texts of calls").

ghost use Rattle.std.specs.Prelude.{◌≡◌, ◌++◌, OnOk, string_bytes};
ghost use Rattle.hk_format.specs.AuditLines.{call_pieces};
ghost use Rattle.hk_format.specs.LineRanges.{IsCall};
ghost use Rattle.hk_format.specs.Texts.{spell_line};

use hk_model::{Call, NoMemory};
use hk_print::{
    write_with_arguments, write_with_making, write_with_one, write_with_three, write_with_two,
    write_word,
};

/// Writes a call: its word, its path and its other operands, with one space between.
pub(crate) fn write_call(out: &mut String, call: &Call) -> Result<(), NoMemory>
    requires { IsCall call.now }
    ensures { OnOk result (string_bytes out.new ≡ string_bytes out.old ++ spell_line (call_pieces call.now)) }
{
    match call {
        Call::Get { of, at } => write_with_two(out, "getdata", of, at),
        Call::Put { of, at, word } => write_with_three(out, "putdata", of, at, word),
        Call::Add { of, word } => write_with_two(out, "adddata", of, word),
        Call::Length { of } => write_with_one(out, "length", of),
        Call::Load { from, into } => write_with_two(out, "load", from, into),
        Call::Store { list, at, from } => write_with_three(out, "store", list, at, from),
        Call::Append { list, from } => write_with_two(out, "append", list, from),
        Call::Erase { list, at } => write_with_two(out, "erase", list, at),
        Call::Drop { slot } => write_with_one(out, "drop", slot),
        Call::Restrict { slot, keep } => write_with_two(out, "restrict", slot, keep),
        Call::Look { of } => write_with_one(out, "look", of),
        Call::MakeTemplate { of, making, into } => {
            write_with_making(out, "template", of, making, into)
        }
        Call::Create { by, into } => write_with_two(out, "create", by, into),
        Call::Merge { with, cap, into } => write_with_three(out, "merge", with, cap, into),
        Call::Copy { of, into } => write_with_two(out, "copy", of, into),
        Call::Enter { proc, args, into } => write_with_arguments(out, "call", proc, args, into),
        Call::Leave { give: Some(slot) } => write_with_one(out, "return", slot),
        Call::Leave { give: None } => write_word(out, "return"),
        Call::P { of } => write_with_one(out, "p", of),
        Call::V { of } => write_with_one(out, "v", of),
        Call::Yield => write_word(out, "yield"),
    }
}
