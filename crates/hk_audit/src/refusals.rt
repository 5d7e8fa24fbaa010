//! How refusals are spelled in audit lines (`docs/FORMATS.md`, "Audit lines and records").

ghost use Rattle.std.specs.Prelude.{◌≡◌, ◌++◌, ◌∷◌, [], OnOk, codes, string_bytes};
ghost use Rattle.hk_format.specs.AuditLines.{full_word, refusal_pieces};
ghost use Rattle.hk_format.specs.Pieces.{Number, Word};
ghost use Rattle.hk_format.specs.Texts.{spell_line};

use hk_model::{NoMemory, Refusal, What8};
use hk_print::{write_with_one, write_with_two, write_word};

/// Writes a refusal.
pub(crate) fn write_refusal(out: &mut String, refusal: &Refusal) -> Result<(), NoMemory>
    ensures { OnOk result (string_bytes out.new ≡ string_bytes out.old ++ spell_line (refusal_pieces refusal.now)) }
{
    match refusal {
        Refusal::Range { step } => write_at_step(out, "range", *step),
        Refusal::Empty { step } => write_at_step(out, "empty", *step),
        Refusal::NotCap { step } => write_at_step(out, "notcap", *step),
        Refusal::Denied { step, right } => {
            write_with_two(out, "denied", &u32::from(*step), right)
        }
        Refusal::WrongType { step } => write_at_step(out, "wrongtype", *step),
        Refusal::BadTemplate { step } => write_at_step(out, "badtemplate", *step),
        Refusal::Count => write_word(out, "count"),
        Refusal::Full { what } => write_full(out, *what),
        Refusal::Deep => write_word(out, "deep"),
    }
}

/// Writes a word and the number of a step.
fn write_at_step(out: &mut String, word: &str, step: u8) -> Result<(), NoMemory>
    ensures { OnOk result (string_bytes out.new ≡ string_bytes out.old ++ spell_line (Word word.now ∷ Number step ∷ [])) }
{
    write_with_one(out, word, &u32::from(step))
}

/// Writes that there is no room for one more, and of what.
fn write_full(out: &mut String, what: What8) -> Result<(), NoMemory>
    ensures { OnOk result (string_bytes out.new ≡ string_bytes out.old ++ spell_line (Word (codes "full") ∷ Word (full_word what) ∷ [])) }
{
    out.push_str("full ")?;
    out.push_str(kind_name(what))?;
    Ok(())
}

/// The word for what has no room for one more.
pub(crate) fn kind_name(kind: What8) -> &'static str
    ensures { result.now ≡ full_word kind }
{
    match kind {
        What8::Words => "words",
        What8::Entries => "entries",
        What8::Objects => "objects",
        What8::Slots => "slots",
        What8::Tokens => "tokens",
    }
}
