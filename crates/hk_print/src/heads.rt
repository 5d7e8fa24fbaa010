//! The first lines of items (`docs/FORMATS.md`, "Grammar").

ghost use Rattle.std.specs.Prelude.{◌≡◌, ◌++◌, ◌∷◌, [], OnOk, string_bytes};

use hk_model::NoMemory;

/// Writes the first line of an item: its word with a space behind it, and its name.
#[inline(always)]
pub(crate) fn write_name(out: &mut String, word: &str, name: &str) -> Result<(), NoMemory>
    ensures { OnOk result (string_bytes out.new ≡ string_bytes out.old ++ (word.now ++ (name.now ++ 10 ∷ []))) }
{
    out.push_str(word)?;
    out.push_str(name)?;
    out.push('\n')?;
    Ok(())
}

/// Writes the first line of an item: its word with a space behind it, its name, and the text of its type or its code.
#[inline(always)]
pub(crate) fn write_head(out: &mut String, word: &str, name: &str, of: &str) -> Result<(), NoMemory>
    ensures { OnOk result (string_bytes out.new ≡ string_bytes out.old ++ (word.now ++ (name.now ++ 32 ∷ (of.now ++ 10 ∷ [])))) }
{
    out.push_str(word)?;
    out.push_str(name)?;
    out.push(' ')?;
    out.push_str(of)?;
    out.push('\n')?;
    Ok(())
}
