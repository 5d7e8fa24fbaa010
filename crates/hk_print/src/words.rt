//! The `words` lines of an object (`docs/FORMATS.md`, "Canonical script").

ghost use Rattle.std.specs.Prelude.{◌≡◌, ◌++◌, ◌∷◌, ◌≤◌, ℕ, List, OnOk, IfOk, string_bytes};
ghost use Rattle.hk_model.specs.Limits.{line_bytes};
ghost use Rattle.hk_format.specs.Canonical.{word_parts, words_from};
ghost use Rattle.hk_print.specs.ItemTexts.{parts_text};
ghost use Rattle.hk_print.specs.WordLines.{begun_lines};

use hk_model::NoMemory;
use hk_model::limits::LINE_BYTES;
use itoa::Buffer;

/// The bytes of `words`.
const WORDS_BYTES: usize = 5;

/// Writes the words, in as few lines as keep each within its length. The only error is want of memory.
pub fn write_words(out: &mut String, words: &[u32]) -> Result<(), NoMemory>
    ensures { OnOk result (string_bytes out.new ≡ string_bytes out.old ++ parts_text (word_parts words.now)) }
{
    if words.is_empty() {
        return Ok(());
    }
    out.push_str("words")?;
    let mut used = WORDS_BYTES;
    for word in words {
        used = write_word(out, used, *word)?;
    }
    out.push_str("\n")?;
    Ok(())
}

/// Writes a word on a line that has so many bytes, where it fits, and else on the next. The bytes of
/// the line that the word stands on, which goes on behind it.
fn write_word(out: &mut String, used: usize, word: u32) -> Result<usize, NoMemory>
    requires { used ≤ line_bytes }
    ensures few { IfOk result (λ end. end ≤ line_bytes) }
    ensures text { IfOk result (λ end. (rest : List ℕ)
        → string_bytes out.new ++ begun_lines (words_from end rest) ≡ string_bytes out.old ++ begun_lines (words_from used (word ∷ rest))) }
{
    let mut digits = Buffer::new();
    let number = digits.format(word);
    let more = 1 + number.len();
    if used + more <= LINE_BYTES {
        write_behind_space(out, number)?;
        return Ok(used + more);
    }
    out.push_str("\nwords")?;
    write_behind_space(out, number)?;
    Ok(WORDS_BYTES + more)
}

/// Writes a space and a text.
fn write_behind_space(out: &mut String, text: &str) -> Result<(), NoMemory>
    ensures { OnOk result (string_bytes out.new ≡ string_bytes out.old ++ 32 ∷ text.now) }
{
    out.push(' ')?;
    out.push_str(text)?;
    Ok(())
}
