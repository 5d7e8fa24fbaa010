//! Numbers and entries as lines of a state (`docs/FORMATS.md`, "The text of a state").

ghost use Rattle.std.specs.Prelude.{◌≡◌, ◌++◌, OnOk, codes, map, string_bytes};
ghost use Rattle.hk_model.specs.declared.names.Proc.{Proc};
ghost use Rattle.hk_undo.specs.StateTexts.{numbers_line, place_line, place_lines, spaced};

use hk_model::{Entry, NoMemory, Proc};
use hk_print::{ByNumber, write_entry};

/// Writes a space and a number for each word.
fn write_spaced(out: &mut String, numbers: &[u32]) -> Result<(), NoMemory>
    ensures { OnOk result (string_bytes out.new ≡ string_bytes out.old ++ spaced numbers.now) }
{
    for number in numbers {
        write!(out, " {number}")?;
    }
    Ok(())
}

/// Writes the line of an object's words. None where there are none.
pub(crate) fn write_words(out: &mut String, words: &[u32]) -> Result<(), NoMemory>
    ensures { OnOk result (string_bytes out.new ≡ string_bytes out.old ++ numbers_line (codes "words") words.now) }
{
    if words.is_empty() {
        return Ok(());
    }
    out.push_str("words")?;
    write_spaced(out, words)?;
    out.push_str("\n")?;
    Ok(())
}

/// Writes a space and a number for each process.
fn write_procs(out: &mut String, procs: &[Proc]) -> Result<(), NoMemory>
    ensures { OnOk result (string_bytes out.new ≡ string_bytes out.old ++ spaced (map (λ (p : Proc). p.0) procs.now)) }
{
    for proc in procs {
        let number = proc.0;
        write!(out, " {number}")?;
    }
    Ok(())
}

/// Writes a line of a word and the numbers of these processes. None where there are none.
pub(crate) fn write_queue(out: &mut String, word: &str, procs: &[Proc]) -> Result<(), NoMemory>
    ensures { OnOk result (string_bytes out.new ≡ string_bytes out.old ++ numbers_line word.now (map (λ (p : Proc). p.0) procs.now)) }
{
    if procs.is_empty() {
        return Ok(());
    }
    out.push_str(word)?;
    write_procs(out, procs)?;
    out.push_str("\n")?;
    Ok(())
}

/// Writes the line of an entry or a slot. None where nothing stands there.
fn write_place(out: &mut String, word: &str, number: usize, entry: Entry) -> Result<(), NoMemory>
    ensures { OnOk result (string_bytes out.new ≡ string_bytes out.old ++ place_line word.now number entry) }
{
    if entry == Entry::Empty {
        return Ok(());
    }
    write!(out, "{word}{number} ")?;
    write_entry(out, &ByNumber, entry)?;
    out.push_str("\n")?;
    Ok(())
}

/// Writes the lines of entries or slots, which begin with this word.
pub(crate) fn write_places(out: &mut String, word: &str, entries: &[Entry]) -> Result<(), NoMemory>
    ensures { OnOk result (string_bytes out.new ≡ string_bytes out.old ++ place_lines word.now 0 entries.now) }
{
    for (number, entry) in entries.iter().enumerate() {
        write_place(out, word, number, *entry)?;
    }
    Ok(())
}
