//! Objects as lines of a state (`docs/FORMATS.md`, "The text of a state").

ghost use Rattle.std.specs.Prelude.{◌≡◌, ◌++◌, OnOk, string_bytes};
ghost use Rattle.std.specs.List.{flat_map};
ghost use Rattle.hk_model.specs.Targets.{is_listed};
ghost use Rattle.hk_undo.specs.StateTexts.{code_line, list_lines, object_lines, semaphore_lines, shown_object};

use crate::places::{write_places, write_queue, write_words};
use hk_model::{Entry, Name, NoMemory, Proc, Seen};

/// Whether objects of a type have a list.
fn is_listed(of: Name) -> bool
    ensures { result ≡ is_listed of }
{
    of.0 == 2 || of.0 == 4 || of.0 > 6
}

/// Writes the lines of an object's list, where its type has one.
fn write_list(out: &mut String, of: Name, entries: &[Entry]) -> Result<(), NoMemory>
    ensures { OnOk result (string_bytes out.new ≡ string_bytes out.old ++ list_lines of entries.now) }
{
    if !is_listed(of) {
        return Ok(());
    }
    let count = entries.len();
    write!(out, "entries {count}\n")?;
    write_places(out, "entry ", entries)
}

/// Writes the tokens of a semaphore, and who waits for one.
fn write_tokens(out: &mut String, of: Name, count: u32, waiters: &[Proc]) -> Result<(), NoMemory>
    ensures { OnOk result (string_bytes out.new ≡ string_bytes out.old ++ semaphore_lines of count waiters.now) }
{
    if of.0 != 3 {
        return Ok(());
    }
    write!(out, "count {count}\n")?;
    write_queue(out, "waiters", waiters)
}

/// Writes the code of a procedure.
fn write_code(out: &mut String, code: Option<u16>) -> Result<(), NoMemory>
    ensures { OnOk result (string_bytes out.new ≡ string_bytes out.old ++ code_line code) }
{
    if let Some(code) = code {
        write!(out, "code {code}\n")?;
    }
    Ok(())
}

/// Writes the lines of an object.
fn write_object(out: &mut String, object: &Seen) -> Result<(), NoMemory>
    ensures { OnOk result (string_bytes out.new ≡ string_bytes out.old ++ object_lines object.now) }
{
    let (name, of) = (object.name.0, object.of.0);
    write!(out, "object {name} {of}\n")?;
    write_words(out, object.words.as_slice())?;
    write_list(out, object.of, object.entries.as_slice())?;
    write_tokens(out, object.of, object.count, object.waiters.as_slice())?;
    write_code(out, object.code)
}

/// Writes the lines of an object that is no kernel type.
fn write_shown(out: &mut String, object: &Seen) -> Result<(), NoMemory>
    ensures { OnOk result (string_bytes out.new ≡ string_bytes out.old ++ shown_object object.now) }
{
    if object.name.0 < 7 {
        return Ok(());
    }
    write_object(out, object)
}

/// Writes the lines of all objects but the kernel types.
pub(crate) fn write_objects(out: &mut String, objects: &[Seen]) -> Result<(), NoMemory>
    ensures { OnOk result (string_bytes out.new ≡ string_bytes out.old ++ flat_map shown_object objects.now) }
{
    for object in objects {
        write_shown(out, object)?;
    }
    Ok(())
}
