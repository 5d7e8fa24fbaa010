//! The script that a value says: that of a world's value is the canonical script of this world.

ghost use Rattle.std.specs.Prelude.{◌≡◌, ◌++◌, OnOk, IfOk, string_bytes, map, codes, true, false};
ghost use Rattle.std.specs.List.{flat_map};
ghost use Rattle.serde_json.specs.Data.{Data};
ghost use Rattle.serde_json.specs.View.{view};
ghost use Rattle.hk_format.specs.Canonical.{limit_items};
ghost use Rattle.hk_print.specs.ItemTexts.{item_text};
ghost use Rattle.hk_json.specs.Scripts.{has, word_said, script_said, object_said, process_said};

use crate::codes::write_codes;
use crate::fields::{has, list_at, number_at, text_at, word_of};
use crate::lines::{write_entries, write_params};
use hk_model::NoMemory;
use hk_model::limits::USUAL_LIMIT;
use hk_print::write_words;
use serde_json::Value;
use std::alloc::Global;

/// The script that a value says. The only error is want of memory.
pub(crate) fn script_said(alloc: Global, value: &Value) -> Result<String, NoMemory>
    ensures { IfOk result (λ t. string_bytes t ≡ script_said (view value.now)) }
{
    let mut out = String::from_str(alloc, "hydra 1\n")?;
    write_limit(&mut out, number_at(value, "limit"))?;
    write_objects(alloc, &mut out, list_at(value, "objects"))?;
    write_codes(alloc, &mut out, list_at(value, "codes"))?;
    write_processes(&mut out, list_at(value, "processes"))?;
    Ok(out)
}

/// Writes the limit, where it is not the usual one.
fn write_limit(out: &mut String, limit: u64) -> Result<(), NoMemory>
    ensures { OnOk result (string_bytes out.new ≡ string_bytes out.old ++ flat_map item_text (limit_items limit)) }
{
    if limit != USUAL_LIMIT as u64 {
        write!(out, "limit {limit}\n")?;
    }
    Ok(())
}

/// Writes the items of objects.
fn write_objects(alloc: Global, out: &mut String, objects: &[Value]) -> Result<(), NoMemory>
    ensures { OnOk result (string_bytes out.new ≡ string_bytes out.old ++ flat_map (λ (d : Data). item_text (object_said d)) (map view objects.now)) }
{
    for object in objects {
        write_object(alloc, out, object)?;
    }
    Ok(())
}

/// Writes the item of an object. The key that only its kind has tells which it is.
fn write_object(alloc: Global, out: &mut String, object: &Value) -> Result<(), NoMemory>
    ensures { OnOk result (string_bytes out.new ≡ string_bytes out.old ++ item_text (object_said (view object.now))) }
{
    let name = text_at(object, "name");
    if has(object, "words") {
        return write_plain(alloc, out, object);
    }
    if has(object, "params") {
        return write_procedure(out, object);
    }
    if has(object, "count") {
        let count = number_at(object, "count");
        write!(out, "semaphore {name} {count}\n")?;
        return Ok(());
    }
    write!(out, "type {name}\n")?;
    Ok(())
}

/// Writes an object that has words: these stand before its entries.
fn write_plain(alloc: Global, out: &mut String, object: &Value) -> Result<(), NoMemory>
    requires { has (codes "words") (view object.now) ≡ true }
    ensures { OnOk result (string_bytes out.new ≡ string_bytes out.old ++ item_text (object_said (view object.now))) }
{
    let name = text_at(object, "name");
    let of = text_at(object, "type");
    write!(out, "object {name} {of}\n")?;
    let words = words_said(alloc, list_at(object, "words"))?;
    write_words(out, words.as_slice())?;
    write_entries(out, list_at(object, "entries"))?;
    out.push_str("end\n")?;
    Ok(())
}

/// The words that values are.
fn words_said(alloc: Global, values: &[Value]) -> Result<Vec<u32>, NoMemory>
    ensures { IfOk result (λ v. v.items ≡ map word_said (map view values.now)) }
{
    let mut words = Vec::with_capacity(alloc, values.len())?;
    for value in values {
        words.push(word_of(value))?;
    }
    Ok(words)
}

/// Writes a procedure: its parameters stand before its entries.
fn write_procedure(out: &mut String, object: &Value) -> Result<(), NoMemory>
    requires words { has (codes "words") (view object.now) ≡ false }
    requires params { has (codes "params") (view object.now) ≡ true }
    ensures { OnOk result (string_bytes out.new ≡ string_bytes out.old ++ item_text (object_said (view object.now))) }
{
    let name = text_at(object, "name");
    let code = text_at(object, "code");
    write!(out, "procedure {name} {code}\n")?;
    write_params(out, list_at(object, "params"))?;
    write_entries(out, list_at(object, "entries"))?;
    out.push_str("end\n")?;
    Ok(())
}

/// Writes the items of processes.
fn write_processes(out: &mut String, processes: &[Value]) -> Result<(), NoMemory>
    ensures { OnOk result (string_bytes out.new ≡ string_bytes out.old ++ flat_map (λ (d : Data). item_text (process_said d)) (map view processes.now)) }
{
    for process in processes {
        write_process(out, process)?;
    }
    Ok(())
}

/// Writes the item of a process.
fn write_process(out: &mut String, process: &Value) -> Result<(), NoMemory>
    ensures { OnOk result (string_bytes out.new ≡ string_bytes out.old ++ item_text (process_said (view process.now))) }
{
    let name = text_at(process, "name");
    let code = text_at(process, "code");
    write!(out, "process {name} {code}\n")?;
    write_entries(out, list_at(process, "entries"))?;
    out.push_str("end\n")?;
    Ok(())
}
