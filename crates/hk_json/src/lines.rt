//! The lines that entries and parameters say.

ghost use Rattle.std.specs.Prelude.{◌≡◌, ◌++◌, OnOk, string_bytes, map};
ghost use Rattle.std.specs.List.{flat_map};
ghost use Rattle.serde_json.specs.Data.{Data};
ghost use Rattle.serde_json.specs.View.{view};
ghost use Rattle.hk_print.specs.ItemTexts.{body_text};
ghost use Rattle.hk_json.specs.Scripts.{entry_said, param_said};
ghost use Rattle.hk_json.specs.Templates.{amplify_said, create_said};

use crate::fields::{has, text_at};
use hk_model::NoMemory;
use serde_json::Value;

/// Writes the lines of entries. The only error is want of memory.
pub(crate) fn write_entries(out: &mut String, entries: &[Value]) -> Result<(), NoMemory>
    ensures { OnOk result (string_bytes out.new ≡ string_bytes out.old ++ flat_map (λ (d : Data). body_text (entry_said d)) (map view entries.now)) }
{
    for entry in entries {
        write_entry(out, entry)?;
    }
    Ok(())
}

/// Writes the line of an entry. Its first key tells which it is.
fn write_entry(out: &mut String, entry: &Value) -> Result<(), NoMemory>
    ensures { OnOk result (string_bytes out.new ≡ string_bytes out.old ++ body_text (entry_said (view entry.now))) }
{
    if has(entry, "cap") {
        let object = text_at(entry, "cap");
        let rights = text_at(entry, "rights");
        write!(out, "cap {object} {rights}\n")?;
        return Ok(());
    }
    if has(entry, "amplify") {
        return write_amplify(out, entry);
    }
    if has(entry, "create") {
        return write_create(out, entry);
    }
    out.push_str("empty\n")?;
    Ok(())
}

/// Writes the line of an amplification template.
fn write_amplify(out: &mut String, entry: &Value) -> Result<(), NoMemory>
    ensures { OnOk result (string_bytes out.new ≡ string_bytes out.old ++ body_text (amplify_said (view entry.now))) }
{
    let kind = text_at(entry, "amplify");
    let check = text_at(entry, "check");
    let give = text_at(entry, "give");
    write!(out, "amplify {kind} {check} {give}\n")?;
    Ok(())
}

/// Writes the line of a creation template.
fn write_create(out: &mut String, entry: &Value) -> Result<(), NoMemory>
    ensures { OnOk result (string_bytes out.new ≡ string_bytes out.old ++ body_text (create_said (view entry.now))) }
{
    let of = text_at(entry, "create");
    let give = text_at(entry, "give");
    write!(out, "create {of} {give}\n")?;
    Ok(())
}

/// Writes the lines of parameters. The only error is want of memory.
pub(crate) fn write_params(out: &mut String, params: &[Value]) -> Result<(), NoMemory>
    ensures { OnOk result (string_bytes out.new ≡ string_bytes out.old ++ flat_map (λ (d : Data). body_text (param_said d)) (map view params.now)) }
{
    for param in params {
        write_param(out, param)?;
    }
    Ok(())
}

/// Writes the line of a parameter.
fn write_param(out: &mut String, param: &Value) -> Result<(), NoMemory>
    ensures { OnOk result (string_bytes out.new ≡ string_bytes out.old ++ body_text (param_said (view param.now))) }
{
    let kind = text_at(param, "of");
    let check = text_at(param, "check");
    let give = text_at(param, "give");
    write!(out, "param {kind} {check} {give}\n")?;
    Ok(())
}
