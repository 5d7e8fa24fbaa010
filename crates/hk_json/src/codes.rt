//! The lines that codes say, whose instructions are texts.

ghost use Rattle.std.specs.Prelude.{◌≡◌, ◌++◌, ◌+◌, ◌≤◌, [], ℕ, OnOk, IfOk, IfSome, false, string_bytes, map, length, slice_index_or, if◌then◌else◌};
ghost use Rattle.std.specs.List.{flat_map, list_any};
ghost use Rattle.serde_json.specs.View.{view};
ghost use Rattle.hk_format.specs.declared.syntax.Body.TheVariants.{LabelIs};
ghost use Rattle.hk_format.specs.Canonical.{label_text};
ghost use Rattle.hk_print.specs.ItemTexts.{body_text};
ghost use Rattle.hk_json.specs.Scripts.{code_said, steps_said, goes_to, place_named, place_labelled, behind_last_space};

use crate::fields::{list_at, text_at, text_of};
use hk_model::NoMemory;
use hk_text::numeral;
use serde_json::Value;
use std::alloc::Global;

/// Writes the items of codes. The only error is want of memory.
pub(crate) fn write_codes(alloc: Global, out: &mut String, codes: &[Value]) -> Result<(), NoMemory>
    ensures { OnOk result (string_bytes out.new ≡ string_bytes out.old ++ flat_map code_said (map view codes.now)) }
{
    for code in codes {
        write_code(alloc, out, code)?;
    }
    Ok(())
}

/// Writes the item of a code.
fn write_code(alloc: Global, out: &mut String, code: &Value) -> Result<(), NoMemory>
    ensures { OnOk result (string_bytes out.new ≡ string_bytes out.old ++ code_said (view code.now)) }
{
    let name = text_at(code, "name");
    write!(out, "code {name}\n")?;
    write_steps(alloc, out, list_at(code, "steps"))?;
    out.push_str("end\n")?;
    Ok(())
}

/// Writes the texts of instructions, each behind its label where some instruction goes to it.
fn write_steps(alloc: Global, out: &mut String, steps: &[Value]) -> Result<(), NoMemory>
    ensures { OnOk result (string_bytes out.new ≡ string_bytes out.old ++ steps_said (map view steps.now) 0 (map view steps.now)) }
{
    let marks = marks(alloc, steps)?;
    for (place, step) in steps.iter().enumerate() {
        write_label(out, marks[place], place)?;
        let text = text_of(step);
        write!(out, "{text}\n")?;
    }
    write_label(out, marks[steps.len()], steps.len())?;
    Ok(())
}

/// Writes the line of the label of a place, if it is marked.
fn write_label(out: &mut String, marked: bool, place: usize) -> Result<(), NoMemory>
    ensures { OnOk result (string_bytes out.new ≡ string_bytes out.old ++ (if marked then body_text (LabelIs (label_text place)) else [])) }
{
    if marked {
        write!(out, "label l{place}\n")?;
    }
    Ok(())
}

/// For each place of a code, and for its end, whether some instruction goes there.
fn marks(alloc: Global, steps: &[Value]) -> Result<Vec<bool>, NoMemory>
    ensures len { IfOk result (λ v. length v.items ≡ length steps.now + 1) }
    ensures marked { IfOk result (λ v. (n : ℕ) → n ≤ length steps.now → slice_index_or v.items n false ≡ list_any (goes_to n) (map view steps.now)) }
{
    let mut marks = vec![in alloc; false; steps.len() + 1]?;
    for step in steps {
        if let Some(to) = place_named(text_of(step).as_bytes()) {
            if to < marks.len() as u64 {
                marks[to as usize] = true;
            }
        }
    }
    Ok(marks)
}

/// The place that an instruction's text goes to, if it is a jump.
fn place_named(text: &[u8]) -> Option<u64>
    ensures { result ≡ place_named text.now }
{
    place_labelled(behind_last_space(text))
}

/// What stands behind the last space, or all where there is none.
fn behind_last_space(text: &[u8]) -> &[u8]
    ensures { result.now ≡ behind_last_space text.now text.now }
{
    let mut behind = text;
    for (at, byte) in text.iter().enumerate() {
        if *byte == b' ' {
            behind = &text[at + 1..];
        }
    }
    behind
}

/// The number of the place whose label a text is.
fn place_labelled(text: &[u8]) -> Option<u64>
    ensures { result ≡ place_labelled text.now }
{
    if text.is_empty() || text[0] != b'l' {
        return None;
    }
    numeral(&text[1..])
}
