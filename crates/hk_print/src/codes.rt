//! The items of codes (`docs/FORMATS.md`, "Canonical script").

ghost use Rattle.std.specs.Prelude.{◌≡◌, ◌++◌, ◌∷◌, [], ◌+◌, ◌≤◌, ℕ, true, false, OnOk, IfOk, string_bytes, length, slice_index_or, if◌then◌else◌};
ghost use Rattle.std.specs.List.{AllByRecursion, flat_map, list_any};
ghost use Rattle.hk_format.specs.declared.syntax.Body.TheVariants.{LabelIs, StepIs};
ghost use Rattle.hk_model.specs.declared.world.Code.{Code};
ghost use Rattle.hk_model.specs.Limits.{code_limit};
ghost use Rattle.hk_model.specs.WorldValue.{IsCode, IsInstr};
ghost use Rattle.hk_format.specs.Canonical.{code_item, code_parts, jumps_to, label_text, written_of};
ghost use Rattle.hk_print.specs.ItemTexts.{body_text, item_text, parts_text};
ghost use Rattle.hk_print.specs.Jumps.{target_of};

use crate::heads::write_name;
use crate::instructions::write_instr;
use crate::numbers::write_number;
use hk_model::{Code, Instr, NoMemory, World};
use std::alloc::Global;

/// Writes the items of all codes of a world.
pub(crate) fn write_codes(alloc: Global, out: &mut String, world: &World) -> Result<(), NoMemory>
    ensures { OnOk result (string_bytes out.new ≡ string_bytes out.old ++ flat_map (λ (c : Code). item_text (code_item c)) world.now.codes) }
{
    for code in world.codes() {
        write_code(alloc, out, code)?;
    }
    Ok(())
}

/// Writes the item of a code.
fn write_code(alloc: Global, out: &mut String, code: &Code) -> Result<(), NoMemory>
    requires { IsCode code.now }
    ensures { OnOk result (string_bytes out.new ≡ string_bytes out.old ++ item_text (code_item code.now)) }
{
    write_name(out, "code ", code.label.as_str())?;
    write_steps(alloc, out, code.steps.as_slice())?;
    out.push_str("end\n")?;
    Ok(())
}

/// Writes the instructions of a code, each behind its label where some jump goes to it.
fn write_steps(alloc: Global, out: &mut String, steps: &[Instr]) -> Result<(), NoMemory>
    requires few { length steps.now ≤ code_limit }
    requires valid { AllByRecursion (IsInstr (length steps.now)) steps.now }
    ensures { OnOk result (string_bytes out.new ≡ string_bytes out.old ++ parts_text (code_parts steps.now 0 steps.now)) }
{
    let marks = marks(alloc, steps)?;
    for (place, step) in steps.iter().enumerate() {
        write_label(out, marks[place], place)?;
        write_step(out, step, steps.len())?;
    }
    write_label(out, marks[steps.len()], steps.len())?;
    Ok(())
}

/// Writes the line of an instruction of a code of so many.
fn write_step(out: &mut String, step: &Instr, len: usize) -> Result<(), NoMemory>
    requires { IsInstr len step.now }
    ensures { OnOk result (string_bytes out.new ≡ string_bytes out.old ++ body_text (StepIs (written_of step.now))) }
{
    write_instr(out, step, len)?;
    out.push('\n')?;
    Ok(())
}

/// Writes the line of the label of a place, if it is marked.
fn write_label(out: &mut String, marked: bool, place: usize) -> Result<(), NoMemory>
    ensures { OnOk result (string_bytes out.new ≡ string_bytes out.old ++ (if marked then body_text (LabelIs (label_text place)) else [])) }
{
    if marked {
        out.push_str("label l")?;
        write_number(out, place as u64)?;
        out.push('\n')?;
    }
    Ok(())
}

/// For each place of a code, and for its end, whether some jump goes there.
fn marks(alloc: Global, steps: &[Instr]) -> Result<Vec<bool>, NoMemory>
    requires few { length steps.now ≤ code_limit }
    requires valid { AllByRecursion (IsInstr (length steps.now)) steps.now }
    ensures len { IfOk result (λ v. length v.items ≡ length steps.now + 1) }
    ensures marked { IfOk result (λ v. (n : ℕ) → n ≤ length steps.now → slice_index_or v.items n false ≡ list_any (jumps_to n) steps.now) }
{
    let mut marks = vec![in alloc; false; steps.len() + 1]?;
    for step in steps {
        if let Some(to) = target(step) {
            marks[to as usize] = true;
        }
    }
    Ok(marks)
}

/// The number of the instruction that a jump goes to.
fn target(step: &Instr) -> Option<u16>
    ensures { result ≡ target_of step.now }
{
    match step {
        Instr::Goto { to } => Some(*to),
        Instr::IfEq { to, .. } => Some(*to),
        Instr::IfLess { to, .. } => Some(*to),
        Instr::IfDenied { to } => Some(*to),
        _ => None,
    }
}
