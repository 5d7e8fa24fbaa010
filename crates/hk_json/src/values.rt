//! The JSON value of a world (`docs/FORMATS.md`, "Worlds as JSON").

ghost use Rattle.std.specs.Prelude.{◌≡◌, IfOk, length};
ghost use Rattle.std.specs.List.{AllByRecursion};
ghost use Rattle.serde_json.specs.View.{view};
ghost use Rattle.hk_model.specs.WorldValue.{IsCode, IsInstr, IsTask};
ghost use Rattle.hk_format.specs.Names.{spoken};
ghost use Rattle.hk_json.specs.Values.{list_value, code_value, step_value, task_value, value};

use crate::entries::entries_value;
use crate::objects::objects_value;
use hk_model::{Code, Instr, NoMemory, Task, World};
use hk_print::{code_label, instr_text};
use serde_json::{Map, Value, json, put};
use std::alloc::Global;

/// The value of a world. The only error is want of memory.
pub(crate) fn value_of(alloc: Global, world: &World) -> Result<Value, NoMemory>
    ensures { IfOk result (λ v. view v ≡ value world.now) }
{
    let mut members = Map::new(alloc);
    let codes = codes_value(alloc, world)?;
    put(&mut members, alloc, "codes", codes)?;
    put(&mut members, alloc, "limit", Value::from(world.limit()))?;
    let objects = objects_value(alloc, world)?;
    put(&mut members, alloc, "objects", objects)?;
    let processes = processes_value(alloc, world)?;
    put(&mut members, alloc, "processes", processes)?;
    Ok(Value::Object(members))
}

/// The list of the values of a world's codes.
fn codes_value(alloc: Global, world: &World) -> Result<Value, NoMemory>
    ensures { IfOk result (λ v. view v ≡ list_value code_value world.now.codes) }
{
    let mut values = Vec::with_capacity(alloc, world.codes().len())?;
    for code in world.codes() {
        values.push(code_value(alloc, code)?)?;
    }
    Ok(Value::Array(values))
}

/// The value of a code.
fn code_value(alloc: Global, code: &Code) -> Result<Value, NoMemory>
    requires { IsCode code.now }
    ensures { IfOk result (λ v. view v ≡ code_value code.now) }
{
    let steps = steps_value(alloc, code.steps.as_slice())?;
    let label = code.label.as_str();
    Ok(json!(in alloc; {"name": label, "steps": steps})?)
}

/// The list of the texts of instructions.
fn steps_value(alloc: Global, steps: &[Instr]) -> Result<Value, NoMemory>
    requires { AllByRecursion (IsInstr (length steps.now)) steps.now }
    ensures { IfOk result (λ v. view v ≡ list_value step_value steps.now) }
{
    let mut values = Vec::with_capacity(alloc, steps.len())?;
    for step in steps {
        let text = instr_text(alloc, step, steps.len())?;
        values.push(Value::String(text))?;
    }
    Ok(Value::Array(values))
}

/// The list of the values of a world's processes.
fn processes_value(alloc: Global, world: &World) -> Result<Value, NoMemory>
    ensures { IfOk result (λ v. view v ≡ list_value (task_value (spoken world.now)) world.now.tasks) }
{
    let mut values = Vec::with_capacity(alloc, world.tasks().len())?;
    for process in world.tasks() {
        values.push(process_value(alloc, world, process)?)?;
    }
    Ok(Value::Array(values))
}

/// The value of a process.
fn process_value(alloc: Global, world: &World, process: &Task) -> Result<Value, NoMemory>
    requires { IsTask world.now process.now }
    ensures { IfOk result (λ v. view v ≡ task_value (spoken world.now) process.now) }
{
    let entries = entries_value(alloc, world, process.slots.as_slice())?;
    let code = code_label(world, process.code);
    let label = process.label.as_str();
    Ok(json!(in alloc; {"code": code, "entries": entries, "name": label})?)
}
