//! The values of entries and parameters (`docs/FORMATS.md`, "Worlds as JSON").

ghost use Rattle.std.specs.Prelude.{◌≡◌, IfOk};
ghost use Rattle.std.specs.List.{AllByRecursion};
ghost use Rattle.serde_json.specs.View.{view};
ghost use Rattle.hk_model.specs.WorldValue.{IsEntry, IsParam};
ghost use Rattle.hk_model.specs.declared.entries.Entry.TheVariants.{Form};
ghost use Rattle.hk_format.specs.Names.{spoken};
ghost use Rattle.hk_json.specs.Values.{list_value, entry_value, param_value};

use hk_model::{Entry, NoMemory, Param, Template, World};
use hk_print::{kind_text, object_label, rights_text};
use serde_json::{Value, json};
use std::alloc::Global;

/// The list of the values of entries. The only error is want of memory.
pub(crate) fn entries_value(
    alloc: Global,
    world: &World,
    entries: &[Entry],
) -> Result<Value, NoMemory>
    requires { AllByRecursion (IsEntry world.now) entries.now }
    ensures { IfOk result (λ v. view v ≡ list_value (entry_value (spoken world.now)) entries.now) }
{
    let mut values = Vec::with_capacity(alloc, entries.len())?;
    for entry in entries {
        values.push(entry_value(alloc, world, *entry)?)?;
    }
    Ok(Value::Array(values))
}

/// The value of an entry.
fn entry_value(alloc: Global, world: &World, entry: Entry) -> Result<Value, NoMemory>
    requires { IsEntry world.now entry }
    ensures { IfOk result (λ v. view v ≡ entry_value (spoken world.now) entry) }
{
    match entry {
        Entry::Empty => Ok(Value::Null),
        Entry::Held(cap) => {
            let object = object_label(world, cap.name);
            let rights = rights_text(alloc, cap.rights)?;
            Ok(json!(in alloc; {"cap": object, "rights": rights})?)
        }
        Entry::Form(template) => template_value(alloc, world, template),
    }
}

/// The value of a template.
#[tactic(auto, using(hk_print::proofs::Spelled::kind_names))]
fn template_value(alloc: Global, world: &World, template: Template) -> Result<Value, NoMemory>
    requires { IsEntry world.now (Form template) }
    ensures { IfOk result (λ v. view v ≡ entry_value (spoken world.now) (Form template)) }
{
    match template {
        Template::Amplify { of, check, give } => {
            let kind = kind_text(alloc, world, of)?;
            let check = rights_text(alloc, check)?;
            let give = rights_text(alloc, give)?;
            Ok(json!(in alloc; {"amplify": kind, "check": check, "give": give})?)
        }
        Template::Create { of, give } => {
            let kind = kind_text(alloc, world, Some(of))?;
            let give = rights_text(alloc, give)?;
            Ok(json!(in alloc; {"create": kind, "give": give})?)
        }
    }
}

/// The list of the values of parameters. The only error is want of memory.
pub(crate) fn params_value(
    alloc: Global,
    world: &World,
    params: &[Param],
) -> Result<Value, NoMemory>
    requires { AllByRecursion (IsParam world.now) params.now }
    ensures { IfOk result (λ v. view v ≡ list_value (param_value (spoken world.now)) params.now) }
{
    let mut values = Vec::with_capacity(alloc, params.len())?;
    for param in params {
        values.push(param_value(alloc, world, *param)?)?;
    }
    Ok(Value::Array(values))
}

/// The value of a parameter.
#[tactic(auto, using(hk_print::proofs::Spelled::kind_names))]
fn param_value(alloc: Global, world: &World, param: Param) -> Result<Value, NoMemory>
    requires { IsParam world.now param }
    ensures { IfOk result (λ v. view v ≡ param_value (spoken world.now) param) }
{
    let kind = kind_text(alloc, world, param.of)?;
    let check = rights_text(alloc, param.check)?;
    let give = rights_text(alloc, param.give)?;
    Ok(json!(in alloc; {"check": check, "give": give, "of": kind})?)
}
