//! The values of objects (`docs/FORMATS.md`, "Worlds as JSON").

ghost use Rattle.std.specs.Prelude.{◌≡◌, IfOk, codes};
ghost use Rattle.serde_json.specs.Data.{string};
ghost use Rattle.serde_json.specs.View.{view};
ghost use Rattle.hk_model.specs.WorldValue.{IsKind};
ghost use Rattle.hk_model.specs.declared.world.Kind.TheVariants as kind;
ghost use Rattle.hk_format.specs.Names.{spoken};
ghost use Rattle.hk_json.specs.Values.{list_value, number_value, three, object_value, kind_value};

use crate::entries::{entries_value, params_value};
use crate::members::put_text;
use hk_model::{Born, Entries, Kind, Name, NoMemory, Params, Words, World};
use hk_print::{code_label, object_label};
use serde_json::{Map, Value, json, put};
use std::alloc::Global;

/// The list of the values of a world's objects. The only error is want of memory.
pub(crate) fn objects_value(alloc: Global, world: &World) -> Result<Value, NoMemory>
    ensures { IfOk result (λ v. view v ≡ list_value (object_value (spoken world.now)) world.now.objects) }
{
    let mut values = Vec::with_capacity(alloc, world.objects().len())?;
    for object in world.objects() {
        values.push(object_value(alloc, world, object)?)?;
    }
    Ok(Value::Array(values))
}

/// The value of an object.
fn object_value(alloc: Global, world: &World, object: &Born) -> Result<Value, NoMemory>
    requires { IsKind world.now object.now.kind }
    ensures { IfOk result (λ v. view v ≡ object_value (spoken world.now) object.now) }
{
    let label = object.label.as_str();
    match &object.kind {
        Kind::TypeObject => Ok(json!(in alloc; {"kind": "type", "name": label})?),
        Kind::Plain { of, words, entries } => plain_value(alloc, world, label, *of, words, entries),
        Kind::Semaphore { count } => semaphore_value(alloc, label, *count),
        Kind::Procedure {
            code,
            params,
            entries,
        } => procedure_value(alloc, world, label, *code, params, entries),
    }
}

/// The value of a semaphore with so many tokens.
fn semaphore_value(alloc: Global, label: &str, count: u32) -> Result<Value, NoMemory>
    ensures { IfOk result (λ v. view v ≡ three (codes "count") (number_value count) (codes "kind") (string (codes "semaphore")) (codes "name") (string label.now)) }
{
    Ok(json!(in alloc; {"count": count, "kind": "semaphore", "name": label})?)
}

/// The value of an object of DATA, of UNIVERSAL or of a type of the script.
fn plain_value(
    alloc: Global,
    world: &World,
    label: &str,
    of: Name,
    words: &Words,
    entries: &Entries,
) -> Result<Value, NoMemory>
    requires { IsKind world.now (kind.Plain of words.now entries.now) }
    ensures { IfOk result (λ v. view v ≡ kind_value (spoken world.now) label.now (kind.Plain of words.now entries.now)) }
{
    let mut members = Map::new(alloc);
    let entries = entries_value(alloc, world, entries.as_slice())?;
    put(&mut members, alloc, "entries", entries)?;
    put_text(&mut members, alloc, "kind", "object")?;
    put_text(&mut members, alloc, "name", label)?;
    put_text(&mut members, alloc, "type", object_label(world, of))?;
    let words = words_value(alloc, words.as_slice())?;
    put(&mut members, alloc, "words", words)?;
    Ok(Value::Object(members))
}

/// The list of words.
fn words_value(alloc: Global, words: &[u32]) -> Result<Value, NoMemory>
    ensures { IfOk result (λ v. view v ≡ list_value number_value words.now) }
{
    let mut values = Vec::with_capacity(alloc, words.len())?;
    for word in words {
        values.push(Value::from(*word))?;
    }
    Ok(Value::Array(values))
}

/// The value of a procedure.
fn procedure_value(
    alloc: Global,
    world: &World,
    label: &str,
    code: u16,
    params: &Params,
    entries: &Entries,
) -> Result<Value, NoMemory>
    requires { IsKind world.now (kind.Procedure code params.now entries.now) }
    ensures { IfOk result (λ v. view v ≡ kind_value (spoken world.now) label.now (kind.Procedure code params.now entries.now)) }
{
    let mut members = Map::new(alloc);
    put_text(&mut members, alloc, "code", code_label(world, code))?;
    let entries = entries_value(alloc, world, entries.as_slice())?;
    put(&mut members, alloc, "entries", entries)?;
    put_text(&mut members, alloc, "kind", "procedure")?;
    put_text(&mut members, alloc, "name", label)?;
    let params = params_value(alloc, world, params.as_slice())?;
    put(&mut members, alloc, "params", params)?;
    Ok(Value::Object(members))
}
