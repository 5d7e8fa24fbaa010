//! Reading the JSON of a world (`docs/FORMATS.md`, "Worlds as JSON").

ghost use Rattle.std.specs.Prelude.{◌≡◌, ◌≤◌, ◌↔◌, Ok, IfOk, IsErrOf, IsTrue, false};
ghost use Rattle.serde_json.specs.Data.{Data, depth};
ghost use Rattle.serde_json.specs.Read.{max_depth};
ghost use Rattle.serde_json.specs.View.{view};
ghost use Rattle.serde_json.specs.Written.{has_float};
ghost use Rattle.hk_model.specs.WorldValue.{WorldValue, IsWorld};
ghost use Rattle.hk_format.specs.Worlds.{world};
ghost use Rattle.hk_json.specs.declared.errors.JsonError.TheVariants.{BadJson};
ghost use Rattle.hk_json.specs.Values.{value};
ghost use Rattle.hk_json.specs.Readings.{Reads, GivesWorld};
ghost use Rattle.hk_json.specs.Scripts.{script_said};

use crate::errors::JsonError;
use crate::script::script_said;
use crate::values::value_of;
use hk_format::ReadError;
use hk_load::read_world;
use hk_model::World;
use serde_json::Value;
use std::alloc::{AllocError, Global};

/// The world whose value the bytes are read as, as the text of `json_text` is. `BadJson` exactly where
/// the bytes have no reading, or one that is the value of no world. `NoMemory` is want of memory, and
/// is told too where what the value says would take a script of 4 GiB.
pub fn read_json(alloc: Global, bytes: &[u8]) -> Result<World, JsonError>
    ensures ok { IfOk result (λ w. Reads bytes.now (value w)) }
    ensures bad { IsErrOf result BadJson → (w : WorldValue) → IsWorld w → Reads bytes.now (value w) → ⊥ }
    ensures again { (w : WorldValue) → IsWorld w → Reads bytes.now (value w) → GivesWorld result w }
{
    let reading = reading(alloc, bytes)?;
    world_said(alloc, &reading)
}

/// The value that the bytes are read as. `BadJson` where they have no reading.
fn reading(alloc: Global, bytes: &[u8]) -> Result<Value, JsonError>
    ensures ok { IfOk result (λ v. Reads bytes.now (view v) × (depth (view v) ≤ max_depth)) }
    ensures bad { IsErrOf result BadJson → (d : Data) → Reads bytes.now d → ⊥ }
{
    match Value::from_slice(alloc, bytes) {
        Ok(value) => Ok(value),
        Err(error) => {
            if error.is_memory() {
                Err(JsonError::NoMemory)
            } else {
                Err(JsonError::BadJson)
            }
        }
    }
}

/// The world whose value this is. `BadJson` where the value is that of no world.
fn world_said(alloc: Global, reading: &Value) -> Result<World, JsonError>
    requires { depth (view reading.now) ≤ max_depth }
    ensures ok { IfOk result (λ w. view reading.now ≡ value w) }
    ensures bad { IsErrOf result BadJson → (w : WorldValue) → IsWorld w → view reading.now ≡ value w → ⊥ }
    ensures again { (w : WorldValue) → IsWorld w → view reading.now ≡ value w → GivesWorld result w }
{
    world_declared(alloc, reading)
}

/// The world that the script of a value declares, if it has this value. `BadJson` where it has not, and
/// where the script declares none.
fn world_declared(alloc: Global, reading: &Value) -> Result<World, JsonError>
    requires { depth (view reading.now) ≤ max_depth }
    ensures ok { IfOk result (λ w. (view reading.now ≡ value w) × (world (script_said (view reading.now)) ≡ Ok w)) }
    ensures bad { IsErrOf result BadJson → (w : WorldValue) → world (script_said (view reading.now)) ≡ Ok w → view reading.now ≡ value w → ⊥ }
{
    let script = script_said(alloc, reading)?;
    match world_of_script(alloc, script.as_bytes()) {
        Ok(world) => if_known(alloc, reading, world),
        Err(error) => Err(error),
    }
}

/// The world, if this is its value, and else `BadJson`.
fn if_known(alloc: Global, reading: &Value, world: World) -> Result<World, JsonError>
    requires { depth (view reading.now) ≤ max_depth }
    ensures ok { IfOk result (λ w. (w ≡ world) × (view reading.now ≡ value w)) }
    ensures bad { IsErrOf result BadJson → view reading.now ≡ value world → ⊥ }
{
    let known = value_of(alloc, &world)?;
    if same(alloc, reading, &known)? {
        Ok(world)
    } else {
        Err(JsonError::BadJson)
    }
}

/// The most bytes of a script whose lines all have numbers.
const MOST_BYTES: usize = 4294967293;

/// The world that a script declares. `BadJson` where it declares none.
#[tactic(auto, using(hk_text::proofs::LineCount::lines_few))]
fn world_of_script(alloc: Global, script: &[u8]) -> Result<World, JsonError>
    ensures ok { IfOk result (λ w. world script.now ≡ Ok w) }
    ensures bad { IsErrOf result BadJson → (w : WorldValue) → world script.now ≡ Ok w → ⊥ }
{
    if script.len() > MOST_BYTES {
        return Err(JsonError::NoMemory);
    }
    match read_world(alloc, script) {
        Ok(world) => Ok(world),
        Err(ReadError::Refused { .. }) => Err(JsonError::BadJson),
        Err(ReadError::NoMemory) => Err(JsonError::NoMemory),
    }
}

/// Whether two values are the same, by their texts. The second has no float.
fn same(alloc: Global, one: &Value, other: &Value) -> Result<bool, AllocError>
    requires one { depth (view one.now) ≤ max_depth }
    requires other { depth (view other.now) ≤ max_depth }
    requires whole { has_float (view other.now) ≡ false }
    ensures { IfOk result (λ yes. IsTrue yes ↔ (view one.now ≡ view other.now)) }
{
    let first = one.to_string(alloc)?;
    let second = other.to_string(alloc)?;
    Ok(first.as_str() == second.as_str())
}
