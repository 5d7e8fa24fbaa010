//! The JSON text of a world (`docs/FORMATS.md`, "Worlds as JSON").

ghost use Rattle.std.specs.Prelude.{◌≡◌, IfOk, IsUtf8, string_bytes};
ghost use Rattle.serde_json.specs.Written.{compact_text};
ghost use Rattle.hk_json.specs.Values.{value};
ghost use Rattle.hk_json.specs.Readings.{Reads};

use crate::values::value_of;
use hk_model::{NoMemory, Text, World};
use std::alloc::Global;

/// The text of the value of a world, with no blank and no line feed, each object's keys rising. It is
/// read as this value. The only error is want of memory.
pub fn json_text(alloc: Global, world: &World) -> Result<Text, NoMemory>
    ensures text { IfOk result (λ t. t ≡ compact_text (value world.now)) }
    ensures reads { IfOk result (λ t. Reads t (value world.now)) }
{
    let value = value_of(alloc, world)?;
    let text = value.to_string(alloc)?;
    let written = letters(text)?;
    Ok(written)
}

/// A string as a text, whose bytes are UTF-8.
fn letters(text: String) -> Result<Text, NoMemory>
    ensures same { IfOk result (λ t. t ≡ string_bytes text) }
    ensures utf8 { IfOk result (λ t. IsUtf8 t) }
{
    let _bytes = text.as_str().as_bytes();
    Ok(Text::from_string(text)?)
}
