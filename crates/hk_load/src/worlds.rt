//! Bytes as the world of a script (`docs/FORMATS.md`, "Reading a script").

ghost use Rattle.std.specs.Prelude.{◌≡◌, ◌<◌, ◌-◌, ◌^◌, ℕ, Ok, Err, IfOk, length};
ghost use Rattle.hk_format.specs.declared.causes.Cause.{Cause};
ghost use Rattle.hk_format.specs.Outcomes.{IsRefused};
ghost use Rattle.hk_format.specs.Texts.{lines_of};
ghost use Rattle.hk_format.specs.Worlds.{world};

use crate::loading::load_owned;
use hk_format::{Cause, ReadError};
use hk_model::World;
use hk_script::parse_source;
use std::alloc::Global;

/// Why bytes are no script of a world.
pub type WorldError = ReadError<Cause>;

/// The world that the bytes of a script declare, by the three passes (`docs/FORMATS.md`, "Text",
/// "Grammar" and "Loading"). `Refused` tells the first line that is refused, and its first cause.
/// Want of memory is `NoMemory`. The bytes are to have fewer than 2^32 - 1 lines, so that each, and
/// the line after the last, has a number.
pub fn read_world(alloc: Global, script: &[u8]) -> Result<World, WorldError>
    requires few { length (lines_of script.now) < 2 ^ 32 - 1 }
    ensures ok { IfOk result (λ w. world script.now ≡ Ok w) }
    ensures refused { (line : ℕ) (cause : Cause) → IsRefused result line cause → world script.now ≡ Err (line, cause) }
{
    let syntax = parse_source(alloc, script)?;
    Ok(load_owned(alloc, syntax)?)
}
