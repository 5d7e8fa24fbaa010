// Worlds by their scripts.

ghost use Rattle.std.specs.Prelude.{◌<◌, ◌^◌, length};

use hk_load::read_world;
use hk_model::World;
use std::alloc::Global;

/// Reads a script of fewer than 2^31 bytes.
#[tactic(auto, using(hk_text::proofs::LineCount::lines_few))]
pub(crate) fn world(alloc: Global, script: &[u8]) -> Result<World, &'static str>
    requires { length script.now < 2 ^ 31 }
{
    read_world(alloc, script).ok().ok_or("a script")
}
