//! Reading a canonical script again (`docs/FORMATS.md`, "Canonical script").

ghost use Rattle.std.specs.Prelude.{◌≡◌, Ok};
ghost use Rattle.hk_format.specs.Canonical.{canon};
ghost use Rattle.hk_format.specs.Worlds.{world};

use hk_model::World;

/// The canonical script of a world is a script, and it declares this world: what reads it, by all
/// three passes, gives this world. The function does nothing; its contract is the law.
#[tactic(auto, using(hk_format::proofs::WorldAgain::world_again))]
pub fn canonical_is_read_again(declared: &World)
    ensures { world (canon declared.now) ≡ Ok declared.now }
{
    let _limit = declared.limit();
}
