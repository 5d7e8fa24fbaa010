//! Which world a desk is of (`docs/TURNS.md`, "The shared kernel").

use std::marker::Brand;

/// A world by a name. The call of a function that has the name in no type of its signature, and that
/// calls `Shared::start` inside, picks it.
pub trait Naming {
    ghost use Rattle.hk_model.specs.WorldValue.{WorldValue};

    /// The world.
    ghost world: { WorldValue };
}

// Who picks the name says which world it is; without that it is this one, which nobody uses.
impl Naming for Brand {
    ghost use Rattle.std.specs.Prelude.{[]};
    ghost use Rattle.hk_model.specs.WorldValue.{world_value};

    ghost world = { world_value 1 [] [] [] };
}
