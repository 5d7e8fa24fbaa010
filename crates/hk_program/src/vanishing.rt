//! The law of kept objects (`docs/RULES.md`, "Objects that vanish"). A law is a function that does
//! nothing, and gives its caller the law of the lines that it has.

ghost use Rattle.hk_model.specs.Running.{AreStepsOf};
ghost use Rattle.hk_model.specs.Kept.{KeptLaw};

use hk_model::{Line, World};

/// At every moment of a history exactly the kept objects stand: all that stand are the greatest set
/// in which each is an opening object, or is named by a slot, by a waiting process or by another of
/// the set. And an object stands exactly where it is an opening object, or is named by a slot of a
/// live incarnation, by a waiting process or by an object that stands. So no capability, no template,
/// no type and no waiting process names an object that does not stand.
///
/// `lines` are steps of `world` from its opening on, in the order of the history.
pub fn kept_law(world: &World, lines: &[Line])
    requires { AreStepsOf world.now lines.now }
    ensures { KeptLaw world.now lines.now }
{
    let _ = world.limit();
}
