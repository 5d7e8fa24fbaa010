//! Laws of every state of a history, which the control of processes rests on.

ghost use Rattle.hk_model.specs.Running.{AreStepsOf};
ghost use Rattle.hk_model.specs.Shapes.{AreShapes};
ghost use Rattle.hk_program.specs.Machines.{OneFrameEach};

use hk_model::{Line, World};

/// What every state of a history has (`docs/RULES.md`, "Objects, incarnations, processes"): each
/// procedure that stands has a code; of the live incarnations of a process its current one is the
/// caller of none, every other one is the caller of one, and the current one lives where any does;
/// each caller lives, is of the process of the incarnation that it called, and called no other live
/// one; and the process has one frame for each of them.
///
/// `lines` are steps of `world` from its opening on, in the order of the history. The body only asks
/// the world for its limit, since that call's clause tells that the world is one that can be run.
pub fn shapes_law(world: &World, lines: &[Line])
    requires { AreStepsOf world.now lines.now }
    ensures shapes { AreShapes world.now lines.now }
    ensures frames { OneFrameEach world.now lines.now }
{
    let _ = world.limit();
}
