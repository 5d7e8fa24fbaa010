//! The lines of a run have texts (`docs/FORMATS.md`, "Audit lines and records").

ghost use Rattle.std.specs.Prelude.{All};
ghost use Rattle.hk_format.specs.LineRanges.{IsLine};
ghost use Rattle.hk_model.specs.Running.{AreStepsOf};

use hk_model::{Line, World};

/// Every line that is a step of a world has a text: its numbers are in the ranges of lines. The
/// function does nothing; its contract is the law.
#[tactic(auto, using(crate::proofs::StepsInRange::steps_in_range))]
pub fn steps_have_texts(world: &World, lines: &[Line])
    requires { AreStepsOf world.now lines.now }
    ensures { All IsLine lines.now }
{
    let _limit = world.limit();
    let _count = lines.len();
}
