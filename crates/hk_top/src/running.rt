//! What each run has in common: the processor that runs alone, and the laws (`docs/RULES.md`, "Steps of processors").

ghost use Rattle.hk_model.specs.Running.{AreStepsOf};
ghost use Rattle.hk_top.specs.Runs.{IsLawful};

use hk_bound::bound_law;
use hk_confine::{changes_law, closed_call_law, confinement_law, reach_law, untouched_law};
use hk_descent::{chain_lines_law, descent_law, environment_law, one_descent_law};
use hk_model::{Cpu, Line, World, denial_law, permission_law};
use hk_program::kept_law;

/// The processor that runs a script alone.
pub(crate) const FIRST_PROCESSOR: Cpu = Cpu(0);

/// The laws over the lines of a history: of permission and denial, of descent, of confinement and what they speak of, of kept objects, and the static
/// bound. The function does nothing: its contract is what it is for.
pub(crate) fn laws(world: &World, lines: &[Line])
    requires { AreStepsOf world.now lines.now }
    ensures { IsLawful world.now lines.now }
{
    permission_law(world, lines);
    denial_law(world, lines);
    descent_law(world, lines);
    chain_lines_law(world, lines);
    one_descent_law(world, lines);
    environment_law(world, lines);
    confinement_law(world, lines);
    closed_call_law(world, lines);
    untouched_law(world, lines);
    changes_law(world, lines);
    reach_law(world, lines);
    kept_law(world, lines);
    bound_law(world, world, lines);
}
