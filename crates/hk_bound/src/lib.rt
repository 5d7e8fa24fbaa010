//! The static bound: which objects of a world's opening each process may ever change, whatever the
//! programs are (`docs/RULES.md`, "The static bound").
#![tactic(auto)]

mod batches;
mod bounding;
mod closing;
mod copying;
mod forms;
mod gaps;
mod handing;
mod holdings;
mod marks;
mod meeting;
mod merging;
mod opening;
mod rows;
mod spreading;
mod waiting;

ghost use Rattle.hk_model.specs.Running.{AreStepsOf};
ghost use Rattle.hk_bound.specs.Bounds.{DiffersInCodes, BoundLaw};

pub use bounding::bound;
use hk_model::{Line, World};

/// The law of the bound (`docs/RULES.md`, "The static bound"): for every world that differs from this
/// one in the instructions of its codes alone, and every list of its steps, each object of the opening
/// that a line of a process changes is in that process's bound.
///
/// `lines` are steps of `other` from its opening on, in the order of the history, by any processors.
pub fn bound_law(world: &World, other: &World, lines: &[Line])
    requires codes { DiffersInCodes world.now other.now }
    requires steps { AreStepsOf other.now lines.now }
    ensures { BoundLaw world.now other.now lines.now }
{
    let _ = world.limit();
}
