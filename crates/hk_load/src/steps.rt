//! The lines of a code (`docs/FORMATS.md`, "Loading").

ghost use Rattle.std.specs.Prelude.{◌≡◌, []};
ghost use Rattle.hk_format.specs.Loading.{labels_from, instrs_of};
ghost use Rattle.hk_format.specs.Outcomes.{Becomes, GivesAll};
ghost use Rattle.hk_load.specs.Jumping.{HasNewLabels, step_added};

use crate::errors::{LineError, LoadError};
use crate::labels::Labels;
use crate::names::Declared;
use hk_format::{Body, LoadCause, Part};
use hk_model::limits::CODE_LIMIT;
use hk_model::{Instr, Items};
use std::alloc::Global;

/// The instructions of a code with these lines, which are used up, of the script that declares these names.
/// A line's UnknownName and BadRights come from the left, then TooMany.
pub fn steps(
    alloc: Global,
    declared: &Declared,
    parts: Items<Part>,
) -> Result<Items<Instr>, LoadError>
    requires { HasNewLabels [] parts }
    ensures { GivesAll (λ x. x) result (instrs_of (labels_from 0 parts) 0 parts) }
{
    let labels = Labels::of(alloc, declared, parts.as_slice())?;
    steps_with(alloc, &labels, parts.into_vec())
}

/// The instructions of these lines, whose jumps go to these labels.
fn steps_with(alloc: Global, labels: &Labels, parts: Vec<Part>) -> Result<Items<Instr>, LoadError>
    ensures { GivesAll (λ x. x) result (instrs_of labels.now 0 parts.items) }
{
    let mut steps = Items::from_vec(Vec::with_capacity(alloc, parts.len())?);
    for part in parts {
        let Part { line, body } = part;
        if let Err(error) = add_step(labels, &mut steps, body) {
            return Err(error.on_line(line));
        }
    }
    Ok(steps)
}

/// Adds the instruction of a line. A label is none.
fn add_step(labels: &Labels, steps: &mut Items<Instr>, body: Body) -> Result<(), LineError>
    ensures { Becomes result steps.new (step_added labels.now steps.old body) }
{
    let Body::StepIs(written) = body else {
        return Ok(());
    };
    let step = labels.instruction(written)?;
    if steps.len() >= CODE_LIMIT {
        return Err(LineError::Bad(LoadCause::TooMany));
    }
    steps.push(step)?;
    Ok(())
}
