//! The changes of a history (`docs/RULES.md`, "Changes and their reasons").

ghost use Rattle.std.specs.Prelude.{◌≡◌, ◌+◌, ◌<◌, ◌^◌, List, length, map, IfOk};
ghost use Rattle.hk_model.specs.declared.lines.Line.{Line};
ghost use Rattle.hk_model.specs.WorldValue.{WorldValue, IsWorld};
ghost use Rattle.hk_model.specs.Running.{AreStepsOf};
ghost use Rattle.hk_model.specs.Changes.{AreChanges, bare_changes};
ghost use Rattle.hk_model.specs.Confinement.{ConfinementLaw, ClosedCallLaw};
ghost use Rattle.hk_model.specs.Descent.{DescentLaw};
ghost use Rattle.hk_model.specs.Marks.{EnvironmentLaw};
ghost use Rattle.hk_report.specs.Families.{told_change};
ghost use Rattle.hk_report.specs.Reasons.{AreFew};
ghost use Rattle.hk_report.specs.Retold.{IsRetold};
ghost use Rattle.hk_report.specs.Written.{IsReport};

use crate::families::{BareChange, whole_changes};
use crate::replay::{Retelling, retold};
use crate::texts::write_count;
use hk_confine::{closed_call_law, confinement_law};
use hk_descent::{descent_law, environment_law};
use hk_model::{Change, Line, NoMemory, Text, World};
use std::alloc::Global;

/// The changes under confined calls (`docs/RULES.md`, "Changes and their reasons"): one for each
/// line that changes an object and each confined call that the line's incarnation is under. They
/// stand by rising line, and for one line by rising number of the call.
///
/// `lines` are steps of `world` from its opening on, in the order of the history. NoMemory is want of memory.
pub fn changes_under(
    alloc: Global,
    world: &World,
    lines: &[Line],
) -> Result<Vec<BareChange>, NoMemory>
    requires { AreStepsOf world.now lines.now }
    ensures { IfOk result (λ changes. changes.items ≡ map told_change (bare_changes world.now lines.now)) }
{
    let _limit = world.limit();
    let told = retold(alloc, world, lines)?;
    whole_changes(alloc, told.telling.families.changes.as_slice())
}

/// The changes under confined calls, each with its reason (`docs/RULES.md`, "Changes and their
/// reasons"): that the object was made under the call, or the least reach at the moment before the
/// line, which is there by `hk_confine::confinement_law`. They stand by rising line, and for one line
/// by rising number of the call. The laws of protection hold of the lines, whatever the answer is.
///
/// `lines` are steps of `world` from its opening on, in the order of the history. NoMemory is want of memory.
pub fn report(alloc: Global, world: &World, lines: &[Line]) -> Result<Vec<Change>, NoMemory>
    requires { AreStepsOf world.now lines.now }
    ensures changes { IfOk result (λ changes. AreChanges world.now lines.now changes.items) }
    ensures descent { DescentLaw world.now lines.now }
    ensures environment { EnvironmentLaw world.now lines.now }
    ensures confinement { ConfinementLaw world.now lines.now }
    ensures closed_call { ClosedCallLaw world.now lines.now }
{
    descent_law(world, lines);
    environment_law(world, lines);
    confinement_law(world, lines);
    closed_call_law(world, lines);
    let _limit = world.limit();
    let mut told = retold(alloc, world, lines)?.end(alloc)?;
    let changes = told.explain(alloc)?;
    Ok(changes)
}

impl Retelling {
    /// The changes under confined calls of the lines that have come, each with its reason, as text (`docs/FORMATS.md`,
    /// "Statuses and outputs"): what `changes_text` makes of what `report` tells, written as each reason is found,
    /// without a list of them. NoMemory is want of memory.
    pub fn text(self, alloc: Global) -> Result<Text, NoMemory>
        requires count { self.count + 1 < 2 ^ 32 }
        requires few { AreFew self.telling.families.changes.items }
        ensures { IfOk result (λ text. (w : WorldValue) → (lines : List Line) → IsWorld w → IsRetold w lines self → IsReport w lines text) }
    {
        let mut told = self.end(alloc)?;
        let mut out = told.text(alloc)?;
        write_count(&mut out, told.families.changes.len())?;
        let text = Text::from_string(out)?;
        Ok(text)
    }
}

/// What `report` tells, as text (`docs/FORMATS.md`, "Statuses and outputs"): what `changes_text` makes of it, written as each
/// reason is found, without a list of them.
///
/// `lines` are steps of `world` from its opening on, in the order of the history. NoMemory is want of memory.
pub fn report_text(alloc: Global, world: &World, lines: &[Line]) -> Result<Text, NoMemory>
    requires { AreStepsOf world.now lines.now }
    ensures { IfOk result (λ text. IsReport world.now lines.now text) }
{
    let _limit = world.limit();
    let text = retold(alloc, world, lines)?.text(alloc)?;
    Ok(text)
}
