//! The laws of confinement: what a confined call, and all that is called under it, can change. They
//! hold of every history, whichever processors made its lines (`docs/RULES.md`, "Reaches").
//!
//! A law is a function that does nothing: calling it costs nothing, and gives its caller the law of
//! the lines that it has. Where a law needs that the world is one that can be run, its body asks the
//! world for its limit, since that call's clause tells so; else it is empty. The definitions are
//! those of `hk_model`, and no law looks at a kernel.
#![tactic(auto)]

ghost use Rattle.hk_model.specs.Running.{AreStepsOf};
ghost use Rattle.hk_model.specs.Confinement.{ConfinementLaw, ClosedCallLaw};
ghost use Rattle.hk_model.specs.Effects.{LeavesOthers, NamesLast};
ghost use Rattle.hk_model.specs.Changes.{HasOneList, ListsChanges};
ghost use Rattle.hk_model.specs.Reaches.{ReachLaw};
ghost use Rattle.hk_confine.specs.Untouched.{UntouchedLaw};

use hk_model::{Line, World};

/// The confinement law (`docs/RULES.md`, "Reaches"): each object that a line by an incarnation under
/// a confined call changes was made under that call, or is in the call's modifiable reach at the
/// moment before the line. That reach begins with the parameters that have MODIFY. It grows by the
/// entries with MODIFY in the lists of what is in the unconfined reach, and by what was made under the
/// call and stands in the list of what is in the modifiable reach.
///
/// Nothing is said of information that flows by words, by time or by refusals, nor of what others do
/// with what the call has returned.
///
/// `lines` are steps of `world` from its opening on, in the order of the history.
#[tactic(auto, using(crate::proofs::Confined::confinement))]
pub fn confinement_law(world: &World, lines: &[Line])
    requires { AreStepsOf world.now lines.now }
    ensures { ConfinementLaw world.now lines.now }
{
    let _ = world.limit();
}

/// The closed-call law (`docs/RULES.md`, "Reaches"): where no merged parameter of a confined call has
/// MODIFY or UNCONF, each object that a line by an incarnation under the call changes was made under
/// that call.
///
/// `lines` are steps of `world` from its opening on, in the order of the history.
pub fn closed_call_law(world: &World, lines: &[Line])
    requires { AreStepsOf world.now lines.now }
    ensures { ClosedCallLaw world.now lines.now }
{
    let _ = world.limit();
}

/// The confinement law over states (`docs/RULES.md`, "Reaches"): each line by an incarnation under a
/// confined call leaves every object that was neither made under the call nor is in its modifiable
/// reach at the moment before the line as it was, with all its parts. Or the object has gone: then it
/// was none of the opening, and after the line nothing names it.
///
/// `lines` are steps of `world` from its opening on, in the order of the history.
#[tactic(auto, using(crate::proofs::Untouched::untouched))]
pub fn untouched_law(world: &World, lines: &[Line])
    requires { AreStepsOf world.now lines.now }
    ensures { UntouchedLaw world.now lines.now }
{
    let _ = world.limit();
}

/// What a line changes (`docs/RULES.md`, "Under a call"): each object that stands before a line or
/// after it stands as it was, but for these.
///
/// - The one that the line is told to change. It keeps its type, its code and its parameters.
/// - The one that the line makes, where none stood before. A Create makes one with nothing in it, a
///   Copy one like the object that is copied.
/// - Those that go. They are none of the opening, and the line is a halt or a call that is not
///   refused.
///
/// So an object keeps its type, its code and its parameters for as long as it stands, and where one
/// has gone none comes again under its name.
///
/// `lines` are steps of `world` from its opening on, in the order of the history.
pub fn changes_law(world: &World, lines: &[Line])
    requires { AreStepsOf world.now lines.now }
    ensures others { LeavesOthers world.now lines.now }
    ensures names { NamesLast world.now lines.now }
{}

/// What the list of changes has (`docs/RULES.md`, "Changes and their reasons"): an item for a
/// confined call, a line and an object exactly where the line is by an incarnation under that call
/// and changes that object, so where the confinement law speaks of them. The items stand by rising
/// line, and for one line by rising number of the call; so none stands twice. And with the reasons,
/// each the least reach of its object, there is one such list at most.
///
/// `lines` are steps of `world` from its opening on, in the order of the history.
pub fn listed_changes_law(world: &World, lines: &[Line])
    requires { AreStepsOf world.now lines.now }
    ensures items { ListsChanges world.now lines.now }
    ensures one { HasOneList world.now lines.now }
{}

/// What the reaches of a call are (`docs/RULES.md`, "Reaches"): the least sets that hold the objects
/// of its parameters and all that the rules of the reaches add to them, at each moment from the call
/// on. So what a parameter and hops lead to passes each two tests of names that keep these rules.
pub fn reach_law(world: &World, lines: &[Line])
    ensures { ReachLaw world.now lines.now }
{}
