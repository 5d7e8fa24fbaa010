//! What the rules permit and deny (`docs/RULES.md`, "The rules as inference rules" and "What each
//! call needs"). A law is a function that does nothing, and gives its caller what it says.

ghost use Rattle.hk_model.specs.Does.{RulesInferred};
ghost use Rattle.hk_model.specs.Needs.{DenialLaw, PermissionLaw};
ghost use Rattle.hk_model.specs.Running.{AreStepsOf};

use crate::lines::Line;
use crate::world::World;

/// In every state, for every process and call, the reply and the state that the rule table gives are
/// given by an inference rule. That the inference rules give nothing else is not proved.
#[tactic(auto, using(crate::proofs::RuleDoes::rule_does))]
pub fn rules_inferred()
    ensures { RulesInferred }
{}

/// A call that was answered and not refused had, at the moment before, every right that it needs,
/// where it needs it: LOAD and ENV along its path, the rights of its row at the path's end, ENV in
/// what it hands on, and what a template checks in what is merged.
///
/// `lines` are steps of `world` from its opening on, in the order of the history.
#[tactic(auto, using(crate::proofs::NeededRights::permission_law))]
pub fn permission_law(world: &World, lines: &[Line])
    requires { AreStepsOf world.now lines.now }
    ensures { PermissionLaw world.now lines.now }
{}

/// A call that was refused had, at the moment before, the cause that its refusal tells. Of a denial
/// the right is the first that is needed at its step and missing there.
///
/// `lines` are steps of `world` from its opening on, in the order of the history.
#[tactic(auto, using(crate::proofs::NeededRights::denial_law))]
pub fn denial_law(world: &World, lines: &[Line])
    requires { AreStepsOf world.now lines.now }
    ensures { DenialLaw world.now lines.now }
{}
