//! The two statements of the rules of calls (`docs/RULES.md`, "The rules as inference rules"). A law is a function that does nothing.

ghost use Rattle.hk_top.specs.Agreement.{RulesAgree};

/// In every state, for every process and call, the inference rules give a reply and a state if and only if the rule table gives
/// them.
#[tactic(auto, using(crate::proofs::RulesAgree::agree))]
pub fn rules_agree()
    ensures { RulesAgree }
{}
