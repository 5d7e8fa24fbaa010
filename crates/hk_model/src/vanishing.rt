//! Which objects stay (`docs/RULES.md`, "Objects that vanish"): what the definitions compute, in the
//! words of sets. A law is a function that does nothing.

ghost use Rattle.hk_model.specs.State.{State};
ghost use Rattle.hk_model.specs.Keeping.{Leaves, AreKept, AreRooted, kept_objects, rooted_objects};

/// In every state, the objects that the kernel keeps after an event are those of the greatest
/// supported set.
#[tactic(auto, using(crate::proofs::Keeping::kept_leaves))]
pub fn kept_are_greatest_supported()
    ensures { (s : State) → Leaves AreKept s (kept_objects s) }
{}

/// In every state, the objects that a collection of a full table leaves are the rooted ones: those of
/// the least closed set.
#[tactic(auto, using(crate::proofs::Keeping::rooted_leaves))]
pub fn rooted_are_least_closed()
    ensures { (s : State) → Leaves AreRooted s (rooted_objects s) }
{}
