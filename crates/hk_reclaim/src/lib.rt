//! Reference counts by slots: what nothing names any longer is taken away, and what nothing reaches
//! (`docs/RULES.md`, "Objects that vanish"). Neither goes by recursion, and neither takes memory.
#![tactic(auto)]

mod counts;
mod finding;
mod made;
mod marks;
mod numbers;
mod per_slot;
mod reach;
mod sweep;

pub use counts::Counts;
pub use numbers::entry_name;
