//! Name spaces of 64 slots, held in place, and the stacks of calls that they stand in
//! (`docs/RULES.md`, "Objects, incarnations, processes").
#![tactic(auto)]

mod space;
mod stack;

pub use space::Space;
pub use stack::{Linkage, Stack, StackFrame};
