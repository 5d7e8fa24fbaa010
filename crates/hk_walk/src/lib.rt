//! Walks over the objects in slots, the latest of them remembered (`docs/RULES.md`, "Walks").
#![tactic(auto)]

mod hops;
mod laws;
mod trail;
mod walker;

pub use hops::reduced_rights;
pub use laws::{right_while_lists_appear, right_while_lists_stay};
pub use trail::Trail;
pub use walker::Walker;
