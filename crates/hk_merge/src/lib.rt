//! Merging a capability with a template, and the name space of a call (`docs/RULES.md`, "Merging"
//! and "Calls of procedures").
#![tactic(auto)]

mod merging;
mod name_space;
mod refusing;

pub use hk_model::Arg;
pub use merging::{amplify_form, merge};
pub use name_space::{build_space, fill_space};
pub use refusing::{allowed, confined_rights, held};
