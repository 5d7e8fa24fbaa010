//! Rights of capabilities: single rights, sets of rights, and the words of bits that hold them
//! (`docs/RULES.md`, "Rights").
#![tactic(auto)]

pub mod right;
pub mod rights;
pub mod word;

pub use crate::right::Right;
pub use crate::rights::Rights;
pub use crate::word::RightsWord;
