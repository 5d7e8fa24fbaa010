//! Whether a record is legal: whether each of its lines is the step of its processor, and its end
//! word that of the last state.
//!
//! `docs/FORMATS.md`, "Legal records", states what the contracts name.
#![tactic(auto)]

mod checking;
mod differences;
mod verdicts;

pub use checking::check;
pub use hk_model::{End, Line, Misstep, NoMemory, Verdict, World};
pub use verdicts::verdict_is_one;
