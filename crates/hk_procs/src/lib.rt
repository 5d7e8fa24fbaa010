//! Workers at a desk: each has a processor, and makes its steps at a kernel that all of them share.
//!
//! `docs/TURNS.md`, "The desk" and "Workers", states what the contracts name.
#![tactic(auto)]

mod answers;
mod desk;
mod gate;
mod notes;
mod worker;

pub use answers::{Asked, Called};
pub use desk::Desk;
pub use gate::Gate;
pub use notes::Noted;
pub use worker::{Ended, work};
