//! A turn at a shared value: threads change one value one after another, and the value stands for one list of entries.
//! `docs/TURNS.md` states the rule that the steps keep.
#![tactic(auto)]

mod memory;
mod pass;
mod rest;
mod rule;
mod steps;
mod story;
mod turn;
mod turns;
mod view;

pub use memory::NoMemory;
pub use pass::Pass;
pub use rest::Rest;
pub use story::Story;
pub use turn::Turn;
pub use turns::Turns;
pub use view::View;
