//! The control of a process: which kernel call it makes next, and how a reply changes its frames.
//!
//! `docs/RULES.md`, "Control of a process", states the rules that the contracts name.
#![tactic(auto)]

mod answering;
mod calling;
mod carrying;
mod codes;
mod context;
mod ending;
mod laws;
mod machine;
mod operands;
mod running;
mod stepping;
mod vanishing;
mod watching;

pub use answering::after;
pub use carrying::{Carried, blank_line, carry_out};
pub use context::Context;
pub use ending::end_word;
pub use hk_model::{Frame, Todo};
pub use laws::shapes_law;
pub use machine::{Machine, beginnings};
pub use running::next;
pub use vanishing::kept_law;
pub use watching::{Nobody, Watch};
