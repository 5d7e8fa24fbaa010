//! What the calls of a kernel ask and answer, apart from its state (`docs/RULES.md`, "The table of the calls").
#![tactic(auto)]

mod slots;
mod stop;
mod wanted;

pub use slots::{looked, slot_at};
pub use stop::Stop;
pub use wanted::Wanted;
