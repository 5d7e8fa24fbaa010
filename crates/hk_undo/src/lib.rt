//! Lines of a history taken back, and states as text (`docs/RULES.md`, "Lines taken back";
//! `docs/FORMATS.md`, "The text of a state").
//!
//! `past` has the lines that were made, and takes the last back; `reversible` the kernel with the
//! control of its processes, `turning` the event of a process, and `frames` what it changes of the
//! frames. `texts` has a state as text, and `objects`, `places` and `processes` its parts.
#![tactic(auto)]

mod frames;
mod objects;
mod past;
mod places;
mod processes;
mod reversible;
mod texts;
mod turning;

pub use hk_model::{Cpu, End, Frame, Line, NoMemory, Proc, Snapshot, Text, World};
pub use past::Past;
pub use texts::state_text;
