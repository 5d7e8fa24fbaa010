//! The objects, each in a slot: a table of 65,536 slots with an index from names to slots (`docs/RULES.md`, "Objects,
//! incarnations, processes"). Once there is room for the table, only a longer list takes memory.
#![tactic(auto)]

mod body;
mod free_slots;
mod front;
mod name_index;
mod objects;
mod parts;
mod steps;

pub use body::{Body, Procedure};
pub use objects::{Objects, SlotNo};
pub use steps::Steps;
