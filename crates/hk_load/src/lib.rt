//! The items of a script as a world: names become numbers, and limits are kept; and the bytes of a
//! script as a world, by all three passes.
//!
//! `docs/FORMATS.md`, "Loading", states the rules.
#![tactic(auto)]

mod contents;
mod copies;
mod entries;
mod errors;
mod instructions;
mod items;
mod labels;
mod loading;
mod meanings;
mod names;
mod rights;
mod steps;
mod worlds;

pub use crate::errors::LoadError;
pub use crate::loading::{load, load_owned};
pub use crate::rights::rights_spelled;
pub use crate::worlds::{WorldError, read_world};
pub use hk_model::World;
