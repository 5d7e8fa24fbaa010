//! Worlds as JSON, there and back.
//!
//! `docs/FORMATS.md`, "Worlds as JSON", states the value of a world.
#![tactic(auto)]

mod codes;
mod entries;
mod errors;
mod fields;
mod lines;
mod members;
mod objects;
mod reading;
mod script;
mod texts;
mod values;

pub use crate::errors::JsonError;
pub use crate::reading::read_json;
pub use crate::texts::json_text;
