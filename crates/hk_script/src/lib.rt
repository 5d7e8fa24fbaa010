//! The grammar of a script: lines of pieces as items.
//!
//! `docs/FORMATS.md`, "Grammar", states the rules.
#![tactic(auto)]

mod errors;
mod forms;
mod heads;
mod instructions;
mod keyed;
mod line;
pub mod names;
mod parts;
mod progress;
mod reading;
mod script;
mod spelled;
mod verbs;

pub use crate::errors::{ParseError, SourceError};
pub use crate::names::Names;
pub use crate::script::{Syntax, parse, parse_source};
pub use crate::spelled::lines_spell_their_items;
pub use crate::verbs::verb_of;
pub use hk_format::{Body, Head, Item, MakingText, Part, Written};
