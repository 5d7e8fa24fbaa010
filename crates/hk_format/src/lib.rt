//! What the texts of scripts and records mean.
//!
//! `specs` has the grammars: of a line, of a script and what it loads, of audit lines and records, and
//! the canonical script. `src` has what the lines of a script say before names are looked up, and
//! why a text is refused. `docs/ARCHITECTURE.md` says which file answers which question.
#![tactic(auto)]

pub mod causes;
pub mod errors;
pub mod syntax;

pub use causes::{Cause, LoadCause, ParseCause, TextCause};
pub use errors::{LineError, ReadError};
pub use syntax::{Body, Head, Item, MakingText, Part, Verb, Written};
