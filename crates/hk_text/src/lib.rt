//! The text of a script: bytes as lines of pieces.
//!
//! `docs/FORMATS.md`, "Text" and "Pieces", states the rules.
#![tactic(auto)]

mod bytes;
mod errors;
mod numerals;
mod pieces;
mod reader;
mod text;

pub use crate::bytes::{first_of, is_register};
pub use crate::errors::TextError;
pub use crate::numerals::numeral;
pub use crate::pieces::{Piece, PieceKind, value};
pub use crate::reader::LineReader;
pub use crate::text::{TextLine, lines};
