//! The canonical script of a world, and the spellings that audit lines share with it
//! (`docs/FORMATS.md`, "Canonical script").
#![tactic(auto)]

pub mod again;
mod codes;
pub mod entries;
mod heads;
pub mod instructions;
pub mod labels;
pub mod numbers;
mod objects;
pub mod operands;
mod processes;
pub mod rights;
pub mod script;
pub mod shapes;
pub mod spellers;
pub mod words;

pub use again::canonical_is_read_again;
pub use entries::{write_entry, write_param};
pub use instructions::instr_text;
pub use labels::{code_label, object_label};
pub use numbers::{write_next_number, write_number};
pub use operands::AsPiece;
pub use rights::{RIGHT_NUMBERS, right_of, rights_text, write_rights};
pub use script::script_text;
pub use shapes::{
    write_with_arguments, write_with_making, write_with_one, write_with_three, write_with_two,
    write_word,
};
pub use spellers::{ByNumber, Speller, kind_text};
pub use words::write_words;
