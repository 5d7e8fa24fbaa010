//! Audit lines and records as text, and read from their texts (`docs/FORMATS.md`, "Audit lines and
//! records").
#![tactic(auto)]

mod again;
mod audits;
mod calls;
mod events;
mod forms;
mod fronts;
mod lengths;
mod lines;
mod parts;
mod paths;
mod ranges;
mod read_calls;
mod read_replies;
mod reader;
mod reading;
mod record_lines;
mod records;
mod refusals;
mod rights;
mod scripts;
mod wanted;
mod writer;

pub use again::{
    call_has_text_of_its_step, line_is_read_again, record_is_read_again, record_text_is_of_one,
};
pub use audits::{Audit, RecordError, read_record};
pub use lengths::record_of_script_fits;
pub use lines::line_text;
pub use ranges::steps_have_texts;
pub use reader::Reader;
pub use reading::{read_body, read_line};
pub use records::record_text;
pub use writer::Writer;
