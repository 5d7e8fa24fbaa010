//! Sources and sinks of bytes that count their faults, and whole reads and writes over them.
//!
//! `docs/STREAMS.md` states the rules that the contracts and the definitions under `specs/` name by section.
#![tactic(auto)]

mod fault;
mod plan;
mod planned;
mod standard;
mod stream;
mod sure;
mod whole;

pub use crate::fault::{Failed, NoMemory};
pub use crate::planned::{Bytes, Out};
pub use crate::standard::{StdIn, StdOut};
pub use crate::stream::{Sink, Source};
pub use crate::sure::{SureBytes, SureOut};
pub use crate::whole::{ReadError, WriteFault, read_all, write_all};
