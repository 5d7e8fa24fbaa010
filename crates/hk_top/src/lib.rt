//! The commands of `hydra`, from words and bytes to bytes and a status.
#![tactic(auto)]

mod agreement;
mod bounds;
mod causes;
mod commands;
mod counted;
mod followed;
mod generated;
mod maker;
mod outputs;
mod printed;
mod processors;
mod running;
mod served;
mod serving;
pub mod status;
mod sure;
mod taking_back;
mod words;
mod written;

pub use agreement::rules_agree;
pub use commands::{answer, hydra};
pub use maker::{Maker, Maps, Slots};
pub use printed::{
    one_processor_runs_alone, printed_record_is_legal, printed_record_is_read_whole,
    whole_run_is_one,
};
pub use served::{DueText, Served};
pub use serving::serve;
pub use sure::hydra_surely;
