//! What each process does, and what each processor runs (`docs/RULES.md`, "Steps of processors").
#![tactic(auto)]

mod processes;

pub use processes::Processes;
