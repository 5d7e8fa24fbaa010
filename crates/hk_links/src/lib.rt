//! Lists by index: a number of lists over one array of cells, each cell in at most one of them.
#![tactic(auto)]

mod chains;
mod links;
mod memory;
mod owners;
mod rows;

pub use chains::Chains;
pub use memory::NoMemory;
