//! Public calls run with ample memory, each against what was worked out by hand: verdicts and reports that are given at once, and the
//! generated worlds. What the program prints of them, and of bounds and traces, the rows compare.
//!
//! A crate with tests of its own is proved twice, so those of large crates stand here (`CONTRIBUTING.md`, "The gate").
#![tactic(auto)]

#[cfg(test)]
mod generated;
#[cfg(test)]
mod histories;
#[cfg(test)]
mod report;
#[cfg(test)]
mod verdicts;
#[cfg(test)]
mod worlds;
