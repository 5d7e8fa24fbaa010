//! Public calls run with ample memory, each against what was worked out by hand: those of the small crates that rows of the built program
//! do not show.
//!
//! A crate with tests of its own is proved twice, so those of small crates stand here (`CONTRIBUTING.md`, "The gate").
#![tactic(auto)]

#[cfg(test)]
mod counts;
#[cfg(test)]
mod rights;
#[cfg(test)]
mod streams;
#[cfg(test)]
mod walks;
