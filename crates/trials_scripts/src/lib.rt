//! Public calls run with ample memory, each against what was worked out by hand: the plain data, scripts that are read and kept, and
//! audit lines. What the program reads, prints and refuses, the rows compare.
//!
//! A crate with tests of its own is proved twice, so those of large crates stand here (`CONTRIBUTING.md`, "The gate").
#![tactic(auto)]

#[cfg(test)]
mod data;
#[cfg(test)]
mod items;
#[cfg(test)]
mod lines;
#[cfg(test)]
mod loaded;
