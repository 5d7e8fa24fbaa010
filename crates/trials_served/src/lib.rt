//! Public calls run with ample memory, each against what was worked out by hand: the commands over streams in memory, on one processor
//! and on several, and the desk at which processors take turns.
//!
//! A crate with tests of its own is proved twice, so those of large crates stand here (`CONTRIBUTING.md`, "The gate").
#![tactic(auto)]

#[cfg(test)]
mod commands;
#[cfg(test)]
mod desk;
#[cfg(test)]
mod processors;
#[cfg(test)]
mod serving;
#[cfg(test)]
mod standing;
#[cfg(test)]
mod wanting;
#[cfg(test)]
mod worlds;
