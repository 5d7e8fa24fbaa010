//! Public calls run with ample memory, each against what was worked out by hand: both kernels, and the control of processes.
//!
//! A crate with tests of its own is proved twice, so those of large crates stand here (`CONTRIBUTING.md`, "The gate").
#![tactic(auto)]

#[cfg(test)]
mod calls;
#[cfg(test)]
mod control;
#[cfg(test)]
mod machines;
#[cfg(test)]
mod worlds;
