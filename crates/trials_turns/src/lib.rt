//! Public calls run with ample memory, each against what was worked out by hand: turns at a value, and a worker at a desk.
//!
//! A crate with tests of its own is proved twice, so those of `hk_turn` and `hk_procs` stand here (`CONTRIBUTING.md`, "The gate").
#![tactic(auto)]

#[cfg(test)]
mod turns;
#[cfg(test)]
mod workers;
