//! The top call over streams that never fail (`docs/STREAMS.md`, "Sure streams").

ghost use Rattle.std.specs.Prelude.{◌≡◌, ◌⊎◌, ℕ, List, None, Some, map, option_map, string_bytes};
ghost use Rattle.hk_top.specs.Outputs.{Answer, Serves, stream};

use crate::commands::hydra;
use crate::maker::Maker;
use hk_io::{SureBytes, SureOut};
use hk_procs::Gate;
use std::alloc::Global;
use std::sync::Wait;
use std::thread::Threads;

/// What `serve` gives, by `hydra` over bytes in memory and a sink that takes every text: its status and its kernel, or
/// status 5, want of memory (clause `served`). No status is that of a fault.
#[tactic(auto, using(crate::proofs::NoFaults::never_fails, crate::proofs::NoFaults::is_served))]
pub fn hydra_surely<G: Gate + Sync, M: Maker, R: Threads + Wait + Sync>(
    rt: &R,
    alloc: Global,
    words: &[String],
    input: &mut SureBytes,
    gate: &G,
    kernels: &M,
) -> (u8, Option<M::Made>)
    ensures answer { Answer (map string_bytes words.now) (stream (Some input.old) (Some input.new) 0 0) (stream None None 0 0) result.0 (option_map M.Made.state result.1) }
    ensures read { result.0 ≡ 4 → ⊥ }
    ensures written { result.0 ≡ 6 → ⊥ }
    ensures served { (result.0 ≡ 5) ⊎ ((text : List ℕ) × Serves (map string_bytes words.now) input.old result.0 text (option_map M.Made.state result.1)) }
{
    let mut output = SureOut::new();
    hydra(rt, alloc, words, input, &mut output, gate, kernels)
}
