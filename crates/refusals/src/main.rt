// The kernel in a program of one's own (`docs/EMBEDDING.md`): it reads a script, makes the first
// steps of its run on processor 0, and tells how many of them were refused.
#![tactic(auto)]

mod run;

use crate::run::refused_steps;
use hk_io::{StdIn, StdOut, read_all, write_all};
use hk_load::read_world;
use hk_model::limits::SCRIPT_BYTES;
use hk_plain::Plain;
use std::process::ExitCode;

/// How many steps are made at most.
const STEPS: u32 = 1000;

/// The status where the script can't be read, is refused, or memory is wanted.
const FAILED: u8 = 1;

#[tactic(auto, using(hk_text::proofs::LineCount::lines_few))]
fn main(rt: HostRuntime) -> ExitCode {
    let alloc = rt.alloc();
    let Ok(script) = read_all(alloc, &mut StdIn::new(rt.stdin()), SCRIPT_BYTES) else {
        return ExitCode::from(FAILED);
    };
    let Ok(world) = read_world(alloc, &script) else {
        return ExitCode::from(FAILED);
    };
    let Ok(kernel) = Plain::new(alloc, &world) else {
        return ExitCode::from(FAILED);
    };
    let Ok(count) = refused_steps(alloc, &world, kernel, STEPS) else {
        return ExitCode::from(FAILED);
    };
    let Ok(text) = format!(in alloc; "{count} refused\n") else {
        return ExitCode::from(FAILED);
    };
    match write_all(&mut StdOut::new(rt.stdout()), text.as_bytes()) {
        Ok(()) => ExitCode::SUCCESS,
        Err(_) => ExitCode::from(FAILED),
    }
}
