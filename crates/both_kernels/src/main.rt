// One history, made by both kernels (`docs/ARCHITECTURE.md`, "The crates"): it reads a script, makes steps of its
// world on three processors by the plain kernel and by the table kernel, in an order that only looks like chance,
// and compares each line, and the last states as text.
#![tactic(auto)]

mod histories;

use crate::histories::{Told, compare};
use hk_io::{StdIn, StdOut, read_all, write_all};
use hk_load::read_world;
use hk_model::limits::SCRIPT_BYTES;
use std::alloc::Global;
use std::process::ExitCode;

/// The status where a line or the last state differs.
const DIFFERS: u8 = 1;

/// The status where the script can't be read, is refused, or memory is wanted.
const FAILED: u8 = 2;

/// What is written, and the status.
fn answer(alloc: Global, told: Told) -> Option<(String, u8)> {
    match told {
        Told::Same(count) => {
            let text = format!(in alloc; "{count} lines by both kernels\n").ok()?;
            Some((text, 0))
        }
        Told::Differs(count) => {
            let text = format!(in alloc; "line {count} differs\n").ok()?;
            Some((text, DIFFERS))
        }
    }
}

#[tactic(auto, using(hk_text::proofs::LineCount::lines_few))]
fn main(rt: HostRuntime) -> ExitCode {
    let alloc = rt.alloc();
    let Ok(script) = read_all(alloc, &mut StdIn::new(rt.stdin()), SCRIPT_BYTES) else {
        return ExitCode::from(FAILED);
    };
    let Ok(world) = read_world(alloc, &script) else {
        return ExitCode::from(FAILED);
    };
    let Ok(told) = compare(alloc, &world) else {
        return ExitCode::from(FAILED);
    };
    let Some((text, status)) = answer(alloc, told) else {
        return ExitCode::from(FAILED);
    };
    match write_all(&mut StdOut::new(rt.stdout()), text.as_bytes()) {
        Ok(()) => ExitCode::from(status),
        Err(_) => ExitCode::from(FAILED),
    }
}
