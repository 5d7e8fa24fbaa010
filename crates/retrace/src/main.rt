// A history that is made and taken back (`docs/RULES.md`, "Lines taken back"): it reads a script, makes
// steps of its world on three processors, in an order that only looks like chance, takes all lines back,
// and compares each state on the way back with the one that there was on the way forward.
#![tactic(auto)]

mod moments;
mod steps;

use crate::moments::{Told, retrace};
use hk_io::{StdIn, StdOut, read_all, write_all};
use hk_load::read_world;
use hk_model::limits::SCRIPT_BYTES;
use std::alloc::Global;
use std::process::ExitCode;

/// The status where a state or a line differs.
const DIFFERS: u8 = 1;

/// The status where the script can't be read, is refused, or memory is wanted.
const FAILED: u8 = 2;

/// What is written, and the status.
fn answer(alloc: Global, told: Told) -> Option<(String, u8)> {
    match told {
        Told::Same(count) => {
            let text = format!(in alloc; "{count} lines made and taken back\n").ok()?;
            Some((text, 0))
        }
        Told::Differs(moment) => {
            let text = format!(in alloc; "moment {moment} differs\n").ok()?;
            Some((text, DIFFERS))
        }
    }
}

#[tactic(auto, using(hk_text::proofs::LineCount::lines_few))]
fn main(rt: HostRuntime) -> ExitCode {
    let alloc = rt.alloc();
    let Ok(script) = read_all(alloc, &mut StdIn::new(rt.stdin()), SCRIPT_BYTES) else {
        return ExitCode::from(FAILED);
    };
    let Ok(world) = read_world(alloc, &script) else {
        return ExitCode::from(FAILED);
    };
    let Ok(told) = retrace(alloc, world) else {
        return ExitCode::from(FAILED);
    };
    let Some((text, status)) = answer(alloc, told) else {
        return ExitCode::from(FAILED);
    };
    match write_all(&mut StdOut::new(rt.stdout()), text.as_bytes()) {
        Ok(()) => ExitCode::from(status),
        Err(_) => ExitCode::from(FAILED),
    }
}
