// The program: its words, its standard input and output, and the status that it ends with.
#![tactic(auto)]

use hk_io::{StdIn, StdOut};
use hk_model::Cpu;
use hk_procs::Gate;
use hk_top::{Slots, hydra, status};
use std::io::ErrorKind;
use std::process::ExitCode;
use std::{env, mem};

/// The status where the words can't be had for another reason than want of memory.
const NO_WORDS: u8 = 9;

/// A gate that holds nobody up.
struct Open;

impl Gate for Open {
    fn before(&self, _cpu: Cpu, _nth: u64) {}
}

fn main(rt: HostRuntime) -> ExitCode {
    let mut args = match env::args(&rt) {
        Ok(args) => args,
        Err(error) if error.kind() == ErrorKind::OutOfMemory => {
            return ExitCode::from(status::NO_MEMORY);
        }
        Err(_) => return ExitCode::from(NO_WORDS),
    };
    let _program = args.next();
    let words: Vec<String> = match args.collect(rt.alloc()) {
        Ok(words) => words,
        Err(_) => return ExitCode::from(status::NO_MEMORY),
    };
    let mut input = StdIn::new(rt.stdin());
    let mut output = StdOut::new(rt.stdout());
    let (status, kernel) = hydra(
        &rt,
        rt.alloc(),
        &words,
        &mut input,
        &mut output,
        &Open,
        &Slots,
    );
    mem::forget(kernel); // the process ends, so its tables need not be taken apart
    ExitCode::from(status)
}
