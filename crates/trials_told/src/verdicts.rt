// A process that returns at once: its record, and records that differ from it in one place.

use crate::worlds::world;
use hk_check::{check, verdict_is_one};
use hk_model::{Call, Cpu, End, Inc, Line, Misstep, Proc, Reply, Verdict, What};
use std::alloc::Global;
use std::test::Fail;

/// A process of a code without instructions.
const SCRIPT: &[u8] = b"hydra 1\ncode main\nend\nprocess a main\nend\n";

/// A line of process 0 in its base.
fn line(cpu: u8, what: What) -> Line {
    Line {
        cpu: Cpu(cpu),
        proc: Proc(0),
        inc: Inc(0),
        what,
        reply: Reply::Done,
    }
}

/// The dispatch and the return of the process, on these processors.
fn lines(first: u8, second: u8) -> [Line; 2] {
    [
        line(first, What::Dispatch),
        line(second, What::Call(Call::Leave { give: None })),
    ]
}

/// The verdict on a record of the process.
fn verdict(alloc: Global, lines: &[Line], end: End) -> Result<Verdict, Fail> {
    let world = world(alloc, SCRIPT)?;
    match check(alloc, &world, lines, end) {
        Ok(verdict) => {
            verdict_is_one(&world, lines, end, verdict, verdict);
            Ok(verdict)
        }
        Err(_) => Err("a verdict".into()),
    }
}

#[test]
fn the_steps_of_a_run_are_legal_and_others_are_told(rt: HostRuntime) -> Result<(), Fail> {
    let alloc = rt.alloc();
    let legal = verdict(alloc, &lines(15, 15), End::Done)?;
    assert!(rt; legal == Verdict::Legal);
    let other = verdict(alloc, &lines(1, 0), End::Done)?;
    let told = Verdict::Illegal {
        line: 2,
        cause: Misstep::Cpu,
    };
    assert!(rt; other == told);
    let stuck = verdict(alloc, &lines(15, 15), End::Stuck)?;
    let told = Verdict::Illegal {
        line: 3,
        cause: Misstep::EndWord,
    };
    assert!(rt; stuck == told);
    Ok(())
}
