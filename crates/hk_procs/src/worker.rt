//! A worker, which makes the steps of one processor (`docs/TURNS.md`, "Workers").

ghost use Rattle.std.specs.Prelude.{◌≡◌, ◌<◌};
ghost use Rattle.hk_model.specs.Running.{AreStepsOf};
ghost use Rattle.hk_turn.specs.Passes.{pass_number, seen_list};
ghost use Rattle.hk_procs.specs.Notes.{cpu_of, lines_of};
ghost use Rattle.hk_procs.specs.Shown.{RunsNothing, HandsOut};
ghost use Rattle.hk_procs.specs.Ends.{Ends, Holds, ComesTo};

use crate::answers::{Asked, Called};
use crate::desk::Desk;
use crate::gate::Gate;
use crate::notes::Noted;
use hk_model::{Cpu, Proc, World};
use hk_program::{Context, next};
use hk_turn::{Pass, Rest};
use std::alloc::Global;
use std::sync::Wait;

/// How a worker has ended.
#[derive(Clone, Copy, PartialEq, Eq, Debug)]
pub enum Ended {
    /// The limit on events is reached, or no process is ready and none runs.
    Over,
    /// A processor has stopped for want of memory.
    Stopped,
    /// This processor has stopped for want of memory.
    NoMemory,
}

/// How it goes on after a call of the desk.
#[derive(Drop)]
pub(crate) enum Outcome {
    // With the process that its processor runs, if there is one, and the control of that process.
    Goes(Option<(Proc, Context)>),
    // With nothing to run, until others have gone on.
    Idles,
    // There is no more to do.
    Ends(Ended),
}

/// Makes steps of the pass's processor at the desk until there is no more to do
/// (`docs/TURNS.md`, "Workers"). It may wait.
///
/// The world is the desk's, and the pass shows that its processor runs nothing. The gate is
/// told of each call of the desk beforehand, with the number of calls before it. The pass that comes
/// back is the desk's and has the same number. Over comes only where that pass shows that the limit is
/// reached, or that no process is ready and none runs; Stopped and NoMemory only where what it has
/// seen ends with a stop, at NoMemory of its own processor.
pub fn work<D: Desk, G: Gate, R: Wait>(
    rt: &R,
    alloc: Global,
    desk: &D,
    gate: &G,
    world: &World,
    pass: Pass<Noted>,
) -> (Pass<Noted>, Ended)
    requires world { world.now ≡ D.world }
    requires own { D.belongs desk.now pass }
    requires idle { RunsNothing D.world (cpu_of pass) (seen_list pass) }
    ensures own { D.belongs desk.now result.0 }
    ensures number { pass_number result.0 ≡ pass_number pass }
    ensures steps { AreStepsOf D.world (lines_of (seen_list result.0)) }
    ensures ends { Ends D.world (cpu_of pass) (seen_list result.0) result.1 }
{
    let cpu = Cpu(pass.number() as u8);
    let mut pass = pass;
    let mut held = None;
    let mut nth = 0u64;
    let rest = Rest::new();
    let mut idle = 0u32;
    for _ in rt.forever() {
        gate.before(cpu, nth);
        nth = nth.saturating_add(1);
        let (back, outcome) = call_desk(rt, alloc, desk, world, pass, held);
        match outcome {
            Outcome::Goes(next) => {
                pass = back;
                held = next;
                idle = 0;
            }
            Outcome::Idles => {
                pass = back;
                held = None;
                rest.pause(rt, idle);
                idle = idle.saturating_add(1);
            }
            Outcome::Ends(ended) => return (back, ended),
        }
    }
    unreachable!()
}

/// One call of the desk, by what the processor runs.
fn call_desk<D: Desk, R: Wait>(
    rt: &R,
    alloc: Global,
    desk: &D,
    world: &World,
    pass: Pass<Noted>,
    held: Option<(Proc, Context)>,
) -> (Pass<Noted>, Outcome)
    requires world { world.now ≡ D.world }
    requires own { D.belongs desk.now pass }
    requires held { Holds D.world (cpu_of pass) (seen_list pass) held }
    ensures own { D.belongs desk.now result.0 }
    ensures number { pass_number result.0 ≡ pass_number pass }
    ensures steps { AreStepsOf D.world (lines_of (seen_list result.0)) }
    ensures outcome { ComesTo D.world (cpu_of pass) (seen_list result.0) result.1 }
{
    match held {
        Some((proc, context)) => call_next(rt, alloc, desk, world, pass, proc, context),
        None => ask(rt, desk, pass),
    }
}

/// Asks for a process.
fn ask<D: Desk, R: Wait>(rt: &R, desk: &D, pass: Pass<Noted>) -> (Pass<Noted>, Outcome)
    requires own { D.belongs desk.now pass }
    requires idle { RunsNothing D.world (cpu_of pass) (seen_list pass) }
    ensures own { D.belongs desk.now result.0 }
    ensures number { pass_number result.0 ≡ pass_number pass }
    ensures steps { AreStepsOf D.world (lines_of (seen_list result.0)) }
    ensures outcome { ComesTo D.world (cpu_of pass) (seen_list result.0) result.1 }
{
    let (pass, asked) = desk.ask(rt, pass);
    let outcome = match asked {
        Asked::Given(proc, context) => Outcome::Goes(Some((proc, context))),
        Asked::Idle(_) => Outcome::Idles,
        Asked::Over => Outcome::Ends(Ended::Over),
        Asked::Stopped => Outcome::Ends(Ended::Stopped),
    };
    (pass, outcome)
}

/// Makes what is next for the process.
fn call_next<D: Desk, R: Wait>(
    rt: &R,
    alloc: Global,
    desk: &D,
    world: &World,
    pass: Pass<Noted>,
    proc: Proc,
    mut context: Context,
) -> (Pass<Noted>, Outcome)
    requires world { world.now ≡ D.world }
    requires own { D.belongs desk.now pass }
    requires held { HandsOut D.world (cpu_of pass) (seen_list pass) proc context }
    ensures own { D.belongs desk.now result.0 }
    ensures number { pass_number result.0 ≡ pass_number pass }
    ensures steps { AreStepsOf D.world (lines_of (seen_list result.0)) }
    ensures outcome { ComesTo D.world (cpu_of pass) (seen_list result.0) result.1 }
{
    let todo = next(&mut context, world);
    let (pass, called) = desk.call(rt, alloc, pass, proc, context, todo);
    let outcome = match called {
        Called::Goes(_, context) => Outcome::Goes(Some((proc, context))),
        Called::Gone(_) => Outcome::Goes(None),
        Called::Limit => Outcome::Ends(Ended::Over),
        Called::Stopped => Outcome::Ends(Ended::Stopped),
        Called::NoMemory => Outcome::Ends(Ended::NoMemory),
    };
    (pass, outcome)
}
