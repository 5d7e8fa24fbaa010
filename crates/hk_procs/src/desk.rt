//! What processors share (`docs/TURNS.md`, "The desk").

ghost use Rattle.std.specs.Prelude.{◌≡◌, ◌<◌, Bool};
ghost use Rattle.hk_model.specs.declared.calls.Call.{Call};
ghost use Rattle.hk_model.specs.WorldValue.{WorldValue};
ghost use Rattle.hk_turn.specs.declared.pass.Pass.{Pass as PassOf};
ghost use Rattle.hk_turn.specs.Passes.{pass_number, seen_list};
ghost use Rattle.hk_procs.specs.declared.notes.Noted.{Noted as NotedOf};
ghost use Rattle.hk_procs.specs.Notes.{cpu_of};
ghost use Rattle.hk_procs.specs.Shown.{RunsNothing, MakesNext};
ghost use Rattle.hk_procs.specs.Promises.{AnswersAsk, AnswersCall};

use crate::answers::{Asked, Called};
use crate::notes::Noted;
use hk_model::{Proc, Todo};
use hk_program::Context;
use hk_turn::Pass;
use std::alloc::Global;
use std::sync::Wait;

/// A kernel that processors share, each with a pass whose number is the processor's
/// (`docs/TURNS.md`, "The desk"). Its history is a list of notes, and each pass has seen a
/// beginning of it.
pub trait Desk {
    /// The world whose processes are run.
    ghost world: { WorldValue };

    /// Whether a call may be answered with want of memory.
    ghost wants: { Call → Bool };

    /// The pass is one of this desk's.
    ghost belongs: { Self → PassOf NotedOf → Type 0 };

    /// Asks for a process for a processor that runs nothing, as the pass shows. It may wait.
    ///
    /// It finds a history that goes on from what the pass had seen. Stopped exactly where this ends
    /// with a stop. Else Over exactly where the limit is reached, or no process is ready and none
    /// runs; else Given exactly where a process is ready, and its dispatch is one line more; else
    /// Idle. It takes no memory.
    fn ask<R: Wait>(&self, rt: &R, pass: Pass<Noted>) -> (Pass<Noted>, Asked)
        requires own { belongs self.now pass }
        requires idle { RunsNothing world (cpu_of pass) (seen_list pass) }
        ensures own { belongs self.now result.0 }
        ensures number { pass_number result.0 ≡ pass_number pass }
        ensures answer { AnswersAsk world (cpu_of pass) (seen_list pass) (seen_list result.0) result.1 };

    /// Makes the call or the halt that is next for the process that the processor runs. It may wait.
    ///
    /// The process and what is next are those that the pass shows, and the context is the one that
    /// `hk_program::next` left. It finds a history that goes on from what the pass had seen. Stopped
    /// exactly where this ends with a stop. Else Limit exactly where the limit is reached. Else
    /// NoMemory only for a call that the desk's type names: it adds this processor's stop to the
    /// history, and no line. Else one line is made, and Gone is answered exactly where the process now
    /// waits, has yielded or has ended.
    fn call<R: Wait>(
        &self,
        rt: &R,
        alloc: Global,
        pass: Pass<Noted>,
        proc: Proc,
        context: Context,
        next: Todo,
    ) -> (Pass<Noted>, Called)
        requires own { belongs self.now pass }
        requires shown { MakesNext world (cpu_of pass) (seen_list pass) proc next context }
        ensures own { belongs self.now result.0 }
        ensures number { pass_number result.0 ≡ pass_number pass }
        ensures answer { AnswersCall world wants (cpu_of pass) (seen_list pass) (seen_list result.0) proc next result.1 };

    /// The number of a pass of the desk is a processor's, below 16.
    ghost few: { (desk : Self) (pass : PassOf NotedOf) → belongs desk pass → pass_number pass < 16 };
}
