//! How a run ends.

ghost use Rattle.std.specs.Prelude.{◌≡◌, IfOk, Some, None, if◌then◌else◌};
ghost use Rattle.std.specs.List.{list_all, list_any};
ghost use Rattle.hk_model.specs.declared.lines.End.TheVariants as word;
ghost use Rattle.hk_model.specs.Legal.{end_word};
ghost use Rattle.hk_model.specs.Processors.{has_ended, is_waiting};
ghost use Rattle.hk_program.specs.Contexts.{has_no_frame};
ghost use Rattle.hk_program.specs.Machines.{IsSound};

use crate::context::Context;
use crate::machine::Machine;
use hk_model::{End, Kernel, NoMemory, ProcessState, World};
use std::alloc::Global;

/// The end word of the state that a kernel is in (`docs/RULES.md`, "Steps of processors"). None
/// exactly where the state has none. NoMemory is want of memory for a snapshot, which is taken only
/// where no process is ready or runs.
pub fn end_word<K: Kernel>(alloc: Global, kernel: &K) -> Result<Option<End>, NoMemory>
    ensures { IfOk result (λ end. end ≡ end_word (K.state kernel.now)) }
{
    let full = kernel.limit_reached();
    if !kernel.over() {
        return Ok(first_word(false, false, full));
    }
    let snapshot = kernel.snapshot(alloc)?;
    let processes = snapshot.processes.as_slice();
    let done = all_ended(processes);
    let stuck = one_waits(processes);
    Ok(first_word(done, stuck, full))
}

impl<K: Kernel> Machine<K> {
    /// The end word of the machine's state (`docs/RULES.md`, "Steps of processors"). None exactly where
    /// the state has none. It takes no memory, since a process has ended exactly where it has no frame.
    pub fn end_word(&self, _world: &World) -> Option<End>
        requires { IsSound _world.now self.now }
        ensures { result ≡ end_word self.now.state }
    {
        let full = self.kernel.limit_reached();
        if !self.kernel.over() {
            return first_word(false, false, full);
        }
        let done = none_goes_on(&self.contexts);
        first_word(done, !done, full)
    }
}

/// Whether none of these contexts has a frame.
fn none_goes_on(contexts: &[Context]) -> bool
    ensures { result ≡ list_all has_no_frame contexts.now }
{
    contexts.iter().all(|context| goes_on_no_more(context))
}

/// Whether a context has no frame.
#[tactic(auto, using(crate::proofs::Endings::no_first))]
fn goes_on_no_more(context: &Context) -> bool
    ensures { result ≡ has_no_frame context.now }
{
    context.top().is_none()
}

/// The first end word whose test holds.
fn first_word(done: bool, stuck: bool, full: bool) -> Option<End>
    ensures { result ≡ (if done then Some word.Done else (if stuck then Some word.Stuck else (if full then Some word.Limit else None))) }
{
    if done {
        return Some(End::Done);
    }
    if stuck {
        return Some(End::Stuck);
    }
    if full {
        return Some(End::Limit);
    }
    None
}

/// Whether all of these processes have ended.
fn all_ended(runs: &[ProcessState]) -> bool
    ensures { result ≡ list_all has_ended runs.now }
{
    runs.iter().all(|run| ended(run))
}

/// Whether one of these processes waits.
fn one_waits(runs: &[ProcessState]) -> bool
    ensures { result ≡ list_any is_waiting runs.now }
{
    runs.iter().any(|run| waits(run))
}

/// Whether a process has ended.
fn ended(run: &ProcessState) -> bool
    ensures { result ≡ has_ended run.now }
{
    matches!(run, ProcessState::Ended)
}

/// Whether a process waits.
fn waits(run: &ProcessState) -> bool
    ensures { result ≡ is_waiting run.now }
{
    matches!(run, ProcessState::Waiting(_))
}
