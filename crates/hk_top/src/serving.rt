//! What words and bytes come to, without streams (`docs/FORMATS.md`, "Statuses and outputs").

ghost use Rattle.std.specs.Prelude.{◌≡◌, IfOk, None, map, string_bytes};
ghost use Rattle.hk_top.specs.Outputs.{usage_text};
ghost use Rattle.hk_top.specs.Served.{IsServed};
ghost use Rattle.hk_top.specs.Words.{IsAlone, IsInRange, MayRun, ReadsAlone, RunsOnMany, words_of};

use crate::generated::run_generated;
use crate::maker::Maker;
use crate::outputs::{due_to_bytes, text_alone, too_long};
use crate::processors::run_script_on;
use crate::served::{DueText, Served};
use crate::status;
use crate::words::{Command, byte_limit, read_command};
use hk_model::limits::SCRIPT_BYTES;
use hk_model::{NoMemory, Text};
use hk_procs::Gate;
use std::alloc::Global;
use std::sync::Wait;
use std::thread::Threads;

/// What words and the bytes that they read come to: the status and the text that the program gives for
/// them, and where a script or a generated world was run, the kernel, in the state that the lines of
/// the run lead to. `docs/FORMATS.md`, "Statuses and outputs", tells them all. NoMemory is want of
/// memory; it is the only other answer.
///
/// - `run`, `run N` (N from 1 to 16): status 0, 1 or 7 and the record of one legal history, over whose
///   lines the laws hold; or 3 and the first line of the script that is refused, with its cause.
/// - Other words that read: 0 and what they tell of the script or the record; 8 and the verdict on a
///   record that is not legal; 3 and the line that is refused.
/// - More bytes than the words may read: 3. Words that are no command: 2.
///
/// `run N` runs N processors, each a thread, and may wait for ever. Each tells the gate of its calls.
pub fn serve<G: Gate + Sync, M: Maker, R: Threads + Wait + Sync>(
    rt: &R,
    alloc: Global,
    words: &[String],
    bytes: &[u8],
    gate: &G,
    kernels: &M,
) -> Result<Served<M::Made>, NoMemory>
    ensures { IfOk result (λ served. IsServed M.Made.state (map string_bytes words.now) bytes.now served) }
{
    match read_command(words) {
        Some(Command::RunOn(cpus)) => serve_on(rt, alloc, cpus, bytes, gate, kernels),
        _ => serve_alone(alloc, words, bytes, kernels),
    }
}

/// What `serve` does for all words but `run N`. It waits for nobody and always returns.
pub(crate) fn serve_alone<M: Maker>(
    alloc: Global,
    words: &[String],
    bytes: &[u8],
    kernels: &M,
) -> Result<Served<M::Made>, NoMemory>
    requires { RunsOnMany (map string_bytes words.now) → ⊥ }
    ensures { IfOk result (λ served. IsServed M.Made.state (map string_bytes words.now) bytes.now served) }
{
    match read_command(words) {
        Some(command) => serve_command(alloc, command, bytes, kernels),
        None => Ok(text_alone(usage(alloc)?)),
    }
}

/// What `run N` and the bytes of a script come to.
fn serve_on<G: Gate + Sync, M: Maker, R: Threads + Wait + Sync>(
    rt: &R,
    alloc: Global,
    cpus: u8,
    bytes: &[u8],
    gate: &G,
    kernels: &M,
) -> Result<Served<M::Made>, NoMemory>
    requires { MayRun cpus }
    ensures { IfOk result (λ served. IsServed M.Made.state (words_of (Command.RunOn cpus)) bytes.now served) }
{
    if bytes.len() > SCRIPT_BYTES {
        return Ok(text_alone(too_long(alloc)?));
    }
    run_script_on(rt, alloc, cpus, bytes, gate, kernels)
}

/// What a command that one processor serves and these bytes come to.
fn serve_command<M: Maker>(
    alloc: Global,
    command: Command,
    bytes: &[u8],
    kernels: &M,
) -> Result<Served<M::Made>, NoMemory>
    requires alone { IsAlone command }
    requires range { IsInRange command }
    ensures { IfOk result (λ served. IsServed M.Made.state (words_of command) bytes.now served) }
{
    match command {
        Command::Gen(count) => run_generated(alloc, count, kernels),
        _ => serve_bytes(alloc, command, bytes, kernels),
    }
}

/// What a command that one processor serves, which reads something, and these bytes come to.
fn serve_bytes<M: Maker>(
    alloc: Global,
    command: Command,
    bytes: &[u8],
    kernels: &M,
) -> Result<Served<M::Made>, NoMemory>
    requires alone { ReadsAlone command }
    requires range { IsInRange command }
    ensures { IfOk result (λ served. IsServed M.Made.state (words_of command) bytes.now served) }
{
    if bytes.len() > byte_limit(command) {
        return Ok(text_alone(too_long(alloc)?));
    }
    due_to_bytes(alloc, command, bytes, kernels)
}

/// What is written of words that are no command.
#[tactic(auto, using(crate::proofs::ServedLemmas::usage_is))]
fn usage(alloc: Global) -> Result<DueText, NoMemory>
    ensures { IfOk result (λ due. (due.status ≡ 2) × (due.text ≡ usage_text)) }
{
    Ok(DueText {
        status: status::USAGE,
        text: Text::from_str(alloc, "usage: hydra COMMAND [NUMBER]\n")?,
    })
}
