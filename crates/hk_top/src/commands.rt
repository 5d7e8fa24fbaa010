//! The commands, from words and bytes to bytes and a status.

ghost use Rattle.std.specs.Prelude.{◌≡◌, ◌≢◌, ◌⊎◌, IfOk, IfErr, IsErrOf, None, map, option_map, string_bytes};
ghost use Rattle.hk_io.specs.Streams.{Took};
ghost use Rattle.hk_top.specs.Words.{IsReading, IsInRange, RunsOnMany, TakesInput, words_of};
ghost use Rattle.hk_top.specs.Outputs.{Answer, FailedReading, IsComplete, IsSaid, stream, usage_text};
ghost use Rattle.hk_top.specs.Served.{IsDue, IsTaken, IsTooLong, IsUntaken, silent_status};

use crate::maker::Maker;
use crate::outputs::{text_alone, too_long};
use crate::served::{Served, Silence};
use crate::serving::{serve, serve_alone};
use crate::status;
use crate::words::{Command, byte_limit, read_command};
use hk_io::{ReadError, Sink, Source, read_all, write_all};
use hk_procs::Gate;
use std::alloc::Global;
use std::sync::Wait;
use std::thread::Threads;

/// The top call: serves the words of a command. It reads the source, writes one text to the sink, and
/// gives the status (`docs/FORMATS.md`, "Statuses and outputs"); where the text is the record or the
/// summary of a run, it gives the kernel that was run, in the state that the lines of the run lead to.
/// The clause `answer` says when each status comes, and `complete` what comes where no fault is counted
/// and the source, if one is read, tells its bytes.
///
/// `run N` runs N processors, each a thread, and may wait for ever. Each tells the gate of its calls.
pub fn hydra<S: Source, W: Sink, G: Gate + Sync, M: Maker, R: Threads + Wait + Sync>(
    rt: &R,
    alloc: Global,
    words: &[String],
    input: &mut S,
    output: &mut W,
    gate: &G,
    kernels: &M,
) -> (u8, Option<M::Made>)
    ensures answer { Answer (map string_bytes words.now)
        (stream (S.left input.old) (S.left input.new) (S.faults input.old) (S.faults input.new))
        (stream (W.taken output.old) (W.taken output.new) (W.faults output.old) (W.faults output.new))
        result.0 (option_map M.Made.state result.1) }
    ensures complete { IsComplete (map string_bytes words.now)
        (stream (S.left input.old) (S.left input.new) (S.faults input.old) (S.faults input.new))
        (stream (W.taken output.old) (W.taken output.new) (W.faults output.old) (W.faults output.new))
        result.0 (option_map M.Made.state result.1) }

    // A source that tells its bytes has lost some from its front, and nothing else.
    ensures taken { Took (S.left input.old) (S.left input.new) (λ _. Unit {0}) }

    // Words of no command that reads leave the source as it was, and what fails before the first write leaves the sink so.
    ensures untouched { (IsReading (map string_bytes words.now) → ⊥) → input.new ≡ input.old }
    ensures silent { (result.0 ≡ 4) ⊎ (result.0 ≡ 5) → output.new ≡ output.old }
{
    let Some(command) = read_command(words) else {
        return (say_usage(output), None);
    };
    let due = due(rt, alloc, words, command, input, gate, kernels);
    say_due(output, due)
}

/// What `hydra` does for all words but `run N`. It waits for nobody and always returns.
pub fn answer<S: Source, W: Sink, M: Maker>(
    alloc: Global,
    words: &[String],
    input: &mut S,
    output: &mut W,
    kernels: &M,
) -> (u8, Option<M::Made>)
    requires alone { RunsOnMany (map string_bytes words.now) → ⊥ }
    ensures answer { Answer (map string_bytes words.now)
        (stream (S.left input.old) (S.left input.new) (S.faults input.old) (S.faults input.new))
        (stream (W.taken output.old) (W.taken output.new) (W.faults output.old) (W.faults output.new))
        result.0 (option_map M.Made.state result.1) }
    ensures complete { IsComplete (map string_bytes words.now)
        (stream (S.left input.old) (S.left input.new) (S.faults input.old) (S.faults input.new))
        (stream (W.taken output.old) (W.taken output.new) (W.faults output.old) (W.faults output.new))
        result.0 (option_map M.Made.state result.1) }
    ensures taken { Took (S.left input.old) (S.left input.new) (λ _. Unit {0}) }
    ensures untouched { (IsReading (map string_bytes words.now) → ⊥) → input.new ≡ input.old }
    ensures silent { (result.0 ≡ 4) ⊎ (result.0 ≡ 5) → output.new ≡ output.old }
{
    let Some(command) = read_command(words) else {
        return (say_usage(output), None);
    };
    let due = due_alone(alloc, words, command, input, kernels);
    say_due(output, due)
}

/// What is due to words and an input: the source is read as far as the words have it, and what `serve` gives for the bytes.
/// It may wait.
fn due<S: Source, G: Gate + Sync, M: Maker, R: Threads + Wait + Sync>(
    rt: &R,
    alloc: Global,
    words: &[String],
    command: Command,
    input: &mut S,
    gate: &G,
    kernels: &M,
) -> Result<Served<M::Made>, Silence>
    requires words { map string_bytes words.now ≡ words_of command }
    requires range { IsInRange command }
    ensures due { IfOk result (λ served. IsDue M.Made.state (words_of command) (S.left input.old) (S.left input.new) served) }
    ensures status { IfOk result (λ served. served.due.status ≢ 4 × served.due.status ≢ 5) }
    ensures taken { Took (S.left input.old) (S.left input.new) (λ _. Unit {0}) }
    ensures untouched { (IsReading (words_of command) → ⊥) → input.new ≡ input.old }
    ensures fault { IsErrOf result Silence.ReadFault → FailedReading (words_of command) (stream (S.left input.old) (S.left input.new) (S.faults input.old) (S.faults input.new)) }
{
    match take(alloc, command, input) {
        Ok(bytes) => Ok(serve(rt, alloc, words, &bytes, gate, kernels)?),
        Err(error) => unread(alloc, error),
    }
}

/// The same for all words but `run N`. It waits for nobody.
fn due_alone<S: Source, M: Maker>(
    alloc: Global,
    words: &[String],
    command: Command,
    input: &mut S,
    kernels: &M,
) -> Result<Served<M::Made>, Silence>
    requires alone { RunsOnMany (map string_bytes words.now) → ⊥ }
    requires words { map string_bytes words.now ≡ words_of command }
    requires range { IsInRange command }
    ensures due { IfOk result (λ served. IsDue M.Made.state (words_of command) (S.left input.old) (S.left input.new) served) }
    ensures status { IfOk result (λ served. served.due.status ≢ 4 × served.due.status ≢ 5) }
    ensures taken { Took (S.left input.old) (S.left input.new) (λ _. Unit {0}) }
    ensures untouched { (IsReading (words_of command) → ⊥) → input.new ≡ input.old }
    ensures fault { IsErrOf result Silence.ReadFault → FailedReading (words_of command) (stream (S.left input.old) (S.left input.new) (S.faults input.old) (S.faults input.new)) }
{
    match take(alloc, command, input) {
        Ok(bytes) => Ok(serve_alone(alloc, words, &bytes, kernels)?),
        Err(error) => unread(alloc, error),
    }
}

/// The bytes of the source for a command that reads; none, and the source is left, for one that does not.
fn take<S: Source>(alloc: Global, command: Command, input: &mut S) -> Result<Vec<u8>, ReadError>
    ensures taken { Took (S.left input.old) (S.left input.new) (λ _. Unit {0}) }
    ensures bytes { IfOk result (λ bytes. IsTaken command (S.left input.old) (S.left input.new) bytes.items) }
    ensures untouched { (TakesInput command → ⊥) → input.new ≡ input.old }
    ensures error { IfErr result (λ error. IsUntaken command (stream (S.left input.old) (S.left input.new) (S.faults input.old) (S.faults input.new)) error) }
{
    match command {
        Command::Gen(_) => Ok(Vec::new(alloc)),
        _ => read_all(alloc, input, byte_limit(command)),
    }
}

/// What is due where the source was not read to its end.
fn unread<K>(alloc: Global, error: ReadError) -> Result<Served<K>, Silence>
    ensures long { IfOk result (λ served. (error ≡ ReadError.TooLong) × IsTooLong served) }
    ensures fault { IsErrOf result Silence.ReadFault → error ≡ ReadError.ReadFault }
{
    match error {
        ReadError::TooLong => Ok(text_alone(too_long(alloc)?)),
        ReadError::ReadFault => Err(Silence::ReadFault),
        ReadError::NoMemory => Err(Silence::NoMemory),
    }
}

/// Says what is due, and hands back the kernel that was run.
fn say_due<W: Sink, K>(output: &mut W, due: Result<Served<K>, Silence>) -> (u8, Option<K>)
    ensures said { IfOk due (λ served. (result.1 ≡ served.kernel)
        × IsSaid served.due.status served.due.text (stream (W.taken output.old) (W.taken output.new) (W.faults output.old) (W.faults output.new)) result.0) }
    ensures silent { IfErr due (λ silence. (result ≡ (silent_status silence, None)) × (output.new ≡ output.old)) }
{
    match due {
        Ok(served) => {
            let status = say(output, served.due.status, served.due.text.as_bytes());
            (status, served.kernel)
        }
        Err(Silence::ReadFault) => (status::READ_FAULT, None),
        Err(Silence::NoMemory) => (status::NO_MEMORY, None),
    }
}

/// Says that the words are no command.
fn say_usage<W: Sink>(output: &mut W) -> u8
    ensures { IsSaid 2 usage_text (stream (W.taken output.old) (W.taken output.new) (W.faults output.old) (W.faults output.new)) result }
{
    say(output, status::USAGE, b"usage: hydra COMMAND [NUMBER]\n")
}

/// Writes a text. Where a write fails, its status stands in place of the one that the text had.
fn say<W: Sink>(output: &mut W, status: u8, text: &[u8]) -> u8
    ensures { IsSaid status text.now (stream (W.taken output.old) (W.taken output.new) (W.faults output.old) (W.faults output.new)) result }
{
    match write_all(output, text) {
        Ok(()) => status,
        Err(_) => status::WRITE_FAULT,
    }
}
