//! The run of a world on many processors, each a thread (`docs/TURNS.md`, "Runs").

ghost use Rattle.std.specs.Prelude.{◌≡◌, ◌≤◌, IfOk, length, All};
ghost use Rattle.hk_model.specs.Limits.{script_bytes};
ghost use Rattle.hk_model.specs.Opening.{opening};
ghost use Rattle.hk_turn.specs.Turns.{ArePassesOf, IsPassOf};
ghost use Rattle.hk_top.specs.Words.{words_of, MayRun};
ghost use Rattle.hk_top.specs.Served.{IsDueTo, Records};
ghost use Rattle.hk_top.specs.Workers.{IsFresh, HasSeenEnd, IsClosed};

use crate::maker::Maker;
use crate::outputs::{record, refused, text_alone};
use crate::served::Served;
use crate::words::Command;
use hk_load::{WorldError, read_world};
use hk_model::{Kernel, NoMemory, World};
use hk_procs::{Gate, Noted, work};
use hk_program::end_word;
use hk_shared::{Book, Naming, Shared};
use hk_turn::Pass;
use std::alloc::Global;
use std::marker::Brand;
use std::sync::Wait;
use std::thread;
use std::thread::Threads;

/// What is due to `run N` and the bytes of a script. It may wait. NoMemory is want of memory.
pub(crate) fn run_script_on<G: Gate + Sync, M: Maker, R: Threads + Wait + Sync>(
    rt: &R,
    alloc: Global,
    cpus: u8,
    bytes: &[u8],
    gate: &G,
    kernels: &M,
) -> Result<Served<M::Made>, NoMemory>
    requires few { length bytes.now ≤ script_bytes }
    requires cpus { MayRun cpus }
    ensures { IfOk result (λ served. IsDueTo M.Made.state (words_of (Command.RunOn cpus)) bytes.now served) }
{
    match read_world(alloc, bytes) {
        Ok(world) => {
            let kernel = kernels.make(alloc, &world)?;
            run_on(rt, alloc, cpus, &world, gate, kernel)
        }
        Err(WorldError::Refused { line, cause }) => { Ok(text_alone(refused(alloc, line, cause)?)) }
        Err(WorldError::NoMemory) => Err(NoMemory),
    }
}

/// What is due to `run N` and a world, run on this kernel: the record of its run. It picks the
/// name of the world (`docs/TURNS.md`, "The shared kernel").
fn run_on<K: Kernel + Send, G: Gate + Sync, R: Threads + Wait + Sync>(
    rt: &R,
    alloc: Global,
    cpus: u8,
    world: &World,
    gate: &G,
    kernel: K,
) -> Result<Served<K>, NoMemory>
    requires cpus { MayRun cpus }
    requires opening { K.state kernel ≡ opening world.now }
    ensures { IfOk result (λ served. Records K.state (words_of (Command.RunOn cpus)) world.now served) }
{
    run_named::<Brand, K, G, R>(rt, alloc, cpus, world, gate, kernel)
}

/// The same, of a world that has a name.
fn run_named<J: Naming + Send + Sync, K: Kernel + Send, G: Gate + Sync, R: Threads + Wait + Sync>(
    rt: &R,
    alloc: Global,
    cpus: u8,
    world: &World,
    gate: &G,
    kernel: K,
) -> Result<Served<K>, NoMemory>
    requires cpus { MayRun cpus }
    requires world { world.now ≡ J.world }
    requires opening { K.state kernel ≡ opening world.now }
    ensures { IfOk result (λ served. Records K.state (words_of (Command.RunOn cpus)) world.now served) }
{
    let (desk, passes) = Shared::<K, J>::start(alloc, kernel, world, cpus)?;
    let (desk, passes) = work_all(rt, alloc, world, gate, desk, passes)?;
    let book = desk.close(passes);
    if book.stop().is_some() {
        return Err(NoMemory);
    }
    record_of_book(alloc, cpus, world, book)
}

/// Each pass works in a thread of its own, until all have ended.
#[tactic(auto, using(hk_shared::proofs::NewPasses::new_runs_nothing, crate::proofs::Closing::seen_end))]
fn work_all<J: Naming + Send + Sync, K: Kernel + Send, G: Gate + Sync, R: Threads + Wait + Sync>(
    rt: &R,
    alloc: Global,
    world: &World,
    gate: &G,
    desk: Shared<K, J>,
    passes: Vec<Pass<Noted>>,
) -> Result<(Shared<K, J>, Vec<Pass<Noted>>), NoMemory>
    requires world { world.now ≡ J.world }
    requires fresh { All (IsFresh desk.turns) passes.items }
    ensures desk { IfOk result (λ back. back.0 ≡ desk) }
    ensures count { IfOk result (λ back. length back.1.items ≡ length passes.items) }
    ensures own { IfOk result (λ back. ArePassesOf desk.turns back.1.items) }
    ensures ends { IfOk result (λ back. All (HasSeenEnd J.world) back.1.items) }
{
    let shared = &desk;
    let back = thread::map_vec(
        rt,
        passes,
        &|pass: Pass<Noted>| -> Pass<Noted>
            requires { (world.now ≡ J.world) × IsFresh shared.now.turns pass }
            ensures { IsPassOf shared.entry.now.turns result × HasSeenEnd J.world result }
        {
            let (pass, _ended) = work(rt, alloc, shared, gate, world, pass);
            pass
        },
    )?;
    Ok((desk, back))
}

/// The record of a book in which no processor has stopped, and its kernel.
fn record_of_book<K: Kernel, J: Naming>(
    alloc: Global,
    cpus: u8,
    world: &World,
    book: Book<K, J>,
) -> Result<Served<K>, NoMemory>
    requires cpus { MayRun cpus }
    requires closed { IsClosed K.state world.now cpus book }
    ensures { IfOk result (λ served. Records K.state (words_of (Command.RunOn cpus)) world.now served) }
{
    let Some(end) = end_word(alloc, book.kernel())? else {
        unreachable!()
    };
    Ok(Served {
        due: record(alloc, world, book.lines(), end)?,
        kernel: Some(book.into_kernel()),
    })
}
