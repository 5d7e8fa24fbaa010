// The top call over streams in memory.

ghost use Rattle.std.specs.Prelude.{◌≡◌, [], ◌∷◌, IfOk, codes, map, string_bytes};

use hk_io::{Bytes, Out, Sink, Source, SureBytes, SureOut};
use hk_model::{Cpu, Kernel};
use hk_procs::Gate;
use hk_top::{Maker, Maps, Slots, answer, hydra, hydra_surely, status};
use std::alloc::{AllocError, Global};
use std::sync::Wait;
use std::test::Fail;
use std::thread::Threads;

/// A process that reads the word of an object.
pub(crate) const SCRIPT: &'static [u8; 96] =
    b"hydra 1\nobject d DATA\nwords 7\nend\ncode main\ngetdata 0 0 r0\nend\nprocess a main\ncap d GETDATA\nend\n";

/// The record of its run.
pub(crate) const RECORD: &'static [u8; 184] =
    b"hydra 1\nobject d DATA\nwords 7\nend\ncode main\ngetdata 0 0 r0\nend\nprocess a main\ncap d GETDATA\nend\nrecord\n0 0 0 dispatch -> done\n0 0 0 getdata 0 0 -> word 7\n0 0 0 return -> done\nend done\n";

/// It holds nobody up.
pub struct Open;

impl Gate for Open {
    fn before(&self, _cpu: Cpu, _nth: u64) {}
}

/// How the top call came out: its status, and how many events the kernel tells that it gave back. A kernel is let go in functions over
/// any kernel: who lets go of one by its type has to prove anew how each of its parts is let go, which takes long.
#[derive(Clone, Copy, PartialEq, Eq, Debug)]
pub struct Answered {
    pub status: u8,
    pub events: Option<u32>,
}

/// How many events a kernel tells, where there is one, and memory to show it.
pub(crate) fn events_of<K: Kernel>(alloc: Global, kernel: Option<K>) -> Option<u32> {
    match kernel?.snapshot(alloc) {
        Ok(shown) => Some(shown.events),
        Err(_) => None,
    }
}

/// How the top call came out, over kernels of this maker and with this gate.
pub fn serve<S: Source, W: Sink, G: Gate + Sync, M: Maker, R: Threads + Wait + Sync>(
    rt: &R,
    alloc: Global,
    words: &[String],
    input: &mut S,
    output: &mut W,
    gate: &G,
    kernels: &M,
) -> Answered {
    let (status, kernel) = hydra(rt, alloc, words, input, output, gate, kernels);
    let events = events_of(alloc, kernel);
    Answered { status, events }
}

/// The status of the top call, over plain kernels.
pub fn status_of<S: Source, W: Sink, R: Threads + Wait + Sync>(
    rt: &R,
    alloc: Global,
    words: &[String],
    input: &mut S,
    output: &mut W,
) -> u8 {
    serve(rt, alloc, words, input, output, &Open, &Maps).status
}

/// These words, as the program gets them.
pub fn words(alloc: Global, spelled: &[&str]) -> Result<Vec<String>, AllocError> {
    let mut words = Vec::new(alloc);
    for word in spelled {
        words.push(String::from_str(alloc, word)?)?;
    }
    Ok(words)
}

/// A source of the script that gives 20 bytes a read.
pub fn source(alloc: Global, fails: Vec<u32>) -> Result<Bytes, AllocError> {
    Ok(Bytes::new(SCRIPT.to_vec(alloc)?, 20, fails))
}

/// A sink that takes 10 bytes a write.
pub fn sink(alloc: Global, fails: Vec<u32>) -> Result<Out, Fail> {
    Ok(Out::with(alloc, 400, 10, fails).ok().ok_or("a sink")?)
}

/// The word `run`.
pub(crate) fn run_word(alloc: Global) -> Result<Vec<String>, AllocError>
    ensures { IfOk result (λ words. map string_bytes words.items ≡ codes "run" ∷ []) }
{
    Ok(vec![in alloc; String::from_str(alloc, "run")?]?)
}

/// How the same call came out without a run time.
fn serve_alone<M: Maker>(alloc: Global, kernels: &M) -> Result<Answered, Fail> {
    let run = run_word(alloc)?;
    let mut input = SureBytes::new(SCRIPT.to_vec(alloc)?);
    let mut output = SureOut::new();
    let (status, kernel) = answer(alloc, &run, &mut input, &mut output, kernels);
    let events = events_of(alloc, kernel);
    Ok(Answered { status, events })
}

/// How it came out over streams that never fail.
fn serve_surely<M: Maker, R: Threads + Wait + Sync>(
    rt: &R,
    alloc: Global,
    kernels: &M,
) -> Result<Answered, Fail> {
    let run = words(alloc, &["run"])?;
    let mut input = SureBytes::new(SCRIPT.to_vec(alloc)?);
    let (status, kernel) = hydra_surely(rt, alloc, &run, &mut input, &Open, kernels);
    let events = events_of(alloc, kernel);
    Ok(Answered { status, events })
}

/// The run was made, of three events.
pub(crate) const OF_THREE_EVENTS: Answered = Answered {
    status: status::DONE,
    events: Some(3),
};

#[test]
fn hands_back_the_kernel_that_was_run(rt: HostRuntime) -> Result<(), Fail> {
    assert_eq!(rt; serve_alone(rt.alloc(), &Maps)?, OF_THREE_EVENTS);
    Ok(())
}

#[test]
fn sure_streams_have_no_fault(rt: HostRuntime) -> Result<(), Fail> {
    assert_eq!(rt; serve_surely(&rt, rt.alloc(), &Maps)?, OF_THREE_EVENTS);
    Ok(())
}

/// What the top call comes to where the read or the write of this number fails, and the other does not.
fn failing<R: Threads + Wait + Sync>(
    rt: &R,
    alloc: Global,
    reads: Vec<u32>,
    writes: Vec<u32>,
) -> Result<(u8, Out), Fail> {
    let run = words(alloc, &["run"])?;
    let mut input = source(alloc, reads)?;
    let mut output = sink(alloc, writes)?;
    let status = status_of(rt, alloc, &run, &mut input, &mut output);
    Ok((status, output))
}

#[test]
fn tells_the_fault_of_each_of_six_reads(rt: HostRuntime) -> Result<(), Fail> {
    let alloc = rt.alloc();
    for read in 1..7 {
        let (status, output) = failing(&rt, alloc, vec![in alloc; read]?, Vec::new(alloc))?;
        assert_eq!(rt; status, status::READ_FAULT);
        assert_eq!(rt; output.taken().len(), 0);
    }
    let (status, _output) = failing(&rt, alloc, vec![in alloc; 7]?, Vec::new(alloc))?;
    assert_eq!(rt; status, status::DONE);
    Ok(())
}

#[test]
fn tells_the_fault_of_each_of_nineteen_writes(rt: HostRuntime) -> Result<(), Fail> {
    let alloc = rt.alloc();
    for before in 0..19u32 {
        let (status, output) = failing(&rt, alloc, Vec::new(alloc), vec![in alloc; before + 1]?)?;
        assert_eq!(rt; status, status::WRITE_FAULT);
        assert_eq!(rt; output.taken(), &RECORD[..before as usize * 10]);
    }
    let (status, _output) = failing(&rt, alloc, Vec::new(alloc), vec![in alloc; 20]?)?;
    assert_eq!(rt; status, status::DONE);
    Ok(())
}

/// How `gen 3` came out on kernels of this maker, and what it wrote.
fn summary<M: Maker, R: Threads + Wait + Sync>(
    rt: &R,
    alloc: Global,
    kernels: &M,
) -> Result<(Answered, Out), Fail> {
    let asked = words(alloc, &["gen", "3"])?;
    let mut input = source(alloc, Vec::new(alloc))?;
    let mut output = sink(alloc, Vec::new(alloc))?;
    let answered = serve(rt, alloc, &asked, &mut input, &mut output, &Open, kernels);
    Ok((answered, output))
}

#[test]
fn both_kernels_make_one_run(rt: HostRuntime) -> Result<(), Fail> {
    let alloc = rt.alloc();
    let (of_maps, maps) = summary(&rt, alloc, &Maps)?;
    let (of_slots, slots) = summary(&rt, alloc, &Slots)?;
    let done = Answered {
        status: status::DONE,
        events: Some(1806),
    };
    assert_eq!(rt; (of_maps, of_slots), (done, done));
    let text = b"gen 3\nobjects 10\nlines 1806\nchanges 300\nend done\n";
    assert_eq!(rt; maps.taken(), text.as_slice());
    assert_eq!(rt; slots.taken(), text.as_slice());
    Ok(())
}
