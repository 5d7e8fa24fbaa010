// Runs on several processors, each a thread.

use crate::commands::{Answered, Open, serve, sink, words};
use crate::wanting::Wanting;
use hk_io::SureBytes;
use hk_model::{Cpu, NoMemory, World};
use hk_procs::Gate;
use hk_top::{Maker, Maps, Slots, status};
use std::alloc::Global;
use std::sync::Wait;
use std::sync::atomic::{AtomicU64, Ordering};
use std::test::Fail;
use std::thread;
use std::thread::Threads;

/// How often a call looks whether it may pass, at most.
const TURNS: u32 = 100_000_000;

/// Two processes that yield.
const SCRIPT: &'static [u8; 66] =
    b"hydra 1\ncode main\nyield\nend\nprocess a main\nend\nprocess b main\nend\n";

/// How often a processor came to the gate, and how often it was let through.
#[derive(Drop)]
struct Counts {
    came: AtomicU64,
    passed: AtomicU64,
}

impl Counts {
    fn new() -> Counts {
        Counts {
            came: AtomicU64::new(0),
            passed: AtomicU64::new(0),
        }
    }

    /// Whether it stands before a call.
    fn stands(&self) -> bool {
        self.came.load(Ordering::SeqCst) > self.passed.load(Ordering::SeqCst)
    }
}

/// A gate that lets processors 0 and 1 through in the order of a list, each once the one before it
/// stands before its next call. Behind the end of the list every call passes.
#[derive(Drop)]
struct Listed {
    list: &'static [u8],
    at: AtomicU64,
    first: Counts,
    second: Counts,
    // Calls that looked too often, or whose number was not that of the calls before them.
    missed: AtomicU64,
}

impl Listed {
    fn new(list: &'static [u8]) -> Listed {
        Listed {
            list,
            at: AtomicU64::new(0),
            first: Counts::new(),
            second: Counts::new(),
            missed: AtomicU64::new(0),
        }
    }

    fn counts(&self, cpu: u8) -> &Counts {
        match cpu {
            0 => &self.first,
            _ => &self.second,
        }
    }

    /// Whether the processor may pass.
    fn lets_through(&self, cpu: u8) -> bool {
        let at = self.at.load(Ordering::SeqCst) as usize;
        if at >= self.list.len() {
            return true;
        }
        self.list[at] == cpu && (at == 0 || self.counts(self.list[at - 1]).stands())
    }
}

impl Gate for Listed {
    fn before(&self, cpu: Cpu, nth: u64) {
        let counts = self.counts(cpu.0);
        if counts.came.fetch_add(1, Ordering::SeqCst) != nth {
            self.missed.fetch_add(1, Ordering::SeqCst);
        }
        for _ in 0..TURNS {
            if self.lets_through(cpu.0) {
                counts.passed.fetch_add(1, Ordering::SeqCst);
                self.at.fetch_add(1, Ordering::SeqCst);
                return;
            }
            thread::yield_now();
        }
        self.missed.fetch_add(1, Ordering::SeqCst);
    }
}

/// What a run in the order of a list came to.
#[derive(Drop)]
struct Ran {
    status: u8,
    events: u32,
    missed: u64,
    text: Vec<u8>,
}

/// Runs two processes that yield on two processors, in the order of the list, on kernels of this maker.
fn run_in_order<M: Maker, R: Threads + Wait + Sync>(
    rt: &R,
    alloc: Global,
    list: &'static [u8],
    kernels: &M,
) -> Result<Ran, Fail> {
    let gate = Listed::new(list);
    let words = words(alloc, &["run", "2"])?;
    let mut input = SureBytes::new(SCRIPT.to_vec(alloc)?);
    let mut output = sink(alloc, Vec::new(alloc))?;
    let answered = serve(rt, alloc, &words, &mut input, &mut output, &gate, kernels);
    Ok(Ran {
        status: answered.status,
        events: answered.events.ok_or("a kernel")?,
        missed: gate.missed.load(Ordering::SeqCst),
        text: output.taken().to_vec(alloc)?,
    })
}

/// Whether two processes that run in the order of the list, on kernels of this maker, make this record of eight events.
fn makes_record<M: Maker, R: Threads + Wait + Sync>(
    rt: &R,
    alloc: Global,
    list: &'static [u8],
    kernels: &M,
    record: &[u8],
) -> Result<bool, Fail> {
    let ran = run_in_order(rt, alloc, list, kernels)?;
    let whole = (ran.status, ran.missed, ran.events) == (status::DONE, 0, 8);
    Ok(whole && ran.text.as_slice() == record)
}

#[test]
fn the_lines_are_those_of_the_processors(rt: HostRuntime) -> Result<(), Fail> {
    let alloc = rt.alloc();
    let list = &[0, 0, 0, 1, 1, 1, 0, 1, 1];
    let record =
        b"hydra 1\ncode main\nyield\nend\nprocess a main\nend\nprocess b main\nend\nrecord\n0 0 0 dispatch -> done\n0 0 0 yield -> done\n0 1 1 dispatch -> done\n1 0 0 dispatch -> done\n1 0 0 return -> done\n0 1 1 yield -> done\n1 1 1 dispatch -> done\n1 1 1 return -> done\nend done\n";
    assert!(rt; makes_record(&rt, alloc, list, &Maps, record.as_slice())?);
    assert!(rt; makes_record(&rt, alloc, list, &Slots, record.as_slice())?);
    Ok(())
}

#[test]
fn another_order_makes_another_record(rt: HostRuntime) -> Result<(), Fail> {
    let alloc = rt.alloc();
    let list = &[1, 0, 0, 1, 1, 0, 0, 1];
    let record =
        b"hydra 1\ncode main\nyield\nend\nprocess a main\nend\nprocess b main\nend\nrecord\n1 0 0 dispatch -> done\n0 1 1 dispatch -> done\n0 1 1 yield -> done\n1 0 0 yield -> done\n1 1 1 dispatch -> done\n0 0 0 dispatch -> done\n0 0 0 return -> done\n1 1 1 return -> done\nend done\n";
    assert!(rt; makes_record(&rt, alloc, list, &Maps, record.as_slice())?);
    assert!(rt; makes_record(&rt, alloc, list, &Slots, record.as_slice())?);
    Ok(())
}

/// It makes kernels whose first call wants memory.
struct Wants;

impl Maker for Wants {
    type Made = Wanting;

    fn make(&self, alloc: Global, world: &World) -> Result<Wanting, NoMemory> {
        Wanting::new(alloc, world)
    }
}

/// How a run of such a kernel came out, and how much was written.
fn run_wanting<R: Threads + Wait + Sync>(
    rt: &R,
    alloc: Global,
    spelled: &[&str],
) -> Result<(Answered, usize), Fail> {
    let words = words(alloc, spelled)?;
    let mut input = SureBytes::new(SCRIPT.to_vec(alloc)?);
    let mut output = sink(alloc, Vec::new(alloc))?;
    let answered = serve(rt, alloc, &words, &mut input, &mut output, &Open, &Wants);
    Ok((answered, output.taken().len()))
}

#[test]
fn a_stop_writes_nothing(rt: HostRuntime) -> Result<(), Fail> {
    let alloc = rt.alloc();
    let stopped = Answered {
        status: status::NO_MEMORY,
        events: None,
    };
    for spelled in [&["run"][..], &["run", "4"]] {
        assert_eq!(rt; run_wanting(&rt, alloc, spelled)?, (stopped, 0));
    }
    Ok(())
}
