//! The processes.
//!
//! Beside them stands a place for each processor, with the process that it runs, and how many processes are ready or run.
//! So each call here costs the same however many processes there are.

ghost use Rattle.std.specs.Prelude.{◌≡◌, ◌<◌, ◌≤◌, ◌+◌, ℕ, true, false, length, None, count_by};
ghost use Rattle.std.specs.List.{list_any};
ghost use Rattle.hk_model.specs.declared.objects.Process.{Process};
ghost use Rattle.hk_model.specs.declared.objects.ProcessState.TheVariants.{Running};
ghost use Rattle.hk_model.specs.declared.names.Cpu.{Cpu};
ghost use Rattle.hk_model.specs.Processors.{runner_from, is_on, is_running};
ghost use Rattle.hk_running.specs.Runners.{with_run, with_current, process_at, runner_lives, freed, place_of, weight};

use hk_model::{Cpu, Inc, Proc, Process, ProcessState};
use std::marker::Model;

/// The processes by number. Contracts see the list of them.
#[derive(Drop)]
pub struct Processes {
    all: Vec<Process>,
    // The process that each processor runs.
    places: [Option<Proc>; 16],
    // How many processes are ready or run.
    live: usize,
}

impl Model for Processes {
    ghost use Rattle.std.specs.Prelude.{List};
    ghost use Rattle.hk_model.specs.declared.objects.Process.{Process};
    ghost use Rattle.hk_running.specs.Runners.{IsPlaced};

    ghost Value = { List Process };

    ghost view = { λ p. p.all.items };

    ghost invariant = { λ p. IsPlaced p.all.items p.places p.live };
}

/// Whether a process is ready or runs.
fn runner_lives(run: ProcessState) -> bool
    ensures { result ≡ runner_lives run }
{
    match run {
        ProcessState::Ready | ProcessState::Running(_) => true,
        ProcessState::Waiting(_) | ProcessState::Ended => false,
    }
}

/// How many processes are live.
fn count_live(all: &[Process]) -> usize
    ensures { result ≡ count_by (λ (p : Process). runner_lives p.run) all.now }
{
    all.iter()
        .filter(|process| runner_lives(process.run))
        .count()
}

/// The number of live processes after one of them does something else.
fn recounted(live: usize, before: ProcessState, after: ProcessState) -> usize
    requires counted { weight before ≤ live }
    requires few { live ≤ 256 }
    ensures { result + weight before ≡ live + weight after }
{
    let others = if runner_lives(before) { live - 1 } else { live };
    if runner_lives(after) {
        others + 1
    } else {
        others
    }
}

/// The process in the place of a processor.
fn place_of(places: &[Option<Proc>; 16], cpu: Cpu) -> Option<Proc>
    ensures { result ≡ place_of places.now cpu }
{
    match places.get(cpu.0 as usize) {
        Some(place) => *place,
        None => None,
    }
}

/// How many processors have a place.
fn count_places(places: &[Option<Proc>; 16]) -> usize
    ensures value { result ≡ length places.now }
    ensures many { length places.now ≡ 16 }
{
    places.len()
}

/// A processor runs no more what it ran.
fn free(places: &mut [Option<Proc>; 16], before: ProcessState)
    ensures value { places.new ≡ freed places.old before }
    ensures many { length places.new ≡ 16 }
{
    if let ProcessState::Running(cpu) = before {
        let at = cpu.0 as usize;
        if at < 16 {
            places[at] = None;
        }
    }
}

impl Processes {
    /// The processes as they open: at most 256, and none runs.
    pub fn new(all: Vec<Process>) -> Processes
        requires few { length all.items ≤ 256 }
        requires rest { list_any (λ (p : Process). is_running p.run) all.items ≡ false }
        ensures { result ≡ all.items }
    {
        let live = count_live(all.as_slice());
        Processes {
            all,
            places: [None; 16],
            live,
        }
    }

    /// The processes, at most 256.
    pub fn as_slice(&self) -> &[Process]
        ensures value { result.now ≡ self.now }
        ensures few { length result.now ≤ 256 }
    {
        self.all.as_slice()
    }

    /// How many processes there are. Each runs on a processor of its own, if it runs.
    pub fn len(&self) -> usize
        ensures value { result ≡ length self.now }
        ensures alone { (q : ℕ) → (r : ℕ) → (cpu : Cpu) → is_on cpu (process_at self.now q).run ≡ true → is_on cpu (process_at self.now r).run ≡ true → q ≡ r }
        ensures placed { (q : ℕ) → (cpu : Cpu) → (process_at self.now q).run ≡ Running cpu → cpu.0 < 16 }
    {
        let _places = count_places(&self.places);
        self.all.len()
    }

    /// The process that a processor runs. None exactly where it runs nothing.
    pub fn runner(&self, cpu: Cpu) -> Option<Proc>
        ensures { result ≡ runner_from self.now cpu 0 }
    {
        place_of(&self.places, cpu)
    }

    /// The current incarnation of a process; 0 where there is no such process.
    pub fn current(&self, proc: Proc) -> Inc
        ensures { result ≡ (process_at self.now proc.0).current }
    {
        match self.all.as_slice().get(proc.0 as usize) {
            Some(process) => process.current,
            None => Inc(0),
        }
    }

    /// Whether some process is ready or runs.
    pub fn some_live(&self) -> bool
        ensures { result ≡ list_any (λ (p : Process). runner_lives p.run) self.now }
    {
        self.live > 0
    }

    /// Changes the current incarnation of a process.
    pub fn set_current(&mut self, proc: Proc, inc: Inc)
        ensures { self.new ≡ with_current self.old proc inc }
    {
        let at = proc.0 as usize;
        if at < self.all.len() {
            self.all[at].current = inc;
        }
    }

    /// Changes what a process does: it does not run then.
    pub fn set_run(&mut self, proc: Proc, run: ProcessState)
        requires { is_running run ≡ false }
        ensures { self.new ≡ with_run self.old proc run }
    {
        let at = proc.0 as usize;
        if at < self.all.len() {
            let before = self.all[at].run;
            free(&mut self.places, before);
            self.live = recounted(self.live, before, run);
            self.all[at].run = run;
        }
    }

    /// The process runs on a processor that runs nothing.
    pub fn start(&mut self, proc: Proc, cpu: Cpu)
        requires cpu { cpu.0 < 16 }
        requires idle { runner_from self.old cpu 0 ≡ None }
        ensures { self.new ≡ with_run self.old proc (Running cpu) }
    {
        let at = proc.0 as usize;
        if at < self.all.len() {
            let before = self.all[at].run;
            let run = ProcessState::Running(cpu);
            free(&mut self.places, before);
            self.places[cpu.0 as usize] = Some(proc);
            self.live = recounted(self.live, before, run);
            self.all[at].run = run;
        }
    }
}
