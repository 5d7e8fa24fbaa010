//! One list of cells for the ready processes, and one for the waiters of each semaphore.

ghost use Rattle.std.specs.Prelude.{◌≡◌, ◌<◌, ◌≤◌, ◌+◌, ◌++◌, ◌∷◌, [], ℕ, Some, length, drop, replicate, slice_get, slice_set, option_map, IfOk, IfSome};
ghost use Rattle.hk_queues.specs.Queued.{Queued, IsIdle, waiters, proc_of};

use hk_links::Chains;
use hk_model::{NoMemory, Proc};
use std::alloc::Global;
use std::marker::Model;

/// The list of the ready processes.
const READY: u32 = 0;

/// The ready list and the waiters of every semaphore. Each process is in at most one of these lists. Contracts see the
/// number of processes, and the lists.
#[derive(Drop)]
pub struct Queues {
    chains: Chains,
    processes: u32,
}

impl Model for Queues {
    ghost use Rattle.hk_queues.specs.Queued.{Queued, IsQueueing, queued};

    ghost Value = { Queued };

    ghost view = { λ a. queued a.chains a.processes };

    ghost invariant = { λ a. IsQueueing a.chains a.processes };
}

/// The process of a cell.
fn proc_at(cell: Option<u32>) -> Option<Proc>
    requires { IfSome cell (λ cell. cell < 65536) }
    ensures { result ≡ option_map proc_of cell }
{
    match cell {
        Some(cell) => Some(Proc(cell as u16)),
        None => None,
    }
}

impl Queues {
    /// Empty lists for so many semaphores and processes. No other call takes memory.
    pub fn with(alloc: Global, semaphores: u32, processes: u32) -> Result<Queues, NoMemory>
        ensures { IfOk result (λ queues. queues ≡ record { processes = processes; ready = []; waiting = replicate semaphores [] }) }
    {
        let Some(lists) = semaphores.checked_add(1) else {
            return Err(NoMemory);
        };
        match Chains::with(alloc, lists, processes.min(65536)) {
            Ok(chains) => Ok(Queues { chains, processes }),
            Err(_refused) => Err(NoMemory),
        }
    }

    /// Puts a process of no list at the end of the ready list.
    pub fn ready(&mut self, proc: Proc)
        requires proc { proc.0 < self.old.processes }
        requires idle { IsIdle self.old proc }
        ensures { self.new ≡ record self.old { ready = self.old.ready ++ proc ∷ [] } }
    {
        self.chains.push_back(READY, proc.0 as u32);
    }

    /// Puts a process of no list at the end of the waiters of a semaphore.
    pub fn wait(&mut self, semaphore: u32, proc: Proc)
        requires semaphore { semaphore < length self.old.waiting }
        requires proc { proc.0 < self.old.processes }
        requires idle { IsIdle self.old proc }
        ensures { self.new ≡ record self.old { waiting = slice_set self.old.waiting semaphore (waiters self.old semaphore ++ proc ∷ []) } }
    {
        self.chains.push_back(semaphore + 1, proc.0 as u32);
    }

    /// Takes the first ready process out. None exactly where none is ready.
    pub fn next_ready(&mut self) -> Option<Proc>
        ensures first { result ≡ slice_get self.old.ready 0 }
        ensures rest { self.new ≡ record self.old { ready = drop 1 self.old.ready } }
    {
        proc_at(self.chains.pop_front(READY))
    }

    /// Takes the first waiter of a semaphore out. None exactly where nobody waits there.
    pub fn wake(&mut self, semaphore: u32) -> Option<Proc>
        requires { semaphore < length self.old.waiting }
        ensures first { result ≡ slice_get (waiters self.old semaphore) 0 }
        ensures rest { self.new ≡ record self.old { waiting = slice_set self.old.waiting semaphore (drop 1 (waiters self.old semaphore)) } }
    {
        proc_at(self.chains.pop_front(semaphore + 1))
    }

    /// The first ready process. None exactly where none is ready.
    pub fn first_ready(&self) -> Option<Proc>
        ensures { result ≡ slice_get self.now.ready 0 }
    {
        proc_at(self.chains.front(READY))
    }

    /// The first waiter of a semaphore. None exactly where nobody waits there.
    pub fn first_waiting(&self, semaphore: u32) -> Option<Proc>
        requires { semaphore < length self.now.waiting }
        ensures { result ≡ slice_get (waiters self.now semaphore) 0 }
    {
        proc_at(self.chains.front(semaphore + 1))
    }

    /// The process behind a process of a list. None exactly for the last.
    pub fn next(&self, proc: Proc) -> Option<Proc>
        requires { proc.0 < self.now.processes }
        ensures ready { (k : ℕ) → slice_get self.now.ready k ≡ Some proc → result ≡ slice_get self.now.ready (k + 1) }
        ensures waiting { (semaphore k : ℕ) → semaphore < length self.now.waiting → slice_get (waiters self.now semaphore) k ≡ Some proc → result ≡ slice_get (waiters self.now semaphore) (k + 1) }
    {
        proc_at(self.chains.next(proc.0 as u32))
    }
}
