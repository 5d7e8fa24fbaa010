// A worker at a desk of a world without processes.

ghost use Rattle.std.specs.Prelude.{◌≡◌, ◌<◌, [], IfOk};
ghost use Rattle.hk_model.specs.WorldValue.{world_value};
ghost use Rattle.hk_turn.specs.Passes.{pass_number, seen_list};

use hk_model::{Cpu, Items, Proc, Todo, World};
use hk_procs::{Asked, Called, Desk, Ended, Gate, Noted, work};
use hk_program::Context;
use hk_turn::{NoMemory, Pass, Story, Turns};
use std::alloc::Global;
use std::sync::Wait;
use std::sync::atomic::{AtomicU64, Ordering};
use std::test::Fail;

/// It stands for every list.
#[derive(Drop)]
struct Anything;

impl Story for Anything {
    ghost use Rattle.hk_procs.specs.Notes.{owner_of};

    type Entry = Noted;

    ghost stands = { λ _ _. Unit {0} };

    ghost owner = { owner_of };
}

/// A desk at which nothing is ever done.
struct Quiet;

impl Desk for Quiet {
    ghost use Rattle.std.specs.Prelude.{◌≡◌, ◌<◌, [], false};
    ghost use Rattle.hk_model.specs.WorldValue.{world_value};
    ghost use Rattle.hk_turn.specs.Passes.{pass_number, seen_list};

    ghost world = { world_value 1 [] [] [] };

    ghost wants = { λ _. false };

    ghost belongs = { λ _ pass. (seen_list pass ≡ []) × (pass_number pass < 16) };

    ghost few = { λ _ pass own. own.1 };

    fn ask<R: Wait>(&self, _rt: &R, pass: Pass<Noted>) -> (Pass<Noted>, Asked) {
        (pass, Asked::Over)
    }

    fn call<R: Wait>(
        &self,
        _rt: &R,
        _alloc: Global,
        _pass: Pass<Noted>,
        _proc: Proc,
        _context: Context,
        _next: Todo,
    ) -> (Pass<Noted>, Called) {
        unreachable!()
    }
}

/// It counts the calls that it is told of.
#[derive(Drop)]
struct Counts {
    calls: AtomicU64,
}

impl Gate for Counts {
    fn before(&self, _cpu: Cpu, nth: u64) {
        self.calls
            .fetch_add(nth.saturating_add(1), Ordering::SeqCst);
    }
}

/// A pass with the number 0, which has seen nothing.
fn first_pass(alloc: Global) -> Result<Pass<Noted>, Fail>
    ensures number { IfOk result (λ pass. pass_number pass ≡ 0) }
    ensures seen { IfOk result (λ pass. seen_list pass ≡ []) }
{
    let (_turns, mut passes) = Turns::new(alloc, Anything, 1)?;
    Ok(passes.remove(0))
}

/// How a worker ends at the quiet desk.
#[tactic(auto, using(hk_procs::proofs::EmptyWorlds::empty_runs_nothing))]
fn ended<R: Wait>(rt: &R, alloc: Global, gate: &Counts) -> Result<Ended, Fail> {
    let pass = first_pass(alloc)?;
    let world = World::new(1, Items::new(alloc), Items::new(alloc), Items::new(alloc));
    let (_pass, ended) = work(rt, alloc, &Quiet, gate, &world, pass);
    Ok(ended)
}

#[test]
fn a_worker_without_processes_asks_once_and_is_over(rt: HostRuntime) -> Result<(), Fail> {
    let gate = Counts {
        calls: AtomicU64::new(0),
    };
    assert_eq!(rt; ended(&rt, rt.alloc(), &gate)?, Ended::Over);
    assert_eq!(rt; gate.calls.load(Ordering::SeqCst), 1);
    Ok(())
}
