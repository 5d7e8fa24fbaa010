//! The state in which a world opens (`docs/RULES.md`, "The opening").

ghost use Rattle.std.specs.Prelude.{◌≡◌, ◌≤◌, [], false, IfOk, Ok, length, replicate};
ghost use Rattle.std.specs.List.{list_any};
ghost use Rattle.hk_model.specs.declared.objects.Process.{Process};
ghost use Rattle.hk_model.specs.Processors.{is_running};
ghost use Rattle.hk_model.specs.Opening.{all_ready, proc_numbers, opening};
ghost use Rattle.hk_table.specs.Joined.{FewNumbers};
ghost use Rattle.hk_table.specs.Told.{AllNamedStand};

use crate::born::objects_of;
use crate::counted::counted;
use crate::parts::Parts;
use crate::stacks::Stacks;
use hk_model::{Born, Inc, NoMemory, Proc, Process, ProcessState, Task, World};
use hk_queues::Queues;
use hk_running::Processes;
use hk_walk::Walker;
use std::alloc::Global;

/// How many walks are remembered.
const REMEMBERED: usize = 256;

/// So many processes, all ready.
#[tactic(auto, using(crate::proofs::Opens::next_ready))]
fn ready_ones(alloc: Global, tasks: &[Task]) -> Result<Vec<Process>, NoMemory>
    ensures state { IfOk result (λ processes. processes.items ≡ all_ready 0 tasks.now) }
    ensures many { IfOk result (λ processes. length processes.items ≡ length tasks.now) }
    ensures rest { IfOk result (λ processes. list_any (λ (p : Process). is_running p.run) processes.items ≡ false) }
{
    let mut processes = Vec::with_capacity(alloc, tasks.len())?;
    for (n, _task) in tasks.iter().enumerate() {
        processes.push(Process {
            run: ProcessState::Ready,
            current: Inc(n as u64),
        })?;
    }
    Ok(processes)
}

/// The processes as they open.
fn all_ready(alloc: Global, tasks: &[Task]) -> Result<Processes, NoMemory>
    requires { length tasks.now ≤ 256 }
    ensures state { IfOk result (λ processes. processes ≡ all_ready 0 tasks.now) }
    ensures many { IfOk result (λ processes. length processes ≡ length tasks.now) }
{
    let processes = ready_ones(alloc, tasks)?;
    Ok(Processes::new(processes))
}

/// All processes in the ready list, and a list of waiters for each slot.
fn all_queued(alloc: Global, tasks: &[Task]) -> Result<Queues, NoMemory>
    requires { length tasks.now ≤ 256 }
    ensures all { IfOk result (λ queues. queues.processes ≡ length tasks.now) }
    ensures ready { IfOk result (λ queues. queues.ready ≡ proc_numbers 0 tasks.now) }
    ensures waiting { IfOk result (λ queues. queues.waiting ≡ replicate 65536 []) }
{
    let mut queues = Queues::with(alloc, 65536, tasks.len() as u32)?;
    for (n, _task) in tasks.iter().enumerate() {
        queues.ready(Proc(n as u16));
    }
    Ok(queues)
}

/// The objects of a world.
fn born_of(world: &World) -> &[Born]
    ensures value { result.now ≡ world.now.objects }
    ensures few { length result.now ≤ 65529 }
{
    world.objects()
}

/// The processes of a world.
fn tasks_of(world: &World) -> &[Task]
    ensures value { result.now ≡ world.now.tasks }
    ensures few { length result.now ≤ 256 }
{
    world.tasks()
}

/// What was made before, and what was made now if it was. NoMemory is want of memory.
fn with<A: Drop, B: Drop>(before: A, now: Result<B, NoMemory>) -> Result<(A, B), NoMemory>
    ensures { IfOk result (λ both. (both.0 ≡ before) × (now ≡ Ok both.1)) }
{
    match now {
        Ok(now) => Ok((before, now)),
        Err(NoMemory) => Err(NoMemory),
    }
}

impl Parts {
    /// The state in which a world opens. NoMemory is want of memory.
    pub(crate) fn open(alloc: Global, world: &World) -> Result<Parts, NoMemory>
        ensures state { IfOk result (λ parts. parts ≡ opening world.now) }
        ensures numbers { IfOk result (λ parts. FewNumbers parts) }
        ensures named { IfOk result (λ parts. AllNamedStand parts) }
    {
        let born = born_of(world);
        let tasks = tasks_of(world);
        // (what was made so far goes into each `with`, so that nothing is let go of here; a proof of that takes minutes)
        let objects = objects_of(alloc, born)?;
        let made = with(objects, all_ready(alloc, tasks))?;
        let made = with(made, all_queued(alloc, tasks))?;
        let made = with(made, Stacks::open(alloc, world))?;
        let made = with(made, Walker::with(alloc, REMEMBERED))?;
        let counts = counted(alloc, &made.0.0.0.0, &made.0.1);
        let (((((objects, processes), queues), stacks), walker), counts) = with(made, counts)?;
        let first_new = objects.next_name();
        Ok(Parts {
            objects,
            queues,
            processes,
            stacks,
            walker,
            counts,
            first_new,
            events: 0,
            limit: world.limit(),
        })
    }
}
