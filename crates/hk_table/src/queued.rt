//! The lists of processes as plain data.

ghost use Rattle.std.specs.Prelude.{◌≡◌, ◌<◌, true, length, IfOk};
ghost use Rattle.hk_model.specs.declared.names.Proc.{Proc};
ghost use Rattle.hk_queues.specs.Queued.{waiters, is_queued};

use hk_model::{Items, NoMemory, Proc};
use hk_queues::Queues;
use std::alloc::Global;

/// Who waits at a slot, the longest waiting first.
pub(crate) fn waiters_of(alloc: Global, queues: &Queues, slot: u32) -> Result<Items<Proc>, NoMemory>
    requires slot { slot < length queues.now.waiting }
    requires known { (proc : Proc) → is_queued proc (waiters queues.now slot) ≡ true → proc.0 < queues.now.processes }
    ensures { IfOk result (λ procs. procs ≡ waiters queues.now slot) }
{
    let mut all = Vec::new(alloc);
    let mut next = queues.first_waiting(slot);
    while let Some(proc) = next {
        all.push(proc)?;
        next = queues.next(proc);
    }
    Ok(Items::from_vec(all))
}

/// The ready processes, the first to be dispatched first.
pub(crate) fn ready_of(alloc: Global, queues: &Queues) -> Result<Items<Proc>, NoMemory>
    requires { (proc : Proc) → is_queued proc queues.now.ready ≡ true → proc.0 < queues.now.processes }
    ensures { IfOk result (λ procs. procs ≡ queues.now.ready) }
{
    let mut all = Vec::new(alloc);
    let mut next = queues.first_ready();
    while let Some(proc) = next {
        all.push(proc)?;
        next = queues.next(proc);
    }
    Ok(Items::from_vec(all))
}
