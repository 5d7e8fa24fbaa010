// A kernel that wants memory.

ghost use Rattle.std.specs.Prelude.{◌≡◌, IfOk};
ghost use Rattle.hk_model.specs.Opening.{opening};

use hk_model::{Acted, Call, Cpu, Inc, Kernel, NoMemory, Proc, Snapshot, World};
use hk_plain::Plain;
use std::alloc::Global;

/// A plain kernel, but its first call wants memory.
#[derive(Drop)]
pub(crate) struct Wanting {
    plain: Plain,
    wanted: bool,
}

impl Kernel for Wanting {
    ghost use Rattle.std.specs.Prelude.{true};

    ghost state = { λ kernel. kernel.plain };

    ghost wants = { λ _. true };

    fn act(&mut self, alloc: Global, cpu: Cpu, call: Call) -> Result<Acted, NoMemory> {
        if !self.wanted {
            self.wanted = true;
            return Err(NoMemory);
        }
        self.plain.act(alloc, cpu, call)
    }

    fn dispatch(&mut self, cpu: Cpu) -> Option<Proc> {
        self.plain.dispatch(cpu)
    }

    fn halt(&mut self, cpu: Cpu) {
        self.plain.halt(cpu)
    }

    fn current(&self, cpu: Cpu) -> Option<(Proc, Inc)> {
        self.plain.current(cpu)
    }

    fn over(&self) -> bool {
        self.plain.over()
    }

    fn limit_reached(&self) -> bool {
        self.plain.limit_reached()
    }

    fn snapshot(&self, alloc: Global) -> Result<Snapshot, NoMemory> {
        self.plain.snapshot(alloc)
    }
}

impl Wanting {
    /// One that has opened the world.
    pub(crate) fn new(alloc: Global, world: &World) -> Result<Wanting, NoMemory>
        ensures { IfOk result (λ kernel. kernel.plain ≡ opening world.now) }
    {
        Ok(Wanting {
            plain: Plain::new(alloc, world)?,
            wanted: false,
        })
    }
}
