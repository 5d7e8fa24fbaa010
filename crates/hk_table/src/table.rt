//! The table kernel.

ghost use Rattle.std.specs.Prelude.{◌≡◌, IfOk};
ghost use Rattle.hk_model.specs.Opening.{opening};

use crate::draft::Draft;
use crate::parts::Parts;
use hk_model::{Acted, Call, Cpu, Inc, Kernel, NoMemory, Proc, Snapshot, World};
use std::alloc::Global;
use std::marker::Model;

/// The table kernel: its state in slots, stacks and lists by index (`docs/RULES.md`, "Steps of processors"). Contracts see
/// the state.
#[derive(Drop)]
pub struct Table {
    parts: Parts,
    // Where a call of a procedure is put together.
    draft: Draft,
    // Whether it is known that names lead to each object, so that a collection takes none. A refused call leaves it so.
    rooted: bool,
}

impl Model for Table {
    ghost use Rattle.hk_model.specs.State.{State};
    ghost use Rattle.hk_table.specs.Joined.{FewNumbers};
    ghost use Rattle.hk_table.specs.Rooms.{IsKnownRooted};
    ghost use Rattle.hk_table.specs.Told.{AllNamedStand};

    ghost Value = { State };

    ghost view = { λ t. t.parts };

    ghost invariant = { λ t. FewNumbers t.parts × AllNamedStand t.parts × IsKnownRooted t.rooted t.parts };
}

impl Table {
    /// The kernel in the state in which a world opens. NoMemory is want of memory.
    pub fn new(alloc: Global, world: &World) -> Result<Table, NoMemory>
        ensures { IfOk result (λ t. t ≡ opening world.now) }
    {
        Ok(Table {
            parts: Parts::open(alloc, world)?,
            draft: Draft::new(),
            rooted: false,
        })
    }
}

impl Kernel for Table {
    ghost use Rattle.hk_model.specs.State.{State};
    ghost use Rattle.hk_table.specs.Giving.{takes_memory};

    ghost state = { λ t. t };

    ghost wants = { λ call. takes_memory call };

    fn act(&mut self, alloc: Global, cpu: Cpu, call: Call) -> Result<Acted, NoMemory> {
        self.answer(alloc, cpu, &call)
    }

    fn answer(&mut self, alloc: Global, cpu: Cpu, call: &Call) -> Result<Acted, NoMemory> {
        match self.parts.runner(cpu) {
            Some(proc) => {
                self.parts
                    .act(alloc, proc, call, &mut self.draft, &mut self.rooted)
            }
            None => unreachable!(),
        }
    }

    fn dispatch(&mut self, cpu: Cpu) -> Option<Proc> {
        self.rooted = false;
        self.parts.dispatch(cpu)
    }

    fn halt(&mut self, cpu: Cpu) {
        self.rooted = false;
        match self.parts.runner(cpu) {
            Some(proc) => self.parts.halt(proc),
            None => unreachable!(),
        }
    }

    fn current(&self, cpu: Cpu) -> Option<(Proc, Inc)> {
        self.parts.current(cpu)
    }

    fn over(&self) -> bool {
        self.parts.over()
    }

    fn limit_reached(&self) -> bool {
        self.parts.limit_reached()
    }

    fn snapshot(&self, alloc: Global) -> Result<Snapshot, NoMemory> {
        self.parts.shown(alloc)
    }
}
