//! Who makes the kernels that scripts are run on (`docs/FORMATS.md`, "Statuses and outputs").

ghost use Rattle.std.specs.Prelude.{◌≡◌};

use hk_model::{Kernel, NoMemory, World};
use hk_plain::Plain;
use hk_table::Table;
use std::alloc::Global;

/// It makes kernels of one type.
pub trait Maker {
    ghost use Rattle.std.specs.Prelude.{◌≡◌, IfOk};
    ghost use Rattle.hk_model.specs.Opening.{opening};

    /// The kernels that it makes. A thread may have one.
    type Made: Kernel + Send;

    /// A kernel that has opened the world. NoMemory is want of memory.
    fn make(&self, alloc: Global, world: &World) -> Result<Self::Made, NoMemory>
        ensures { IfOk result (λ kernel. Self.Made.state kernel ≡ opening world.now) };
}

/// It makes plain kernels, which keep their objects in a map.
#[derive(Clone, Copy, PartialEq, Eq, Debug)]
pub struct Maps;

impl Maker for Maps {
    type Made = Plain;

    fn make(&self, alloc: Global, world: &World) -> Result<Plain, NoMemory> {
        Plain::new(alloc, world)
    }
}

/// It makes table kernels, which keep their objects in slots (`docs/PROMISES.md`, "The table kernel").
#[derive(Clone, Copy, PartialEq, Eq, Debug)]
pub struct Slots;

impl Maker for Slots {
    type Made = Table;

    fn make(&self, alloc: Global, world: &World) -> Result<Table, NoMemory> {
        Table::new(alloc, world)
    }
}
