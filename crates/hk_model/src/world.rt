//! A world: what a script declares (`docs/RULES.md`, "Worlds").

ghost use Rattle.std.specs.Prelude.{◌≡◌, IfOk, length};
ghost use Rattle.hk_model.specs.WorldValue.{IsWorld, world_value};

use crate::copying::{Duplicate, duplicates};
use crate::instructions::Instr;
use crate::kernel::NoMemory;
use crate::lists::{Entries, Items, Params, Words};
use crate::names::Name;
use crate::texts::Text;
use std::alloc::{AllocError, Global};
use std::marker::Model;

/// A code: its label, and its instructions.
#[derive(Drop)]
pub struct Code {
    pub label: Text,
    pub steps: Items<Instr>,
}

/// What an object of a script is.
#[derive(Drop)]
pub enum Kind {
    /// A type.
    TypeObject,
    /// An object of DATA, of UNIVERSAL or of a type of the script.
    Plain {
        of: Name,
        words: Words,
        entries: Entries,
    },
    Semaphore {
        /// The tokens that it opens with, 0 to 65,535.
        count: u32,
    },
    Procedure {
        /// The number of its code.
        code: u16,
        params: Params,
        /// What each call inherits.
        entries: Entries,
    },
}

/// An object of a script.
#[derive(Drop)]
pub struct Born {
    pub label: Text,
    pub kind: Kind,
}

/// A process of a script: its code's number, and what its first slots hold.
#[derive(Drop)]
pub struct Task {
    pub label: Text,
    pub code: u16,
    pub slots: Entries,
}

/// A world that can be run. Each name, code number and jump target in it exists, labels are well
/// formed and distinct, and all numbers are in their ranges. Contracts see a `WorldValue`.
#[derive(Drop)]
pub struct World {
    limit: u32,
    objects: Items<Born>,
    codes: Items<Code>,
    tasks: Items<Task>,
}

impl Model for World {
    ghost use Rattle.hk_model.specs.WorldValue.{WorldValue, world_value, IsWorld};

    ghost Value = { WorldValue };

    ghost view = { λ w. world_value w.limit w.objects w.codes w.tasks };

    ghost invariant = { λ w. IsWorld (world_value w.limit w.objects w.codes w.tasks) };
}

impl World {
    /// The world of these parts.
    pub fn new(limit: u32, objects: Items<Born>, codes: Items<Code>, tasks: Items<Task>) -> World
        requires { IsWorld (world_value limit objects codes tasks) }
        ensures { result ≡ world_value limit objects codes tasks }
    {
        World {
            limit,
            objects,
            codes,
            tasks,
        }
    }

    /// How many events a run can have, 1 to 1,000,000.
    pub fn limit(&self) -> u32
        ensures value { result ≡ self.now.limit }
        ensures valid { IsWorld self.now }
    {
        self.limit
    }

    /// The objects of the script, by their names: the first is named 7.
    pub fn objects(&self) -> &[Born]
        ensures value { result.now ≡ self.now.objects }
        ensures valid { IsWorld self.now }
    {
        self.objects.as_slice()
    }

    /// The codes, by their numbers.
    pub fn codes(&self) -> &[Code]
        ensures value { result.now ≡ self.now.codes }
        ensures valid { IsWorld self.now }
    {
        self.codes.as_slice()
    }

    /// The processes, by their numbers.
    pub fn tasks(&self) -> &[Task]
        ensures value { result.now ≡ self.now.tasks }
        ensures valid { IsWorld self.now }
    {
        self.tasks.as_slice()
    }
}

impl Duplicate for Code {
    fn duplicate(&self, alloc: Global) -> Result<Code, AllocError> {
        Ok(Code {
            label: self.label.copy(alloc)?,
            steps: Items::from_vec(duplicates(alloc, self.steps.as_slice())?),
        })
    }
}

impl Duplicate for Kind {
    fn duplicate(&self, alloc: Global) -> Result<Kind, AllocError> {
        Ok(match self {
            Kind::TypeObject => Kind::TypeObject,
            Kind::Plain { of, words, entries } => Kind::Plain {
                of: *of,
                words: words.copy(alloc)?,
                entries: entries.copy(alloc)?,
            },
            Kind::Semaphore { count } => Kind::Semaphore { count: *count },
            Kind::Procedure {
                code,
                params,
                entries,
            } => Kind::Procedure {
                code: *code,
                params: params.copy(alloc)?,
                entries: entries.copy(alloc)?,
            },
        })
    }
}

impl Duplicate for Born {
    fn duplicate(&self, alloc: Global) -> Result<Born, AllocError> {
        Ok(Born {
            label: self.label.copy(alloc)?,
            kind: self.kind.duplicate(alloc)?,
        })
    }
}

impl Duplicate for Task {
    fn duplicate(&self, alloc: Global) -> Result<Task, AllocError> {
        Ok(Task {
            label: self.label.copy(alloc)?,
            code: self.code,
            slots: self.slots.copy(alloc)?,
        })
    }
}

impl World {
    /// An equal world. NoMemory is want of memory.
    pub fn copy(&self, alloc: Global) -> Result<World, NoMemory>
        ensures { IfOk result (λ w. w ≡ self.now) }
    {
        Ok(World {
            limit: self.limit,
            objects: Items::from_vec(duplicates(alloc, self.objects.as_slice())?),
            codes: Items::from_vec(duplicates(alloc, self.codes.as_slice())?),
            tasks: Items::from_vec(duplicates(alloc, self.tasks.as_slice())?),
        })
    }
}
