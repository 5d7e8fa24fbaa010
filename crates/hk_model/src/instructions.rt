//! The instructions of a code.

use crate::copying::Duplicate;
use crate::entries::Making;
use crate::lists::Items;
use crate::names::Slot;
use crate::paths::Args;
use hk_rights::Rights;
use std::alloc::{AllocError, Global};
use std::marker::Model;

/// A number, or what a register holds (`docs/RULES.md`, "Control of a process").
#[derive(Clone, Copy, PartialEq, Eq)]
pub enum Operand {
    Number(u32),
    /// What the register of this number, 0 to 7, holds.
    Reg(u8),
}

/// An index of a path: a number, or what a register holds, at most 65,535 (`docs/RULES.md`,
/// "Control of a process").
#[derive(Clone, Copy, PartialEq, Eq)]
pub enum Index {
    Fixed(u16),
    /// What the register of this number, 0 to 7, holds.
    ByReg(u8),
}

/// One to eight indices, from which a path is made when the instruction is run (`docs/RULES.md`,
/// "Control of a process").
#[derive(Drop)]
pub struct Route {
    pub at: Indices,
}

/// An index alone, which is kept in place, or a list of them, which stands apart so that a route is small.
#[derive(Drop)]
enum OneOrMore {
    One([Index; 1]),
    More(Box<Items<Index>>),
}

/// The indices of a route (`docs/RULES.md`, "Control of a process"). Most routes have one, which takes
/// no memory of its own. Contracts see the list.
#[derive(Drop)]
pub struct Indices {
    kept: OneOrMore,
}

impl Model for Indices {
    ghost use Rattle.std.specs.Prelude.{List};
    ghost use Rattle.hk_model.specs.declared.instructions.Index.{Index};
    ghost use Rattle.hk_model.specs.RouteIndices.{indices_kept};

    ghost Value = { List Index };

    ghost view = { λ indices. indices_kept indices.kept };
}

impl Indices {
    ghost use Rattle.std.specs.Prelude.{◌≡◌, ◌∷◌, [], IfOk};

    /// An index alone.
    pub fn one(index: Index) -> Indices
        ensures { result ≡ index ∷ [] }
    {
        Indices {
            kept: OneOrMore::One([index]),
        }
    }

    /// These indices. The only error is want of memory.
    pub fn from_items(alloc: Global, indices: Items<Index>) -> Result<Indices, AllocError>
        ensures { IfOk result (λ kept. kept ≡ indices) }
    {
        let kept = OneOrMore::More(Box::new(alloc, indices)?);
        Ok(Indices { kept })
    }

    /// The indices, from left to right.
    pub fn as_slice(&self) -> &[Index]
        ensures { result.now ≡ self.now }
    {
        match &self.kept {
            OneOrMore::One(index) => index,
            OneOrMore::More(indices) => indices.as_slice(),
        }
    }

    /// Equal indices. The only error is want of memory.
    pub fn copy(&self, alloc: Global) -> Result<Indices, AllocError>
        ensures { IfOk result (λ indices. indices ≡ self.now) }
    {
        let kept = match &self.kept {
            OneOrMore::One(index) => OneOrMore::One(*index),
            OneOrMore::More(indices) => OneOrMore::More(Box::new(alloc, indices.copy(alloc)?)?),
        };
        Ok(Indices { kept })
    }
}

/// An instruction: the 20 kernel calls, and six that are local to the process
/// (`docs/RULES.md`, "Control of a process"). Registers are 0 to 7, slots 0 to 63, and `to` is the
/// number of an instruction, or the code's length.
#[derive(Drop)]
pub enum Instr {
    Get {
        of: Route,
        at: Operand,
        reg: u8,
    },
    Put {
        of: Route,
        at: Operand,
        word: Operand,
    },
    Add {
        of: Route,
        word: Operand,
    },
    Length {
        of: Route,
        reg: u8,
    },
    Load {
        from: Route,
        into: Slot,
    },
    Store {
        list: Route,
        at: Operand,
        from: Slot,
    },
    Append {
        list: Route,
        from: Slot,
    },
    Erase {
        list: Route,
        at: Operand,
    },
    Drop {
        slot: Slot,
    },
    Restrict {
        slot: Slot,
        keep: Rights,
    },
    Look {
        of: Route,
        reg: u8,
    },
    MakeTemplate {
        of: Route,
        making: Making,
        into: Slot,
    },
    Create {
        by: Route,
        into: Slot,
    },
    Merge {
        with: Route,
        cap: Slot,
        into: Slot,
    },
    Copy {
        of: Route,
        into: Slot,
    },
    Enter {
        proc: Route,
        args: Args,
        into: Slot,
    },
    Leave {
        give: Option<Slot>,
    },
    P {
        of: Route,
    },
    V {
        of: Route,
    },
    Yield,
    SetReg {
        reg: u8,
        to: Operand,
    },
    AddReg {
        reg: u8,
        by: Operand,
    },
    Goto {
        to: u16,
    },
    IfEq {
        left: Operand,
        right: Operand,
        to: u16,
    },
    IfLess {
        left: Operand,
        right: Operand,
        to: u16,
    },
    IfDenied {
        to: u16,
    },
}

impl Duplicate for Route {
    fn duplicate(&self, alloc: Global) -> Result<Route, AllocError> {
        Ok(Route {
            at: self.at.copy(alloc)?,
        })
    }
}

impl Duplicate for Instr {
    fn duplicate(&self, alloc: Global) -> Result<Instr, AllocError> {
        Ok(match self {
            Instr::Get { of, at, reg } => Instr::Get {
                of: of.duplicate(alloc)?,
                at: *at,
                reg: *reg,
            },
            Instr::Put { of, at, word } => Instr::Put {
                of: of.duplicate(alloc)?,
                at: *at,
                word: *word,
            },
            Instr::Add { of, word } => Instr::Add {
                of: of.duplicate(alloc)?,
                word: *word,
            },
            Instr::Length { of, reg } => Instr::Length {
                of: of.duplicate(alloc)?,
                reg: *reg,
            },
            Instr::Load { from, into } => Instr::Load {
                from: from.duplicate(alloc)?,
                into: *into,
            },
            Instr::Store { list, at, from } => Instr::Store {
                list: list.duplicate(alloc)?,
                at: *at,
                from: *from,
            },
            Instr::Append { list, from } => Instr::Append {
                list: list.duplicate(alloc)?,
                from: *from,
            },
            Instr::Erase { list, at } => Instr::Erase {
                list: list.duplicate(alloc)?,
                at: *at,
            },
            Instr::Drop { slot } => Instr::Drop { slot: *slot },
            Instr::Restrict { slot, keep } => Instr::Restrict {
                slot: *slot,
                keep: *keep,
            },
            Instr::Look { of, reg } => Instr::Look {
                of: of.duplicate(alloc)?,
                reg: *reg,
            },
            Instr::MakeTemplate { of, making, into } => Instr::MakeTemplate {
                of: of.duplicate(alloc)?,
                making: *making,
                into: *into,
            },
            Instr::Create { by, into } => Instr::Create {
                by: by.duplicate(alloc)?,
                into: *into,
            },
            Instr::Merge { with, cap, into } => Instr::Merge {
                with: with.duplicate(alloc)?,
                cap: *cap,
                into: *into,
            },
            Instr::Copy { of, into } => Instr::Copy {
                of: of.duplicate(alloc)?,
                into: *into,
            },
            Instr::Enter { proc, args, into } => Instr::Enter {
                proc: proc.duplicate(alloc)?,
                args: *args,
                into: *into,
            },
            Instr::Leave { give } => Instr::Leave { give: *give },
            Instr::P { of } => Instr::P {
                of: of.duplicate(alloc)?,
            },
            Instr::V { of } => Instr::V {
                of: of.duplicate(alloc)?,
            },
            Instr::Yield => Instr::Yield,
            Instr::SetReg { reg, to } => Instr::SetReg { reg: *reg, to: *to },
            Instr::AddReg { reg, by } => Instr::AddReg { reg: *reg, by: *by },
            Instr::Goto { to } => Instr::Goto { to: *to },
            Instr::IfEq { left, right, to } => Instr::IfEq {
                left: *left,
                right: *right,
                to: *to,
            },
            Instr::IfLess { left, right, to } => Instr::IfLess {
                left: *left,
                right: *right,
                to: *to,
            },
            Instr::IfDenied { to } => Instr::IfDenied { to: *to },
        })
    }
}
