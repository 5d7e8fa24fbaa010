//! The codes of a generated world (`docs/FORMATS.md`, "Generated worlds").

ghost use Rattle.std.specs.Prelude.{◌≡◌, ◌<◌, ◌∷◌, [], IfOk};
ghost use Rattle.std.specs.Prelude.{codes as letters};
ghost use Rattle.hk_model.specs.Generated.{at_slot, bump_steps, main_steps, code};

use hk_model::{Args, Code, Index, Indices, Instr, Items, Operand, Route, Slot, Text};
use std::alloc::{AllocError, Global};

/// The path of one slot.
fn at_slot(slot: u16) -> Route
    ensures { result ≡ at_slot slot }
{
    Route {
        at: Indices::one(Index::Fixed(slot)),
    }
}

/// One argument of a call.
fn one(slot: Slot) -> Args
    ensures { result ≡ slot.0 ∷ [] }
{
    Args::new(&[slot]).unwrap()
}

/// Adds 1 to the first word of the argument.
fn bump_steps(alloc: Global) -> Result<Items<Instr>, AllocError>
    ensures { IfOk result (λ steps. steps ≡ bump_steps) }
{
    let get = Instr::Get {
        of: at_slot(0),
        at: Operand::Number(0),
        reg: 1,
    };
    let add = Instr::AddReg {
        reg: 1,
        by: Operand::Number(1),
    };
    let put = Instr::Put {
        of: at_slot(0),
        at: Operand::Number(0),
        word: Operand::Reg(1),
    };
    Ok(Items::from_vec(vec![in alloc; get, add, put]?))
}

/// Calls the procedure for the word a hundred times, each time with the lock.
fn main_steps(alloc: Global) -> Result<Items<Instr>, AllocError>
    ensures { IfOk result (λ steps. steps ≡ main_steps) }
{
    let take = Instr::P { of: at_slot(2) };
    let call = Instr::Enter {
        proc: at_slot(0),
        args: one(Slot(1)),
        into: Slot(3),
    };
    let give = Instr::V { of: at_slot(2) };
    let add = Instr::AddReg {
        reg: 0,
        by: Operand::Number(1),
    };
    let again = Instr::IfLess {
        left: Operand::Reg(0),
        right: Operand::Number(100),
        to: 0,
    };
    Ok(Items::from_vec(vec![in alloc; take, call, give, add, again]?))
}

/// The code of the procedure, and the code of the processes.
pub(crate) fn codes(alloc: Global) -> Result<Items<Code>, AllocError>
    ensures { IfOk result (λ codes. codes ≡ code (letters "cbump") bump_steps ∷ code (letters "main") main_steps ∷ []) }
{
    let bump = Code {
        label: Text::from_str(alloc, "cbump")?,
        steps: bump_steps(alloc)?,
    };
    let main = Code {
        label: Text::from_str(alloc, "main")?,
        steps: main_steps(alloc)?,
    };
    Ok(Items::from_vec(vec![in alloc; bump, main]?))
}
