//! What the operands of an instruction are worth in a frame.

ghost use Rattle.std.specs.Prelude.{◌≡◌};
ghost use Rattle.hk_model.specs.WorldValue.{IsOperand, IsIndex, IsRoute};
ghost use Rattle.hk_model.specs.Control.{operand, index_of, path_of};

use hk_model::limits::INDEX_BOUND;
use hk_model::{Frame, Index, Operand, Path, Route};

/// A number, or what a register holds.
pub(crate) fn worth(frame: &Frame, of: &Operand) -> u32
    requires { IsOperand of.now }
    ensures { result ≡ operand frame.now of.now }
{
    match of {
        Operand::Number(n) => *n,
        Operand::Reg(reg) => frame.registers[*reg as usize],
    }
}

/// A number, or what a register holds, at most 65,535.
pub(crate) fn index(frame: &Frame, of: &Index) -> u16
    requires { IsIndex of.now }
    ensures { result ≡ index_of frame.now of.now }
{
    match of {
        Index::Fixed(n) => *n,
        Index::ByReg(reg) => frame.registers[*reg as usize].min(INDEX_BOUND - 1) as u16,
    }
}

/// The path of a route's indices. Most have one.
#[inline(always)]
pub(crate) fn path(frame: &Frame, route: &Route) -> Path
    requires { IsRoute route.now }
    ensures { result ≡ path_of frame.now route.now }
{
    let at = route.at.as_slice();
    if at.len() == 1 {
        Path::of_one(index(frame, &at[0]))
    } else {
        path_of_all(frame, route)
    }
}

/// The same, index by index.
fn path_of_all(frame: &Frame, route: &Route) -> Path
    requires { IsRoute route.now }
    ensures { result ≡ path_of frame.now route.now }
{
    let route = route.at.as_slice();
    let mut indices = [0; 8];
    for (step, of) in route.iter().enumerate() {
        indices[step] = index(frame, of);
    }
    match Path::new(&indices[..route.len()]) {
        Some(path) => path,
        None => unreachable!(),
    }
}
