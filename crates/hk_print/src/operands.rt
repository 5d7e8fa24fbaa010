//! Operands of instructions and calls, each one piece of a line (`docs/FORMATS.md`, "Pieces" and
//! "Rights").

ghost use Rattle.std.specs.Prelude.{◌≡◌, ◌++◌, ◌∷◌, OnOk, string_bytes};
ghost use Rattle.std.specs.Fmt.{decimal};
ghost use Rattle.std.specs.List.{flat_map};
ghost use Rattle.hk_model.specs.WorldValue.{IsIndex, IsReg};
ghost use Rattle.hk_format.specs.Pieces.{spell, spell_index, register_text};

use crate::numbers::{write_next_operand, write_number};
use crate::rights::write_next_rights;
use hk_model::{Index, NoMemory, Operand, Path, Route, Slot};
use hk_rights::{Right, Rights};

/// What stands on a line as one piece.
pub trait AsPiece {
    ghost use Rattle.hk_format.specs.Pieces.{Piece};

    /// The values that have a piece: all of them, where a type does not say which.
    ghost has_piece: { Self → Type 0 } = { λ _. Unit {0} };

    /// The piece of each.
    ghost piece: { Self → Piece };

    /// Writes a space and the piece. The only error is want of memory.
    fn write_next(&self, out: &mut String) -> Result<(), NoMemory>
        requires { has_piece self.now }
        ensures { OnOk result (string_bytes out.new ≡ string_bytes out.old ++ 32 ∷ spell (piece self.now)) };
}

/// A number.
impl AsPiece for u32 {
    ghost use Rattle.hk_format.specs.Pieces.{Number};

    ghost piece = { Number };

    #[inline(always)]
    fn write_next(&self, out: &mut String) -> Result<(), NoMemory> {
        write_next_operand(out, u64::from(*self))
    }
}

/// The number of a slot.
impl AsPiece for Slot {
    ghost use Rattle.hk_format.specs.Operands.{slot_piece};

    ghost piece = { slot_piece };

    #[inline(always)]
    fn write_next(&self, out: &mut String) -> Result<(), NoMemory> {
        write_next_operand(out, u64::from(self.0))
    }
}

/// The name of a right.
impl AsPiece for Right {
    ghost use Rattle.hk_rights.specs.Rights.{name_of};
    ghost use Rattle.hk_format.specs.Pieces.{Upper};

    ghost piece = { λ right. Upper (name_of right) };

    fn write_next(&self, out: &mut String) -> Result<(), NoMemory> {
        out.push(' ')?;
        out.push_str(self.name())?;
        Ok(())
    }
}

/// A set of rights, in its canonical spelling.
#[tactic(auto, using(crate::proofs::Pieces::spelled_rights))]
impl AsPiece for Rights {
    ghost use Rattle.hk_format.specs.Operands.{rights_set_piece};

    ghost piece = { rights_set_piece };

    fn write_next(&self, out: &mut String) -> Result<(), NoMemory> {
        write_next_rights(out, *self)
    }
}

/// A register, by its number.
#[derive(Clone, Copy)]
pub(crate) struct Register(pub u8);

/// `r` and the number of the register.
impl AsPiece for Register {
    ghost use Rattle.hk_model.specs.WorldValue.{IsReg};
    ghost use Rattle.hk_format.specs.Operands.{register_piece};

    ghost has_piece = { λ register. IsReg register.0 };

    ghost piece = { λ register. register_piece register.0 };

    fn write_next(&self, out: &mut String) -> Result<(), NoMemory> {
        out.push(' ')?;
        write_register(out, self.0)
    }
}

/// A number or a register.
impl AsPiece for Operand {
    ghost use Rattle.hk_model.specs.WorldValue.{IsOperand};
    ghost use Rattle.hk_format.specs.Operands.{operand_piece};

    ghost has_piece = { IsOperand };

    ghost piece = { operand_piece };

    fn write_next(&self, out: &mut String) -> Result<(), NoMemory> {
        match self {
            Operand::Number(number) => write_next_operand(out, u64::from(*number)),
            Operand::Reg(reg) => {
                out.push(' ')?;
                write_register(out, *reg)
            }
        }
    }
}

/// The place of a code that a jump goes to, by its number.
#[derive(Clone, Copy)]
pub(crate) struct Target(pub u16);

/// The label of the place: `l` and its number.
impl AsPiece for Target {
    ghost use Rattle.hk_format.specs.Canonical.{label_text};
    ghost use Rattle.hk_format.specs.Pieces.{Word};

    ghost piece = { λ target. Word (label_text target.0) };

    fn write_next(&self, out: &mut String) -> Result<(), NoMemory> {
        out.push_str(" l")?;
        write_number(out, u64::from(self.0))
    }
}

/// The indices of a path of an instruction, joined by points.
impl AsPiece for Route {
    ghost use Rattle.hk_model.specs.WorldValue.{IsRoute};
    ghost use Rattle.hk_format.specs.Operands.{route_piece};

    ghost has_piece = { IsRoute };

    ghost piece = { route_piece };

    fn write_next(&self, out: &mut String) -> Result<(), NoMemory> {
        out.push(' ')?;
        let mut separator = "";
        for index in self.at.as_slice() {
            out.push_str(separator)?;
            write_index(out, *index)?;
            separator = ".";
        }
        Ok(())
    }
}

/// The indices of a path of a call, joined by points.
impl AsPiece for Path {
    ghost use Rattle.hk_format.specs.LineRanges.{IsPathValue};
    ghost use Rattle.hk_format.specs.Operands.{path_piece};

    ghost has_piece = { IsPathValue };

    ghost piece = { path_piece };

    #[inline(always)]
    fn write_next(&self, out: &mut String) -> Result<(), NoMemory> {
        let indices = self.as_slice();
        write_next_operand(out, u64::from(indices[0]))?;
        write_rest(out, &indices[1..])?;
        Ok(())
    }
}

/// Writes the indices of a path behind the first, a point before each. Most paths have none.
#[inline(always)]
fn write_rest(out: &mut String, rest: &[u16]) -> Result<(), NoMemory>
    ensures { OnOk result (string_bytes out.new ≡ string_bytes out.old ++ flat_map (λ index. 46 ∷ decimal index) rest.now) }
{
    if rest.is_empty() {
        return Ok(());
    }
    write_indices(out, rest)
}

/// Writes indices, a point before each.
#[inline(never)]
fn write_indices(out: &mut String, indices: &[u16]) -> Result<(), NoMemory>
    ensures { OnOk result (string_bytes out.new ≡ string_bytes out.old ++ flat_map (λ index. 46 ∷ decimal index) indices.now) }
{
    for index in indices {
        out.push('.')?;
        write_number(out, u64::from(*index))?;
    }
    Ok(())
}

/// Writes an index of a path.
fn write_index(out: &mut String, index: Index) -> Result<(), NoMemory>
    requires { IsIndex index }
    ensures { OnOk result (string_bytes out.new ≡ string_bytes out.old ++ spell_index index) }
{
    match index {
        Index::Fixed(number) => write_number(out, u64::from(number)),
        Index::ByReg(reg) => write_register(out, reg),
    }
}

/// Writes `r` and the number of a register.
fn write_register(out: &mut String, reg: u8) -> Result<(), NoMemory>
    requires { IsReg reg }
    ensures { OnOk result (string_bytes out.new ≡ string_bytes out.old ++ register_text reg) }
{
    out.push('r')?;
    out.push((b'0' + reg) as char)?;
    Ok(())
}
