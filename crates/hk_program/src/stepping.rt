//! What a local instruction does to its frame.

ghost use Rattle.std.specs.Prelude.{◌≡◌, ◌<◌, slice_set, if◌then◌else◌};
ghost use Rattle.hk_model.specs.Limits.{code_limit};
ghost use Rattle.hk_model.specs.WorldValue.{IsInstr, IsReg};
ghost use Rattle.hk_model.specs.Control.{meaning, step_over, go_to};
ghost use Rattle.hk_program.specs.Meanings.{is_local, left_by};

use crate::operands::worth;
use hk_model::{Frame, Instr};

/// Makes a local instruction in its frame, and says whether it was one: at a kernel call's
/// instruction the frame stays as it was (`docs/RULES.md`, "Control of a process").
pub(crate) fn step_local(frame: &mut Frame, instr: &Instr) -> bool
    requires valid { IsInstr code_limit instr.now }
    requires inside { frame.old.at < code_limit }
    ensures local { result ≡ is_local (meaning frame.old instr.now) }
    ensures left { frame.new ≡ left_by frame.old (meaning frame.old instr.now) }
{
    match instr {
        Instr::SetReg { reg, to } => {
            let word = worth(frame, to);
            set_register(frame, *reg, word);
        }
        Instr::AddReg { reg, by } => {
            let word = frame.registers[*reg as usize].wrapping_add(worth(frame, by));
            set_register(frame, *reg, word);
        }
        Instr::Goto { to } => frame.at = *to,
        Instr::IfEq { left, right, to } => {
            let holds = worth(frame, left) == worth(frame, right);
            jump(frame, *to, holds);
        }
        Instr::IfLess { left, right, to } => {
            let holds = worth(frame, left) < worth(frame, right);
            jump(frame, *to, holds);
        }
        Instr::IfDenied { to } => {
            let holds = frame.refused;
            jump(frame, *to, holds);
        }
        _ => return false,
    }
    true
}

/// Puts a word into a register, and goes on to the next instruction.
fn set_register(frame: &mut Frame, reg: u8, word: u32)
    requires inside { frame.old.at < code_limit }
    requires reg { IsReg reg }
    ensures { frame.new ≡ step_over (record frame.old { registers = slice_set frame.old.registers reg word }) }
{
    frame.registers[reg as usize] = word;
    frame.at += 1;
}

/// Goes to the target of a jump where a test holds, and else on to the next instruction.
fn jump(frame: &mut Frame, to: u16, holds: bool)
    requires inside { frame.old.at < code_limit }
    ensures { frame.new ≡ (if holds then go_to frame.old to else step_over frame.old) }
{
    frame.at = if holds { to } else { frame.at + 1 };
}
