//! How a reply changes the frames of a process.

ghost use Rattle.std.specs.Prelude.{◌≡◌, ◌<◌, IfSome, length, Some};
ghost use Rattle.hk_model.specs.Limits.{code_limit};
ghost use Rattle.hk_model.specs.WorldValue.{IsInstr, IsReg};
ghost use Rattle.hk_model.specs.Control as control;
ghost use Rattle.hk_program.specs.Contexts.{AreFrames, IsFrame, is_return};

use crate::codes::code_of;
use crate::context::{Context, opened};
use hk_model::{Acted, Call, Frame, Instr, Reply, World};

/// Takes the answer to a call into the context: the current frame goes on behind its instruction,
/// keeps whether the call was refused, and takes a word into the register that the instruction
/// names; an entered procedure's code gets a new frame, and a return takes the current frame away
/// (`docs/RULES.md`, "Control of a process").
///
/// The context must fit the world; an entered code must be one of the world, and there must be room
/// for its frame. It still fits afterwards. A context without a frame stays so. It takes no memory.
#[tactic(auto, unfolding(hk_model::specs::Control::after))]
#[inline(always)]
pub fn after(context: &mut Context, world: &World, call: &Call, acted: &Acted)
    requires fits { AreFrames world.now context.old }
    requires code { IfSome acted.now.code (λ code. code < length world.now.codes) }
    requires room { IfSome acted.now.code (λ _. length context.old < 64) }
    ensures value { context.new ≡ control.after world.now context.old call.now acted.now.reply acted.now.code }
    ensures fits { AreFrames world.now context.new }
{
    if !context.answer_top(world, &acted.reply) {
        return;
    }
    match acted.code {
        Some(code) => context.push(opened(code)),
        None => {
            if is_return(call, &acted.reply) {
                context.pop();
            }
        }
    }
}

/// Whether the call is a return that was done.
fn is_return(call: &Call, reply: &Reply) -> bool
    ensures { result ≡ is_return call.now reply.now }
{
    matches!((call, reply), (Call::Leave { .. }, Reply::Done))
}

/// Puts a frame behind its answered call (`docs/RULES.md`, "Control of a process").
#[inline(always)]
pub(crate) fn go_behind(world: &World, frame: &mut Frame, reply: &Reply)
    requires { IsFrame world.now frame.old }
    ensures value { frame.new ≡ control.behind world.now frame.old reply.now }
    ensures fits { IsFrame world.now frame.new }
{
    let code = code_of(world, frame);
    if let Some(instr) = code.steps.as_slice().get(frame.at as usize) {
        take_word(frame, instr, reply);
        frame.at += 1;
    }
    frame.refused = matches!(reply, Reply::No(_));
}

/// Puts a word reply into the register that the instruction names.
fn take_word(frame: &mut Frame, instr: &Instr, reply: &Reply)
    requires { IsInstr code_limit instr.now }
    ensures { frame.new ≡ control.with_word frame.old (Some instr.now) reply.now }
{
    if let (Reply::Word(word), Some(reg)) = (reply, target_register(instr)) {
        frame.registers[reg as usize] = *word;
    }
}

/// The register that takes a word reply.
fn target_register(instr: &Instr) -> Option<u8>
    requires { IsInstr code_limit instr.now }
    ensures value { result ≡ control.target_register instr.now }
    ensures reg { IfSome result (λ reg. IsReg reg) }
{
    match instr {
        Instr::Get { reg, .. } | Instr::Length { reg, .. } | Instr::Look { reg, .. } => Some(*reg),
        _ => None,
    }
}
