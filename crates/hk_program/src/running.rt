//! What a process does next.

ghost use Rattle.std.specs.Prelude.{◌≡◌, ◌≤◌, drop, length};
ghost use Rattle.hk_model.specs.Limits.{local_limit};
ghost use Rattle.hk_model.specs.WorldValue.{IsCode};
ghost use Rattle.hk_model.specs.Control as control;
ghost use Rattle.hk_model.specs.Control.{here, next_from, steps_of};
ghost use Rattle.hk_program.specs.Contexts.{AreFrames, IsFrame};
ghost use Rattle.hk_program.specs.Meanings.{is_local, left_by, todo_in};

use crate::calling::write_todo;
use crate::codes::code_of;
use crate::context::Context;
use crate::stepping::step_local;
use hk_model::limits::LOCAL_LIMIT;
use hk_model::{Call, Code, Frame, Todo, World};

/// What a process does next: the kernel call that stands next behind its local instructions, at the
/// code's end a return without a slot, or a halt where a local instruction still stands next behind
/// 10,000 of them (`docs/RULES.md`, "Control of a process"). A process without a frame is halted.
///
/// The context must fit the world: each of its frames is at an instruction of a code of the world or
/// at that code's end. It still fits afterwards, and keeps what the local instructions changed, in
/// the current frame alone. It takes no memory.
#[tactic(auto, unfolding(hk_model::specs::Control::next))]
pub fn next(context: &mut Context, world: &World) -> Todo
    requires { AreFrames world.now context.old }
    ensures value { (result, context.new) ≡ control.next world.now context.old }
    ensures fits { AreFrames world.now context.new }
    ensures depth { length context.new ≡ length context.old }
    ensures others { drop 1 context.new ≡ drop 1 context.old }
{
    let mut todo = Todo::Halt;
    context.run_top(world, &mut todo);
    todo
}

/// Writes what is next in a frame of the world, which keeps what its local instructions changed
/// (`docs/RULES.md`, "Control of a process").
#[tactic(auto, using(crate::proofs::Locals::no_more_turns))]
pub(crate) fn run(world: &World, frame: &mut Frame, todo: &mut Todo)
    requires { IsFrame world.now frame.old }
    ensures value { let steps = steps_of world.now frame.old.code in
        (todo.new, frame.new) ≡ next_from local_limit steps frame.old (here steps frame.old) }
    ensures fits { IsFrame world.now frame.new }
{
    let code = code_of(world, frame);
    run_locals(code, frame);
    write_here(code, frame, todo);
}

/// Runs local instructions until none stands next, at most 10,000.
#[tactic(auto, using(crate::proofs::Locals::next_is_local, crate::proofs::Locals::next_is_call))]
fn run_locals(code: &Code, frame: &mut Frame)
    requires valid { IsCode code.now }
    requires inside { frame.old.at ≤ length code.now.steps }
    ensures rest { let steps = code.now.steps in
        next_from 0 steps frame.new (here steps frame.new)
        ≡ next_from local_limit steps frame.old (here steps frame.old) }
    ensures inside { frame.new.at ≤ length code.now.steps }
    ensures code { frame.new.code ≡ frame.old.code }
{
    for _turn in 0..LOCAL_LIMIT {
        if !step_here(code, frame) {
            return;
        }
    }
}

/// Makes the local instruction that stands next, and says whether one did.
fn step_here(code: &Code, frame: &mut Frame) -> bool
    requires valid { IsCode code.now }
    requires inside { frame.old.at ≤ length code.now.steps }
    ensures local { result ≡ is_local (here code.now.steps frame.old) }
    ensures left { frame.new ≡ left_by frame.old (here code.now.steps frame.old) }
    ensures inside { frame.new.at ≤ length code.now.steps }
    ensures code { frame.new.code ≡ frame.old.code }
{
    match code.steps.as_slice().get(frame.at as usize) {
        Some(instr) => step_local(frame, instr),
        None => false,
    }
}

/// Writes what is next where no more local instructions may be run: the call that stands next, at the code's end a
/// return, or a halt exactly where a local instruction stands next.
fn write_here(code: &Code, frame: &Frame, todo: &mut Todo)
    requires { IsCode code.now }
    ensures { todo.new ≡ todo_in (here code.now.steps frame.now) }
{
    match code.steps.as_slice().get(frame.at as usize) {
        Some(instr) => write_todo(frame, instr, todo),
        None => *todo = Todo::Do(Call::Leave { give: None }),
    }
}
