//! The event of the process that a processor runs, with what takes it back (`docs/RULES.md`, "Lines taken
//! back").

ghost use Rattle.std.specs.Prelude.{◌≡◌, ◌<◌, ◌≤◌, ◌∷◌, [], drop, length, IfOk, IfSome, IsSome, IsTrue, OnErr};
ghost use Rattle.hk_model.specs.declared.calls.Call.{Call};
ghost use Rattle.hk_model.specs.declared.calls.Reply.{Reply};
ghost use Rattle.hk_model.specs.declared.calls.Reply.TheVariants as reply;
ghost use Rattle.hk_model.specs.declared.frames.Todo.TheVariants.{Do};
ghost use Rattle.hk_model.specs.declared.lines.What.TheVariants as what;
ghost use Rattle.hk_model.specs.Control as control;
ghost use Rattle.hk_model.specs.Limits.{depth_limit};
ghost use Rattle.hk_model.specs.Processors.{runner, may_step, process_on, acted_on, halted_on, entered_on};
ghost use Rattle.hk_model.specs.Running.{turn};
ghost use Rattle.hk_plain.specs.Changes.{IsBehind, taken_back};
ghost use Rattle.hk_program.specs.Contexts.{AreFrames};
ghost use Rattle.hk_undo.specs.Pasts.{LeadsBack};

use crate::frames::{FramesBefore, frames_kept};
use hk_model::{Call, Cpu, Frame, NoMemory, Reply, Todo, What, World};
use hk_plain::{Inverse, Plain};
use hk_program::{Context, after, next};
use std::alloc::Global;
use std::mem;

/// An event of a process, with what takes it back.
#[derive(Drop)]
pub(crate) struct Turned {
    pub(crate) what: What,
    pub(crate) reply: Reply,
    /// What takes it back of the state.
    pub(crate) inverse: Inverse,
    /// What takes it back of the frames.
    pub(crate) frames: FramesBefore,
}

/// The event of the process that a processor runs, whose context this is. After NoMemory nothing has
/// changed.
pub(crate) fn turn(
    alloc: Global,
    kernel: &mut Plain,
    context: &mut Context,
    world: &World,
    cpu: Cpu,
) -> Result<Turned, NoMemory>
    requires frames { AreFrames world.now context.old }
    requires few { length context.old ≤ depth_limit }
    requires runs { IsSome (runner kernel.old cpu) }
    requires below { IsTrue (may_step kernel.old) }
    requires code { (call : Call) → (reply : Reply) → IfSome (entered_on kernel.old cpu call reply) (λ code. code < length world.now.codes) }
    requires room { (call : Call) → IfSome (entered_on kernel.old cpu call (acted_on kernel.old cpu call).0) (λ _. length context.old < 64) }
    ensures made { IfOk result (λ made. turn world.now kernel.old (process_on kernel.old cpu) (control.next world.now context.old) ≡ (made.what, made.reply, kernel.new, context.new)) }
    ensures behind { IfOk result (λ made. IsBehind made.inverse kernel.new) }
    ensures back { IfOk result (λ made. taken_back made.inverse kernel.new ≡ kernel.old) }
    ensures frames { IfOk result (λ made. LeadsBack made.frames context.new context.old) }
    ensures err { OnErr result ((kernel.new ≡ kernel.old) × (context.new ≡ context.old)) }
{
    let Some(before) = context.top() else {
        return halted(alloc, kernel, context, cpu);
    };
    match next(context, world) {
        Todo::Do(call) => {
            let made = called(alloc, kernel, context, world, cpu, call, before);
            if made.is_err() {
                context.put_top(before);
            }
            made
        }
        Todo::Halt => {
            context.put_top(before);
            halted(alloc, kernel, context, cpu)
        }
    }
}

/// The call that stands next in the current frame, which was `before` at the process's turn. After NoMemory
/// nothing has changed.
fn called(
    alloc: Global,
    kernel: &mut Plain,
    context: &mut Context,
    world: &World,
    cpu: Cpu,
    call: Call,
    before: Frame,
) -> Result<Turned, NoMemory>
    requires frames { AreFrames world.now context.old }
    requires some { 0 < length context.old }
    requires few { length context.old ≤ depth_limit }
    requires runs { IsSome (runner kernel.old cpu) }
    requires below { IsTrue (may_step kernel.old) }
    requires code { (reply : Reply) → IfSome (entered_on kernel.old cpu call reply) (λ code. code < length world.now.codes) }
    requires room { IfSome (entered_on kernel.old cpu call (acted_on kernel.old cpu call).0) (λ _. length context.old < 64) }
    ensures made { IfOk result (λ made. turn world.now kernel.old (process_on kernel.old cpu) (Do call, context.old) ≡ (made.what, made.reply, kernel.new, context.new)) }
    ensures behind { IfOk result (λ made. IsBehind made.inverse kernel.new) }
    ensures back { IfOk result (λ made. taken_back made.inverse kernel.new ≡ kernel.old) }
    ensures frames { IfOk result (λ made. LeadsBack made.frames context.new (before ∷ drop 1 context.old)) }
    ensures err { OnErr result ((kernel.new ≡ kernel.old) × (context.new ≡ context.old)) }
{
    let what = What::Call(call);
    let (acted, inverse) = kernel.forward(alloc, cpu, &what)?;
    after(context, world, &call, &acted);
    Ok(Turned {
        what,
        reply: acted.reply,
        inverse,
        frames: frames_kept(&call, &acted, before),
    })
}

/// The halt of the process, whose frames all go. After NoMemory nothing has changed.
fn halted(
    alloc: Global,
    kernel: &mut Plain,
    context: &mut Context,
    cpu: Cpu,
) -> Result<Turned, NoMemory>
    requires runs { IsSome (runner kernel.old cpu) }
    requires below { IsTrue (may_step kernel.old) }
    ensures what { IfOk result (λ made. (made.what ≡ what.Halt) × (made.reply ≡ reply.Done)) }
    ensures state { IfOk result (λ made. kernel.new ≡ halted_on kernel.old cpu) }
    ensures gone { IfOk result (λ made. context.new ≡ []) }
    ensures behind { IfOk result (λ made. IsBehind made.inverse kernel.new) }
    ensures back { IfOk result (λ made. taken_back made.inverse kernel.new ≡ kernel.old) }
    ensures frames { IfOk result (λ made. LeadsBack made.frames context.new context.old) }
    ensures err { OnErr result ((kernel.new ≡ kernel.old) × (context.new ≡ context.old)) }
{
    let mut frames = Context::new(alloc, 0)?;
    frames.clear();
    let (acted, inverse) = kernel.forward(alloc, cpu, &What::Halt)?;
    mem::swap(context, &mut frames);
    Ok(Turned {
        what: What::Halt,
        reply: acted.reply,
        inverse,
        frames: FramesBefore::Halted(frames),
    })
}
