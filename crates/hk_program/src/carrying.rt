//! What a kernel and a context do of what is next for a process.

ghost use Rattle.std.specs.Prelude.{◌≡◌, ◌<◌, length, IfOk, OnOk, OnErr, IfSome, IsSome, IsTrue};
ghost use Rattle.hk_model.specs.declared.calls.Call.{Call};
ghost use Rattle.hk_model.specs.declared.calls.Reply.{Reply};
ghost use Rattle.hk_model.specs.Processors.{runner, may_step, process_on, acted_on, entered_on, has_left};
ghost use Rattle.hk_model.specs.Running.{turn};
ghost use Rattle.hk_program.specs.Carrying.{may_want};
ghost use Rattle.hk_program.specs.Contexts.{AreFrames};

use crate::answering::after;
use crate::context::Context;
use hk_model::{Cpu, Inc, Kernel, Line, NoMemory, Proc, Reply, Todo, What, World};
use std::alloc::Global;

/// What was done for a process.
#[derive(Clone, Copy, PartialEq, Eq)]
pub struct Carried {
    pub what: What,
    pub reply: Reply,
    /// Whether the process now waits, has yielded or has ended.
    pub gone: bool,
}

/// Carries out what is next for the process that the processor runs: makes its call and brings its
/// context behind the reply, or ends it and leaves no frame (`docs/RULES.md`, "Steps of
/// processors").
///
/// NoMemory is want of memory for the call, if the kernel's type names it; then nothing changes.
pub fn carry_out<K: Kernel>(
    alloc: Global,
    kernel: &mut K,
    context: &mut Context,
    world: &World,
    cpu: Cpu,
    todo: Todo,
) -> Result<Carried, NoMemory>
    requires frames { AreFrames world.now context.old }
    requires runs { IsSome (runner (K.state kernel.old) cpu) }
    requires below { IsTrue (may_step (K.state kernel.old)) }
    requires code { (call : Call) → (reply : Reply) → IfSome (entered_on (K.state kernel.old) cpu call reply) (λ code. code < length world.now.codes) }
    requires room { (call : Call) → IfSome (entered_on (K.state kernel.old) cpu call (acted_on (K.state kernel.old) cpu call).0) (λ _. length context.old < 64) }
    ensures made { IfOk result (λ made. turn world.now (K.state kernel.old) (process_on (K.state kernel.old) cpu) (todo, context.old) ≡ (made.what, made.reply, K.state kernel.new, context.new)) }
    ensures gone { IfOk result (λ made. made.gone ≡ has_left (K.state kernel.old) cpu (K.state kernel.new)) }
    ensures memory { OnErr result (IsTrue (may_want K.wants todo)) }
    ensures err { OnErr result ((K.state kernel.new ≡ K.state kernel.old) × (context.new ≡ context.old)) }
{
    let mut line = blank_line(cpu);
    let gone = carry_into(alloc, kernel, context, world, &todo, &mut line)?;
    Ok(Carried {
        what: line.what,
        reply: line.reply,
        gone,
    })
}

/// A line of a processor that tells of nothing yet, for `Machine::step_into` to write over
/// (`docs/RULES.md`, "Steps of processors").
pub fn blank_line(cpu: Cpu) -> Line
    ensures { result.cpu ≡ cpu }
{
    Line {
        cpu,
        proc: Proc(0),
        inc: Inc(0),
        what: What::Dispatch,
        reply: Reply::Done,
    }
}

/// The same for the processor of a line, which then tells what was done, and the reply. It gives whether
/// the process now waits, has yielded or has ended.
#[inline(always)]
pub(crate) fn carry_into<K: Kernel>(
    alloc: Global,
    kernel: &mut K,
    context: &mut Context,
    world: &World,
    todo: &Todo,
    line: &mut Line,
) -> Result<bool, NoMemory>
    requires frames { AreFrames world.now context.old }
    requires runs { IsSome (runner (K.state kernel.old) line.old.cpu) }
    requires below { IsTrue (may_step (K.state kernel.old)) }
    requires code { (call : Call) → (reply : Reply) → IfSome (entered_on (K.state kernel.old) line.old.cpu call reply) (λ code. code < length world.now.codes) }
    requires room { (call : Call) → IfSome (entered_on (K.state kernel.old) line.old.cpu call (acted_on (K.state kernel.old) line.old.cpu call).0) (λ _. length context.old < 64) }
    ensures made { OnOk result (turn world.now (K.state kernel.old) (process_on (K.state kernel.old) line.old.cpu) (todo.now, context.old) ≡ (line.new.what, line.new.reply, K.state kernel.new, context.new)) }
    ensures who { OnOk result (line.new ≡ record line.old { what = line.new.what; reply = line.new.reply }) }
    ensures gone { IfOk result (λ gone. gone ≡ has_left (K.state kernel.old) line.old.cpu (K.state kernel.new)) }
    ensures memory { OnErr result (IsTrue (may_want K.wants todo.now)) }
    ensures err { OnErr result ((K.state kernel.new ≡ K.state kernel.old) × (context.new ≡ context.old)) }
{
    match todo {
        Todo::Do(call) => {
            let acted = kernel.answer(alloc, line.cpu, call)?;
            after(context, world, call, &acted);
            line.what = What::Call(*call);
            line.reply = acted.reply;
            Ok(acted.gone)
        }
        Todo::Halt => {
            kernel.halt(line.cpu);
            context.clear();
            line.what = What::Halt;
            line.reply = Reply::Done;
            Ok(true)
        }
    }
}
