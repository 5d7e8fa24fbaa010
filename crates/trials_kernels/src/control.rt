// Local instructions up to a call, refusals, and frames that come and go.

ghost use Rattle.std.specs.Prelude.{◌≡◌, ◌<◌, IfOk, length};
ghost use Rattle.hk_program.specs.Contexts.{AreFrames};

use crate::worlds::world;
use hk_model::{Acted, Args, Call, Path, Refusal, Reply, Slot, World};
use hk_program::{Context, Frame, Todo, after, next};
use std::alloc::Global;
use std::test::Fail;

/// The context of a process that begins the first code.
fn begun(alloc: Global, world: &World) -> Result<Context, Fail>
    ensures frames { IfOk result (λ context. AreFrames world.now context) }
    ensures depth { IfOk result (λ context. length context ≡ 1) }
{
    if world.codes().is_empty() {
        return Err("a code".into());
    }
    match Context::new(alloc, 0) {
        Ok(context) => Ok(context),
        Err(_) => Err("a context".into()),
    }
}

/// Whether a process with a frame makes this call next.
fn makes(context: &mut Context, world: &World, call: &Call) -> bool
    requires { AreFrames world.now context.old }
    ensures frames { AreFrames world.now context.new }
    ensures depth { length context.new ≡ length context.old }
{
    context.top().is_some() && next(context, world) == Todo::Do(*call)
}

/// Whether this is the current frame.
fn is_on_top(context: &Context, frame: &Frame) -> bool {
    context.top() == Some(*frame)
}

/// Answers a call of a process with a frame; no procedure is entered.
fn answer(context: &mut Context, world: &World, call: &Call, reply: Reply)
    requires { AreFrames world.now context.old }
    ensures { AreFrames world.now context.new }
{
    let acted = Acted {
        reply,
        code: None,
        gone: false,
    };
    if context.top().is_some() {
        after(context, world, call, &acted);
    }
}

/// Answers a call of a process with a frame, by which it enters a procedure of the second code.
fn enter(context: &mut Context, world: &World, call: &Call)
    requires frames { AreFrames world.now context.old }
    requires room { length context.old < 64 }
    ensures { AreFrames world.now context.new }
{
    let acted = Acted {
        reply: Reply::Done,
        code: Some(1),
        gone: false,
    };
    if context.top().is_some() && world.codes().len() > 1 {
        after(context, world, call, &acted);
    }
}

/// Whether a process with a frame makes this call next; then it is answered, and no procedure is entered.
fn goes(context: &mut Context, world: &World, call: &Call, reply: Reply) -> bool
    requires { AreFrames world.now context.old }
    ensures { AreFrames world.now context.new }
{
    let is_next = makes(context, world, call);
    answer(context, world, call, reply);
    is_next
}

/// Whether a process with a frame makes this call next; then it enters a procedure of the second code.
fn goes_in(context: &mut Context, world: &World, call: &Call) -> bool
    requires frames { AreFrames world.now context.old }
    requires room { length context.old < 64 }
    ensures { AreFrames world.now context.new }
{
    let is_next = makes(context, world, call);
    enter(context, world, call);
    is_next
}

/// A code that counts to 3 before its call, and then asks whether this was refused.
const COUNTS: &[u8] =
    b"hydra 1\ncode first\nlabel again\nadd r0 1\niflt r0 3 again\nputdata 0 9 r0\nifdenied refused\nyield\nlabel refused\ndrop 1\nend\n";

#[test]
fn a_loop_counts_up_to_its_call_and_a_refusal_is_told(rt: HostRuntime) -> Result<(), Fail> {
    let world = world(rt.alloc(), COUNTS)?;
    let mut context = begun(rt.alloc(), &world)?;
    let of = Path::new(&[0]).ok_or("a path")?;
    let put = Call::Put { of, at: 9, word: 3 };
    assert!(rt; goes(&mut context, &world, &put, Reply::No(Refusal::Count)));
    let drop = Call::Drop { slot: Slot(1) };
    assert!(rt; makes(&mut context, &world, &drop));
    let frame = Frame {
        code: 0,
        at: 5,
        registers: [3, 0, 0, 0, 0, 0, 0, 0],
        refused: true,
    };
    assert!(rt; is_on_top(&context, &frame));
    Ok(())
}

/// A code that calls a procedure of the second.
const CALLS: &[u8] = b"hydra 1\ncode first\ncall 0 1\nend\ncode second\nlook 0 r2\nend\n";

/// The frame of a code behind its first instruction, with this word in the register r2.
fn behind_the_first(code: u16, word: u32) -> Frame {
    Frame {
        code,
        at: 1,
        registers: [0, 0, word, 0, 0, 0, 0, 0],
        refused: false,
    }
}

/// Whether the procedure of the second code is entered, looks, and has the word that it is told.
fn looks(context: &mut Context, world: &World, proc: Path, args: Args) -> bool
    requires frames { AreFrames world.now context.old }
    requires room { length context.old < 64 }
    ensures { AreFrames world.now context.new }
{
    let into = Slot(1);
    let is_in = goes_in(context, world, &Call::Enter { proc, args, into });
    let looks = goes(context, world, &Call::Look { of: proc }, Reply::Word(7));
    is_in && looks && is_on_top(context, &behind_the_first(1, 7))
}

#[test]
fn an_enter_puts_a_frame_on_top_and_a_return_takes_it(rt: HostRuntime) -> Result<(), Fail> {
    let world = world(rt.alloc(), CALLS)?;
    let mut context = begun(rt.alloc(), &world)?;
    let proc = Path::new(&[0]).ok_or("a path")?;
    let args = Args::new(&[]).ok_or("arguments")?;
    assert!(rt; looks(&mut context, &world, proc, args));
    let leave = Call::Leave { give: None };
    assert!(rt; goes(&mut context, &world, &leave, Reply::Done));
    assert!(rt; is_on_top(&context, &behind_the_first(0, 0)));
    assert!(rt; goes(&mut context, &world, &leave, Reply::Done));
    assert!(rt; context.top().is_none());
    Ok(())
}
