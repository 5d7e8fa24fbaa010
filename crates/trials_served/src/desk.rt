// A world that workers run at a desk.

ghost use Rattle.std.specs.Prelude.{◌≡◌, IfOk};
ghost use Rattle.hk_model.specs.Opening.{opening};

use crate::commands::{Open, SCRIPT as READING};
use crate::wanting::Wanting;
use crate::worlds::world;
use hk_model::{Call, Cpu, Inc, Kernel, Line, Path, Proc, Reply, What, World};
use hk_plain::Plain;
use hk_procs::{Asked, Called, Desk, Ended, work};
use hk_program::next;
use hk_shared::{Naming, Shared};
use std::alloc::Global;
use std::marker::Brand;
use std::sync::Wait;
use std::test::Fail;

/// One process of a code without instructions.
const SCRIPT: &[u8] = b"hydra 1\ncode main\nend\nprocess a main\nend\n";

/// The same, and one event at most.
const ONE_EVENT: &[u8] = b"hydra 1\nlimit 1\ncode main\nend\nprocess a main\nend\n";

/// What a run leaves.
#[derive(Drop)]
struct Left {
    ended: Ended,
    lines: usize,
    stop: Option<Cpu>,
    current: bool,
}

/// The kernel in which a world opens.
fn plain(alloc: Global, world: &World) -> Result<Plain, Fail>
    ensures { IfOk result (λ kernel. kernel ≡ opening world.now) }
{
    match Plain::new(alloc, world) {
        Ok(kernel) => Ok(kernel),
        Err(_) => Err("a kernel".into()),
    }
}

/// Runs the world that is named, on a kernel that has opened it.
#[tactic(auto, using(hk_shared::proofs::NewPasses::new_runs_nothing))]
fn run_named<K: Kernel, J: Naming, R: Wait>(
    rt: &R,
    alloc: Global,
    world: &World,
    kernel: K,
) -> Result<Left, Fail>
    requires name { world.now ≡ J.world }
    requires opened { K.state kernel ≡ opening world.now }
{
    let started = Shared::<K, J>::start(alloc, kernel, world, 1);
    let (shared, mut passes) = started.ok().ok_or("a desk")?;
    let pass = passes.remove(0);
    let (pass, ended) = work(rt, alloc, &shared, &Open, world, pass);
    passes.push(pass)?;
    let book = shared.close(passes);
    let (lines, stop) = (book.lines().len(), book.stop());
    let current = book.kernel().current(Cpu(0)).is_some();
    let _kernel = book.into_kernel();
    Ok(Left {
        ended,
        lines,
        stop,
        current,
    })
}

/// Runs a world, which it names.
fn run<R: Wait>(rt: &R, alloc: Global, world: &World) -> Result<Left, Fail> {
    run_named::<Plain, Brand, R>(rt, alloc, world, plain(alloc, world)?)
}

#[test]
fn a_worker_makes_the_steps_of_the_only_process(rt: HostRuntime) -> Result<(), Fail> {
    let world = world(rt.alloc(), SCRIPT)?;
    let left = run(&rt, rt.alloc(), &world)?;
    assert!(rt; left.ended == Ended::Over);
    assert_eq!(rt; left.lines, 2);
    assert!(rt; left.stop.is_none());
    assert!(rt; !left.current);
    Ok(())
}

#[test]
fn a_worker_is_over_at_the_limit(rt: HostRuntime) -> Result<(), Fail> {
    let world = world(rt.alloc(), ONE_EVENT)?;
    let left = run(&rt, rt.alloc(), &world)?;
    assert!(rt; left.ended == Ended::Over);
    assert_eq!(rt; left.lines, 1);
    assert!(rt; left.current);
    Ok(())
}

/// How many lines a second processor is told of, where the first runs the only process of the world that is named.
#[tactic(auto, using(hk_shared::proofs::NewPasses::new_runs_nothing))]
fn idle_named<K: Kernel, J: Naming, R: Wait>(
    rt: &R,
    alloc: Global,
    world: &World,
    kernel: K,
) -> Result<u64, Fail>
    requires name { world.now ≡ J.world }
    requires opened { K.state kernel ≡ opening world.now }
{
    let started = Shared::<K, J>::start(alloc, kernel, world, 2);
    let (shared, mut passes) = started.ok().ok_or("a desk")?;
    let first = passes.remove(0);
    let second = passes.remove(0);
    let (_first, _given) = shared.ask(rt, first);
    match shared.ask(rt, second) {
        (_second, Asked::Idle(lines)) => Ok(lines),
        _ => Err("a processor without a process".into()),
    }
}

/// Runs a world, which it names.
fn idle<R: Wait>(rt: &R, alloc: Global, world: &World) -> Result<u64, Fail> {
    idle_named::<Plain, Brand, R>(rt, alloc, world, plain(alloc, world)?)
}

#[test]
fn an_idle_processor_is_told_of_the_lines_up_to_its_turn(rt: HostRuntime) -> Result<(), Fail> {
    let world = world(rt.alloc(), SCRIPT)?;
    assert_eq!(rt; idle(&rt, rt.alloc(), &world)?, 1);
    Ok(())
}

/// The lines that are made of the world that is named where processor 0 runs its only process, which reads a word, and processor 1
/// asks in between.
#[tactic(auto, using(hk_shared::proofs::NewPasses::new_runs_nothing))]
fn lines_named<K: Kernel, J: Naming, R: Wait>(
    rt: &R,
    alloc: Global,
    world: &World,
    kernel: K,
) -> Result<Vec<Line>, Fail>
    requires name { world.now ≡ J.world }
    requires opened { K.state kernel ≡ opening world.now }
{
    let started = Shared::<K, J>::start(alloc, kernel, world, 2);
    let (shared, mut passes) = started.ok().ok_or("a desk")?;
    let first = passes.remove(0);
    let second = passes.remove(0);
    let (first, Asked::Given(proc, mut context)) = shared.ask(rt, first) else {
        return Err("a process".into());
    };
    let (second, Asked::Idle(1)) = shared.ask(rt, second) else {
        return Err("nothing for the other processor".into());
    };
    let todo = next(&mut context, world);
    let (first, Called::Goes(Reply::Word(7), mut context)) = shared.call(
        rt, alloc, first, proc, context, todo,
    ) else {
        return Err("the word".into());
    };
    let todo = next(&mut context, world);
    let (first, Called::Gone(Reply::Done)) = shared.call(rt, alloc, first, proc, context, todo)
    else {
        return Err("the return".into());
    };
    let (second, Asked::Over) = shared.ask(rt, second) else {
        return Err("the end".into());
    };
    passes.push(first)?;
    passes.push(second)?;
    Ok(shared.close(passes).lines().to_vec(alloc)?)
}

/// The lines that are made of a world, which it names.
fn lines<R: Wait>(rt: &R, alloc: Global, world: &World) -> Result<Vec<Line>, Fail> {
    lines_named::<Plain, Brand, R>(rt, alloc, world, plain(alloc, world)?)
}

/// A line of processor 0 and of the only process.
fn line(what: What, reply: Reply) -> Line {
    Line {
        cpu: Cpu(0),
        proc: Proc(0),
        inc: Inc(0),
        what,
        reply,
    }
}

#[test]
fn the_calls_of_the_desk_make_the_lines(rt: HostRuntime) -> Result<(), Fail> {
    let alloc = rt.alloc();
    let made = lines(&rt, alloc, &world(alloc, READING.as_slice())?)?;
    let of = Path::new(&[0]).ok_or("a path")?;
    let due = [
        line(What::Dispatch, Reply::Done),
        line(What::Call(Call::Get { of, at: 0 }), Reply::Word(7)),
        line(What::Call(Call::Leave { give: None }), Reply::Done),
    ];
    assert!(rt; made.as_slice() == due.as_slice());
    Ok(())
}

/// Two processes that change a word list.
const ADDING: &[u8] =
    b"hydra 1\nobject d DATA\nend\ncode main\nadddata 0 1\nend\nprocess a main\ncap d ADDDATA+MODIFY\nend\nprocess b main\ncap d ADDDATA+MODIFY\nend\n";

/// What is left of the world that is named where the first call of processor 0 wants memory, and processor 1, which runs nothing, asks
/// behind it.
#[tactic(auto, using(hk_shared::proofs::NewPasses::new_runs_nothing))]
fn asked_named<K: Kernel, J: Naming, R: Wait>(
    rt: &R,
    alloc: Global,
    world: &World,
    kernel: K,
) -> Result<(usize, Option<Cpu>), Fail>
    requires name { world.now ≡ J.world }
    requires opened { K.state kernel ≡ opening world.now }
{
    let started = Shared::<K, J>::start(alloc, kernel, world, 2);
    let (shared, mut passes) = started.ok().ok_or("a desk")?;
    let first = passes.remove(0);
    let second = passes.remove(0);
    let (first, Asked::Given(proc, mut context)) = shared.ask(rt, first) else {
        return Err("a process".into());
    };
    let todo = next(&mut context, world);
    let (first, Called::NoMemory) = shared.call(rt, alloc, first, proc, context, todo) else {
        return Err("want of memory".into());
    };
    let (second, Asked::Stopped) = shared.ask(rt, second) else {
        return Err("the stop".into());
    };
    passes.push(first)?;
    passes.push(second)?;
    let book = shared.close(passes);
    Ok((book.lines().len(), book.stop()))
}

/// The same, but processor 1 runs a process, and makes a call of it behind that.
#[tactic(auto, using(hk_shared::proofs::NewPasses::new_runs_nothing))]
fn called_named<K: Kernel, J: Naming, R: Wait>(
    rt: &R,
    alloc: Global,
    world: &World,
    kernel: K,
) -> Result<(usize, Option<Cpu>), Fail>
    requires name { world.now ≡ J.world }
    requires opened { K.state kernel ≡ opening world.now }
{
    let started = Shared::<K, J>::start(alloc, kernel, world, 2);
    let (shared, mut passes) = started.ok().ok_or("a desk")?;
    let first = passes.remove(0);
    let second = passes.remove(0);
    let (first, Asked::Given(proc, mut context)) = shared.ask(rt, first) else {
        return Err("a process".into());
    };
    let (second, Asked::Given(other, mut rest)) = shared.ask(rt, second) else {
        return Err("another process".into());
    };
    let todo = next(&mut context, world);
    let (first, Called::NoMemory) = shared.call(rt, alloc, first, proc, context, todo) else {
        return Err("want of memory".into());
    };
    let todo = next(&mut rest, world);
    let (second, Called::Stopped) = shared.call(rt, alloc, second, other, rest, todo) else {
        return Err("the stop".into());
    };
    passes.push(first)?;
    passes.push(second)?;
    let book = shared.close(passes);
    Ok((book.lines().len(), book.stop()))
}

/// A kernel that has opened the world, and whose first call wants memory.
fn wanting(alloc: Global, world: &World) -> Result<Wanting, Fail>
    ensures { IfOk result (λ kernel. kernel.plain ≡ opening world.now) }
{
    match Wanting::new(alloc, world) {
        Ok(kernel) => Ok(kernel),
        Err(_) => Err("a kernel".into()),
    }
}

/// The first of these for a world, which it names.
fn asked<R: Wait>(rt: &R, alloc: Global, world: &World) -> Result<(usize, Option<Cpu>), Fail> {
    asked_named::<Wanting, Brand, R>(rt, alloc, world, wanting(alloc, world)?)
}

/// The second of these for a world, which it names.
fn called<R: Wait>(rt: &R, alloc: Global, world: &World) -> Result<(usize, Option<Cpu>), Fail> {
    called_named::<Wanting, Brand, R>(rt, alloc, world, wanting(alloc, world)?)
}

#[test]
fn a_stop_is_told_and_makes_no_line(rt: HostRuntime) -> Result<(), Fail> {
    let world = world(rt.alloc(), ADDING)?;
    assert!(rt; asked(&rt, rt.alloc(), &world)? == (1, Some(Cpu(0))));
    assert!(rt; called(&rt, rt.alloc(), &world)? == (2, Some(Cpu(0))));
    Ok(())
}
