//! A history by two machines, each over a kernel of its own.

ghost use Rattle.std.specs.Prelude.{◌≡◌};
ghost use Rattle.hk_model.specs.Opening.{opening};
ghost use Rattle.hk_program.specs.Machines.{IsSound};

use hk_model::{Call, Cpu, Kernel, Line, Making, NoMemory, Refusal, Reply, What, What8, World};
use hk_plain::Plain;
use hk_program::Machine;
use hk_rights::Right;
use hk_table::Table;
use hk_undo::state_text;
use std::alloc::Global;
use std::marker::PhantomData;

/// How many processors make steps.
const PROCESSORS: u8 = 3;

/// How many lines are made at most.
const LINES: u32 = 300_000;

/// What is found: how many lines both kernels made, or the number of the first that differs, from 1. The last states
/// count as one line more.
#[derive(Clone, Copy)]
pub(crate) enum Told {
    Same(u32),
    Differs(u32),
}

/// What the two machines made of the step of a processor.
#[derive(Clone, Copy, PartialEq, Eq)]
enum Step {
    /// Neither has one.
    Missing,
    /// Both have the same line.
    Same,
    /// The lines differ, or one alone has a step.
    Differs,
}

/// Whether two lines are the same.
fn compared(one: Option<Line>, other: Option<Line>) -> Step {
    let _ = PhantomData::<(Making, Call, What, Reply, Refusal, What8, Right)>; // Rattle is to know what a Line holds
    if one != other {
        return Step::Differs;
    }
    match one {
        Some(_line) => Step::Same,
        None => Step::Missing,
    }
}

/// The step of a processor by both machines.
fn step_of<P: Kernel, T: Kernel>(
    alloc: Global,
    world: &World,
    plain: &mut Machine<P>,
    table: &mut Machine<T>,
    cpu: Cpu,
) -> Result<Step, NoMemory>
    requires plain { IsSound world.now plain.old }
    requires table { IsSound world.now table.old }
    ensures plain { IsSound world.now plain.new }
    ensures table { IsSound world.now table.new }
{
    let one = plain.step(alloc, world, cpu)?;
    let other = table.step(alloc, world, cpu)?;
    Ok(compared(one, other))
}

/// The step of the first processor that has one, from some processor on.
fn some_step<P: Kernel, T: Kernel>(
    alloc: Global,
    world: &World,
    plain: &mut Machine<P>,
    table: &mut Machine<T>,
    first: u8,
) -> Result<Step, NoMemory>
    requires plain { IsSound world.now plain.old }
    requires table { IsSound world.now table.old }
    ensures plain { IsSound world.now plain.new }
    ensures table { IsSound world.now table.new }
{
    for k in 0..PROCESSORS {
        let cpu = Cpu((first % PROCESSORS + k) % PROCESSORS);
        let made = step_of(alloc, world, plain, table, cpu)?;
        if made != Step::Missing {
            return Ok(made);
        }
    }
    Ok(Step::Missing)
}

/// A number that looks like chance, and the one that the next is made of.
fn next_number(seed: u32) -> u32 {
    seed.wrapping_mul(1_103_515_245).wrapping_add(12_345)
}

/// The processor that a number chooses.
fn chosen(seed: u32) -> u8 {
    ((seed >> 16) % u32::from(PROCESSORS)) as u8
}

/// Makes lines while some processor has a step and both machines have the same: how many, and whether one differed.
fn make_lines<P: Kernel, T: Kernel>(
    alloc: Global,
    world: &World,
    plain: &mut Machine<P>,
    table: &mut Machine<T>,
) -> Result<Told, NoMemory>
    requires plain { IsSound world.now plain.old }
    requires table { IsSound world.now table.old }
{
    let mut seed = 1;
    for count in 0..LINES {
        seed = next_number(seed);
        match some_step(alloc, world, plain, table, chosen(seed))? {
            Step::Missing => return Ok(Told::Same(count)),
            Step::Same => {}
            Step::Differs => return Ok(Told::Differs(count + 1)),
        }
    }
    Ok(Told::Same(LINES))
}

/// Whether the states of two kernels have the same text.
fn same_state<P: Kernel, T: Kernel>(alloc: Global, plain: &P, table: &T) -> Result<bool, NoMemory> {
    let one = state_text(alloc, &plain.snapshot(alloc)?, 0)?;
    let other = state_text(alloc, &table.snapshot(alloc)?, 0)?;
    Ok(one.as_bytes() == other.as_bytes())
}

/// Makes lines of a world by two kernels that have opened it, and compares.
fn compare_on<P: Kernel, T: Kernel>(
    alloc: Global,
    world: &World,
    plain: P,
    table: T,
) -> Result<Told, NoMemory>
    requires plain { P.state plain ≡ opening world.now }
    requires table { T.state table ≡ opening world.now }
{
    let mut plain = Machine::open(alloc, world, plain)?;
    let mut table = Machine::open(alloc, world, table)?;
    let told = make_lines(alloc, world, &mut plain, &mut table)?;
    match told {
        Told::Same(count) if !same_state(alloc, plain.kernel(), table.kernel())? => {
            Ok(Told::Differs(count.saturating_add(1)))
        }
        _ => Ok(told),
    }
}

/// Makes lines of a world by both kernels, and compares.
pub(crate) fn compare(alloc: Global, world: &World) -> Result<Told, NoMemory> {
    let plain = Plain::new(alloc, world)?;
    compare_table(alloc, world, plain)
}

/// The same, where the plain kernel has opened the world.
fn compare_table<P: Kernel>(alloc: Global, world: &World, plain: P) -> Result<Told, NoMemory>
    requires { P.state plain ≡ opening world.now }
{
    compare_on(alloc, world, plain, Table::new(alloc, world)?)
}
