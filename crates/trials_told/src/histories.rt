// The first lines of a world's run.

ghost use Rattle.std.specs.Prelude.{◌≡◌, IfOk, IfSome, Some};
ghost use Rattle.hk_model.specs.Running.{AreStepsOf, step};
ghost use Rattle.hk_program.specs.Machines.{IsSound};

use hk_model::{Call, Cpu, Items, Line, Making, Refusal, Reply, What, What8, World};
use hk_plain::Plain;
use hk_program::Machine;
use hk_rights::Right;
use std::alloc::Global;
use std::marker::PhantomData;
use std::test::Fail;

/// The line of a step of processor 0.
fn step(alloc: Global, world: &World, machine: &mut Machine<Plain>) -> Result<Option<Line>, Fail>
    requires { IsSound world.now machine.old }
    ensures made { IfOk result (λ line. IfSome line (λ line. step world.now machine.old (record { 0 = 0 }) ≡ Some (line, machine.new))) }
    ensures sound { IsSound world.now machine.new }
{
    match machine.step(alloc, world, Cpu(0)) {
        Ok(line) => Ok(line),
        Err(_) => Err(Fail::from("a step")),
    }
}

/// The first lines on processor 0.
pub(crate) fn first_steps(alloc: Global, world: &World) -> Result<Items<Line>, Fail>
    ensures { IfOk result (λ lines. AreStepsOf world.now lines) }
{
    let _ = PhantomData::<(Making, Call, What, Reply, Refusal, What8, Right)>; // Rattle is to know what a Line holds
    let kernel = Plain::new(alloc, world).ok().ok_or("a kernel")?;
    let mut machine = Machine::open(alloc, world, kernel).ok().ok_or("a machine")?;
    let mut lines = Items::new(alloc);
    for _ in 0..7 {
        let Some(line) = step(alloc, world, &mut machine)? else {
            break;
        };
        lines.push(line)?;
    }
    Ok(lines)
}
