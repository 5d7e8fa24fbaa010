// A machine whose only process returns at once, and the laws of its history. The machine is handed to functions over any kernel, which
// let it go.

ghost use Rattle.std.specs.Prelude.{◌≡◌};
ghost use Rattle.hk_model.specs.Opening.{opening};
ghost use Rattle.hk_program.specs.Machines.{IsSound};

use crate::worlds::world;
use hk_model::{Cpu, End, Kernel, World, denial_law, permission_law, rules_inferred};
use hk_plain::Plain;
use hk_program::{Machine, end_word, kept_law, shapes_law};
use std::alloc::Global;
use std::test::Fail;

/// A process of a code without instructions.
const SCRIPT: &[u8] = b"hydra 1\ncode main\nend\nprocess a main\nend\n";

/// Whether processor 0 has a step, which is made.
fn steps<K: Kernel>(alloc: Global, world: &World, machine: &mut Machine<K>) -> Result<bool, Fail>
    requires { IsSound world.now machine.old }
    ensures { IsSound world.now machine.new }
{
    match machine.step(alloc, world, Cpu(0)) {
        Ok(line) => Ok(line.is_some()),
        Err(_) => Err("a step".into()),
    }
}

/// The end word of a kernel's state.
fn word_of<K: Kernel>(alloc: Global, kernel: &K) -> Result<Option<End>, Fail> {
    match end_word(alloc, kernel) {
        Ok(word) => Ok(word),
        Err(_) => Err("a state".into()),
    }
}

/// What processor 0 does, and the end words of its machine and of the machine's kernel.
#[derive(Clone, Copy, PartialEq, Eq, Debug)]
struct Seen {
    stepped: bool,
    of_machine: Option<End>,
    of_kernel: Option<End>,
}

/// The next step of processor 0, and what the end words are behind it.
fn moment<K: Kernel>(alloc: Global, world: &World, machine: &mut Machine<K>) -> Result<Seen, Fail>
    requires { IsSound world.now machine.old }
    ensures { IsSound world.now machine.new }
{
    Ok(Seen {
        stepped: steps(alloc, world, machine)?,
        of_machine: machine.end_word(world),
        of_kernel: word_of(alloc, machine.kernel())?,
    })
}

/// The three moments of a run on processor 0.
fn moments<K: Kernel>(
    alloc: Global,
    world: &World,
    machine: &mut Machine<K>,
) -> Result<[Seen; 3], Fail>
    requires { IsSound world.now machine.old }
{
    let dispatched = moment(alloc, world, machine)?;
    let returned = moment(alloc, world, machine)?;
    let over = moment(alloc, world, machine)?;
    Ok([dispatched, returned, over])
}

/// The run of a kernel that has opened the world, and the end word of the kernel that its machine gives back.
fn run<K: Kernel>(alloc: Global, world: &World, kernel: K) -> Result<([Seen; 3], Option<End>), Fail>
    requires { K.state kernel ≡ opening world.now }
{
    let Ok(mut machine) = Machine::open(alloc, world, kernel) else {
        return Err("a machine".into());
    };
    let moments = moments(alloc, world, &mut machine)?;
    let kernel = machine.into_kernel();
    Ok((moments, word_of(alloc, &kernel)?))
}

/// The run of the script.
fn run_of_script(alloc: Global) -> Result<([Seen; 3], Option<End>), Fail> {
    let world = world(alloc, SCRIPT)?;
    rules_inferred();
    permission_law(&world, &[]);
    denial_law(&world, &[]);
    kept_law(&world, &[]);
    shapes_law(&world, &[]);
    let Ok(kernel) = Plain::new(alloc, &world) else {
        return Err("a kernel".into());
    };
    run(alloc, &world, kernel)
}

#[test]
fn a_machine_steps_until_its_processes_have_ended(rt: HostRuntime) -> Result<(), Fail> {
    let (moments, word) = run_of_script(rt.alloc())?;
    let running = Seen {
        stepped: true,
        of_machine: None,
        of_kernel: None,
    };
    let done = Some(End::Done);
    let returned = Seen {
        stepped: true,
        of_machine: done,
        of_kernel: done,
    };
    let over = Seen {
        stepped: false,
        ..returned
    };
    assert!(rt; moments == [running, returned, over]);
    assert!(rt; word == done);
    Ok(())
}
