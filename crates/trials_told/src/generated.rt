// The generated worlds, made.

ghost use Rattle.std.specs.Prelude.{◌<◌, ◌≤◌};

use hk_gen::generate;
use hk_model::World;
use std::alloc::Global;
use std::test::Fail;

/// The generated world of so many processes.
pub(crate) fn generated(alloc: Global, count: u32) -> Result<World, Fail>
    requires some { 0 < count }
    requires few { count ≤ 256 }
{
    match generate(alloc, count) {
        Ok(world) => Ok(world),
        Err(_) => Err("a world".into()),
    }
}

#[test]
fn worlds_are_generated(rt: HostRuntime) -> Result<(), Fail> {
    let world = generated(rt.alloc(), 11)?;
    assert_eq!(rt; world.limit(), 1_000_000);
    assert_eq!(rt; world.objects().len(), 3);
    assert_eq!(rt; world.codes().len(), 2);
    assert_eq!(rt; world.tasks().len(), 11);
    assert_eq!(rt; world.tasks()[10].label.as_str(), "w10");
    let most = generated(rt.alloc(), 256)?;
    assert_eq!(rt; most.tasks().len(), 256);
    assert_eq!(rt; most.tasks()[255].label.as_str(), "w255");
    Ok(())
}
