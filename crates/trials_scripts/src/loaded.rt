// A script that is loaded and kept.

ghost use Rattle.std.specs.Prelude.{◌<◌, ◌^◌, length};

use hk_load::load;
use hk_script::parse_source;
use std::alloc::Global;
use std::test::Fail;

/// A world whose names and labels are declared behind their uses.
const SCRIPT: &[u8] =
    b"hydra 1\nprocess p c\ncap d ENV\namplify t - ALL\nend\ncode c\nlabel l\ngoto m\nlabel m\ngoto l\nend\nlimit 7\ntype t\nobject d t\nwords 5 6\ncap LNS -\nend\n";

/// How many objects the world of a script has, which is kept, and how many items the script.
#[tactic(auto, using(hk_text::proofs::LineCount::lines_few))]
fn kept(alloc: Global, script: &[u8]) -> Option<(usize, usize)>
    requires { length script.now < 2 ^ 31 }
{
    let syntax = parse_source(alloc, script).ok()?;
    let world = load(alloc, &syntax).ok()?;
    Some((world.objects().len(), syntax.items().len()))
}

#[test]
fn keeps_a_script(rt: HostRuntime) -> Result<(), Fail> {
    assert_eq!(rt; kept(rt.alloc(), SCRIPT), Some((2, 5)));
    Ok(())
}
