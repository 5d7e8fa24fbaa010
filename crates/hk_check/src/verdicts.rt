//! A record has one verdict (`docs/FORMATS.md`, "Legal records").

ghost use Rattle.std.specs.Prelude.{◌≡◌};
ghost use Rattle.hk_model.specs.Verdicts.{IsVerdict};

use hk_model::{End, Line, Verdict, World};

/// Lines and an end word have at most one verdict: no record is both legal and not, and one that is
/// not has one first bad line, with one first cause. The function does nothing; its contract is the
/// law.
#[tactic(auto, using(crate::proofs::OneVerdict::one_verdict))]
pub fn verdict_is_one(world: &World, lines: &[Line], end: End, one: Verdict, other: Verdict)
    requires first { IsVerdict world.now lines.now end one }
    requires second { IsVerdict world.now lines.now end other }
    ensures { one ≡ other }
{
    let _limit = world.limit();
    let _count = lines.len();
}
