//! Blocks of the runs that hold an object, so that many which raise nothing are passed over together (`docs/RULES.md`,
//! "Reaches").

ghost use Rattle.std.specs.Prelude.{◌≡◌, IfOk};
ghost use Rattle.std.specs.List.{AllByRecursion};
ghost use Rattle.hk_report.specs.Reachable.{moment_at, IsByThen};
ghost use Rattle.hk_report.specs.HeldBlocks.{IsSoonest, IsWithin, AreHeldBlocks, held_blocks_at, AreHeldBlocked};

use crate::blocks::IN_BLOCK;
use crate::holders::Stretch;
use crate::reachable::moment_at;
use hk_model::{Items, Name, NoMemory};
use std::alloc::Global;

/// What is known of a block of the runs that hold an object.
#[derive(Clone, Copy)]
pub struct HeldBlock {
    /// None of them begins before this moment.
    pub from: u32,
    /// No call that begins later comes to any of the lists in which they stand, counted back; None where none comes at all.
    pub last: Option<u32>,
}

/// A moment that is behind neither of two, where there are any: the lesser one.
fn sooner(a: Option<u32>, b: Option<u32>) -> Option<u32>
    ensures { IsSoonest a b result }
{
    match (a, b) {
        (Some(first), Some(second)) => Some(first.min(second)),
        (Some(_), None) => a,
        _ => b,
    }
}

impl HeldBlock {
    /// A block of these runs.
    fn around(held: &[Stretch], lasts: &[Option<u32>]) -> HeldBlock
        ensures { AllByRecursion (IsWithin (moment_at lasts.now) result) held.now }
    {
        let mut block = HeldBlock {
            from: u32::MAX,
            last: None,
        };
        for stretch in held {
            block = HeldBlock {
                from: block.from.min(stretch.from),
                last: sooner(block.last, moment_at(lasts, stretch.by)),
            };
        }
        block
    }
}

/// The blocks of the runs that hold an object. Those behind them that fill none stand in none.
fn held_blocks_of(
    alloc: Global,
    held: &[Stretch],
    lasts: &[Option<u32>],
) -> Result<Items<HeldBlock>, NoMemory>
    ensures { IfOk result (λ blocks. AreHeldBlocks (moment_at lasts.now) held.now blocks) }
{
    let mut all = Items::new(alloc);
    let mut rest = held;
    while rest.len() >= IN_BLOCK {
        let (some, more) = rest.split_at(IN_BLOCK);
        all.push(HeldBlock::around(some, lasts))?;
        rest = more;
    }
    Ok(all)
}

/// The blocks of the runs that hold each object, by its name. `lasts` are the last moments at which calls can begin that
/// come to objects, counted back. NoMemory is want of memory.
pub(crate) fn held_blocks(
    alloc: Global,
    holders: &[Items<Stretch>],
    lasts: &[Option<u32>],
) -> Result<Vec<Items<HeldBlock>>, NoMemory>
    ensures { IfOk result (λ all. AreHeldBlocked (moment_at lasts.now) holders.now all.items) }
{
    let mut all = Vec::with_capacity(alloc, holders.len())?;
    for held in holders {
        all.push(held_blocks_of(alloc, held.as_slice(), lasts)?)?;
    }
    Ok(all)
}

/// The blocks of the runs that hold an object.
pub(crate) fn held_blocks_at(all: &[Items<HeldBlock>], name: Name) -> &[HeldBlock]
    ensures { result.now ≡ held_blocks_at all.now name }
{
    match all.get(name.0 as usize) {
        Some(blocks) => blocks.as_slice(),
        None => &[],
    }
}
