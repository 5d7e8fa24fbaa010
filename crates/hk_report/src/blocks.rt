//! Blocks of runs, so that many which cannot matter to a search are passed over together (`docs/RULES.md`, "Reaches").

ghost use Rattle.std.specs.Prelude.{◌≡◌, IfOk};
ghost use Rattle.hk_report.specs.Blocks.{IsAround, AreBlocks, blocks_at, AreBlocked};
ghost use Rattle.hk_report.specs.Runs.{AreCut, AreRuns};

use crate::histories::{History, Span};
use crate::runs::{ends_at, spans_at};
use hk_model::{Items, Name, NoMemory};
use std::alloc::Global;

/// So many runs that stand together make up a block.
pub(crate) const IN_BLOCK: usize = 64;

/// What is known of a block of the runs of a list.
#[derive(Clone, Copy)]
pub struct Block {
    /// None of its spans begins before this moment.
    pub from: u32,
    /// None of them ends after this one.
    pub until: u32,
}

impl Block {
    /// A block of these spans.
    fn around(spans: &[Span]) -> Block
        ensures { IsAround result spans.now }
    {
        let mut block = Block {
            from: u32::MAX,
            until: 0,
        };
        for span in spans {
            block.from = block.from.min(span.from);
            block.until = block.until.max(span.until);
        }
        block
    }
}

/// The blocks of the runs of these spans, which end at these places. Runs behind them that fill none stand in none.
fn blocks_of(alloc: Global, spans: &[Span], ends: &[usize]) -> Result<Items<Block>, NoMemory>
    requires { AreCut 0 ends.now spans.now }
    ensures { IfOk result (λ blocks. AreBlocks 0 ends.now spans.now blocks) }
{
    let mut all = Items::new(alloc);
    let mut start = 0;
    let mut rest = ends;
    while rest.len() >= IN_BLOCK {
        let (runs, more) = rest.split_at(IN_BLOCK);
        let end = runs[IN_BLOCK - 1];
        all.push(Block::around(&spans[start..end]))?;
        start = end;
        rest = more;
    }
    Ok(all)
}

/// The blocks of the runs of each list, by the name of its object. `runs` are the places at which these end. NoMemory is
/// want of memory.
pub(crate) fn all_blocks(
    alloc: Global,
    histories: &[History],
    runs: &[Items<usize>],
) -> Result<Vec<Items<Block>>, NoMemory>
    requires { AreRuns histories.now runs.now }
    ensures { IfOk result (λ all. AreBlocked histories.now runs.now all.items) }
{
    let mut all = Vec::with_capacity(alloc, histories.len())?;
    for index in 0..histories.len() {
        let by = Name(index as u64);
        let spans = spans_at(histories, by);
        all.push(blocks_of(alloc, spans, ends_at(runs, by))?)?;
    }
    Ok(all)
}

/// The blocks of the runs of a list.
pub(crate) fn blocks_at(all: &[Items<Block>], name: Name) -> &[Block]
    ensures { result.now ≡ blocks_at all.now name }
{
    match all.get(name.0 as usize) {
        Some(blocks) => blocks.as_slice(),
        None => &[],
    }
}
