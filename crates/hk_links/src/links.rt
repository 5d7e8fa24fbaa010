//! Where the nodes of the rings lead: those of the cells, and behind them those that close the lists.

ghost use Rattle.std.specs.Prelude.{◌≡◌, ◌<◌, ◌+◌, ℕ, IfOk, length, slice_index, slice_set};

use crate::memory::NoMemory;
use crate::rows::Row;
use std::alloc::Global;
use std::marker::Model;

/// Where each node leads. The cells and the lists are two rows, so that memory is touched only up to the last cell and
/// the last list that were written. Contracts see where all nodes lead.
#[derive(Drop)]
pub(crate) struct Links {
    cells: Row,
    lists: Row,
}

impl Model for Links {
    ghost use Rattle.std.specs.Prelude.{ℕ, List, ◌++◌};

    ghost Value = { List ℕ };

    ghost view = { λ a. a.cells ++ a.lists };
}

impl Links {
    /// Nodes that lead to themselves, one for each cell and each list. No other call takes memory.
    pub(crate) fn with(alloc: Global, cells: u32, lists: u32) -> Result<Links, NoMemory>
        ensures { IfOk result (λ all. (length all ≡ cells + lists) × ((k : ℕ) → k < cells + lists → slice_index all k ≡ k)) }
    {
        Ok(Links {
            cells: Row::with(alloc, 0, cells)?,
            lists: Row::with(alloc, cells, lists)?,
        })
    }

    /// Where a node leads.
    #[inline(always)]
    pub(crate) fn get(&self, node: usize) -> usize
        requires { node < length self.now }
        ensures { result ≡ slice_index self.now node }
    {
        let cells = self.cells.len();
        if node < cells {
            self.cells.get(node)
        } else {
            self.lists.get(node - cells)
        }
    }

    /// Lets a node lead to another.
    #[inline(always)]
    pub(crate) fn set(&mut self, node: usize, to: usize)
        requires { node < length self.old }
        ensures { self.new ≡ slice_set self.old node to }
    {
        let cells = self.cells.len();
        if node < cells {
            self.cells.set(node, to);
        } else {
            self.lists.set(node - cells, to);
        }
    }
}
