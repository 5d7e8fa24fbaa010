//! The list of each cell.

ghost use Rattle.std.specs.Prelude.{◌≡◌, ◌<◌, ◌≤◌, ◌+◌, ℕ, None, IfOk, length, slice_index_or, slice_set, vec_capacity, max};
ghost use Rattle.hk_links.specs.Spread.{spread};

use crate::memory::NoMemory;
use std::alloc::Global;
use std::marker::Model;

/// The list that each cell is in. Only those up to the last that was written stand in memory; behind them each is in none.
/// Contracts see the list of each cell.
#[derive(Drop)]
pub(crate) struct Owners {
    front: Vec<Option<u32>>,
    cells: u32,
}

impl Model for Owners {
    ghost use Rattle.std.specs.Prelude.{ℕ, List, Option, None, ◌≤◌, length, vec_capacity};
    ghost use Rattle.hk_links.specs.Spread.{spread};

    ghost Value = { List (Option ℕ) };

    ghost view = { λ a. spread (λ _. None) a.cells 0 a.front.items };

    ghost invariant = { λ a. (length a.front.items ≤ a.cells) × (a.cells ≤ vec_capacity a.front) };
}

impl Owners {
    /// So many cells in no list. No other call takes memory.
    pub(crate) fn with(alloc: Global, cells: u32) -> Result<Owners, NoMemory>
        ensures { IfOk result (λ all. (length all ≡ cells) × ((k : ℕ) → slice_index_or all k None ≡ None)) }
    {
        let front = Vec::with_capacity(alloc, cells as usize)?;
        Ok(Owners { front, cells })
    }

    /// The list that a cell is in.
    #[inline(always)]
    pub(crate) fn get(&self, cell: usize) -> Option<u32>
        requires { cell < length self.now }
        ensures { result ≡ slice_index_or self.now cell None }
    {
        if cell < self.front.len() {
            self.front[cell]
        } else {
            None
        }
    }

    /// Notes the list that a cell is in.
    #[inline(always)]
    pub(crate) fn set(&mut self, cell: usize, owner: Option<u32>)
        requires { cell < length self.old }
        ensures { self.new ≡ slice_set self.old cell owner }
    {
        unroll(&mut self.front, cell);
        self.front[cell] = owner;
    }
}

/// Writes the cells up to a cell. Each is in the list that it was in.
fn unroll(front: &mut Vec<Option<u32>>, cell: usize)
    requires room { cell < vec_capacity front.old }
    ensures there { cell < length front.new.items }
    ensures few { length front.new.items ≤ max (length front.old.items) (cell + 1) }
    ensures room { vec_capacity front.old ≤ vec_capacity front.new }
    ensures same { (n : ℕ) → spread (λ _. None) n 0 front.new.items ≡ spread (λ _. None) n 0 front.old.items }
{
    while front.len() <= cell {
        front.push_reserved(None);
    }
}
