//! Rows of nodes, of which only those up to the last that was written stand in memory.

ghost use Rattle.std.specs.Prelude.{◌≡◌, ◌<◌, ◌≤◌, ◌+◌, ◌^◌, ℕ, IfOk, length, slice_index, slice_set, vec_capacity, max};
ghost use Rattle.hk_links.specs.Spread.{spread};

use crate::memory::NoMemory;
use std::alloc::Global;
use std::marker::Model;

/// Where each node of a row leads. Only those up to the last that was written stand in memory; behind them each leads to
/// itself. Contracts see where all of them lead.
#[derive(Drop)]
pub(crate) struct Row {
    front: Vec<usize>,
    first: u32,
    nodes: u32,
}

impl Model for Row {
    ghost use Rattle.std.specs.Prelude.{ℕ, List, ◌<◌, ◌≤◌, ◌+◌, ◌^◌, length, vec_capacity};
    ghost use Rattle.hk_links.specs.Spread.{spread};

    ghost Value = { List ℕ };

    ghost view = { λ a. spread (λ node. node) a.nodes a.first a.front.items };

    ghost invariant = { λ a. (length a.front.items ≤ a.nodes) × (a.nodes ≤ vec_capacity a.front) × (a.first + a.nodes < 2 ^ 33) };
}

impl Row {
    /// So many nodes, by their numbers from the first one on, each of which leads to itself. No other call takes memory.
    pub(crate) fn with(alloc: Global, first: u32, nodes: u32) -> Result<Row, NoMemory>
        ensures { IfOk result (λ row. (length row ≡ nodes) × ((k : ℕ) → k < nodes → slice_index row k ≡ first + k)) }
    {
        let front = Vec::with_capacity(alloc, nodes as usize)?;
        Ok(Row {
            front,
            first,
            nodes,
        })
    }

    /// The number of nodes.
    #[inline(always)]
    pub(crate) fn len(&self) -> usize
        ensures { result ≡ length self.now }
    {
        self.nodes as usize
    }

    /// Where the node at a place leads.
    #[inline(always)]
    pub(crate) fn get(&self, place: usize) -> usize
        requires { place < length self.now }
        ensures { result ≡ slice_index self.now place }
    {
        if place < self.front.len() {
            self.front[place]
        } else {
            self.first as usize + place
        }
    }

    /// Lets the node at a place lead to another.
    #[inline(always)]
    pub(crate) fn set(&mut self, place: usize, to: usize)
        requires { place < length self.old }
        ensures { self.new ≡ slice_set self.old place to }
    {
        unroll(&mut self.front, self.first, place);
        self.front[place] = to;
    }
}

/// Writes the nodes up to a place. Each leads where it led.
fn unroll(front: &mut Vec<usize>, first: u32, place: usize)
    requires room { place < vec_capacity front.old }
    requires number { first + place < 2 ^ 33 }
    ensures there { place < length front.new.items }
    ensures few { length front.new.items ≤ max (length front.old.items) (place + 1) }
    ensures room { vec_capacity front.old ≤ vec_capacity front.new }
    ensures same { (n : ℕ) → spread (λ node. node) n first front.new.items ≡ spread (λ node. node) n first front.old.items }
{
    while front.len() <= place {
        let node = first as usize + front.len();
        front.push_reserved(node);
    }
}
