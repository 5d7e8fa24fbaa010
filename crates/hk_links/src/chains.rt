//! Lists as rings: behind the cells there is a node for each list, which closes it to a ring, and a cell of no list is
//! a ring alone. So a cell is put in and taken out by writes alone, with no case for the ends.

ghost use Rattle.std.specs.Prelude.{◌≡◌, ◌<◌, ◌≤◌, ◌+◌, ◌++◌, ◌∷◌, ◌↔◌, [], ℕ, List, true, false, Some, length, map, drop, replicate, slice_get, slice_set, IfNone, IfOk, IfSome};
ghost use Rattle.hk_links.specs.Chained.{Chained, listed, in_list, without};

use crate::links::Links;
use crate::memory::NoMemory;
use crate::owners::Owners;
use std::alloc::Global;
use std::marker::Model;

/// A number of lists over one array of cells, doubly linked by index. Each cell is in at most one list. Contracts see
/// the number of cells and the lists.
#[derive(Drop)]
pub struct Chains {
    next: Links,
    previous: Links,
    owners: Owners,
    cells: u32,
    lists: u32,
}

impl Model for Chains {
    ghost use Rattle.hk_links.specs.Chained.{Chained};
    ghost use Rattle.hk_links.specs.Linked.{IsLinked, chains};

    ghost Value = { Chained };

    ghost view = { λ a. record { cells = a.cells; lists = chains a.next a.cells a.cells a.lists } };

    ghost invariant = { λ a. IsLinked a.next a.previous a.owners a.cells (chains a.next a.cells a.cells a.lists) };
}

impl Chains {
    /// So many lists with nothing in them, over so many cells. No other call takes memory.
    pub fn with(alloc: Global, lists: u32, cells: u32) -> Result<Chains, NoMemory>
        ensures { IfOk result (λ chains. chains ≡ record { cells = cells; lists = replicate lists [] }) }
    {
        Ok(Chains {
            next: Links::with(alloc, cells, lists)?,
            previous: Links::with(alloc, cells, lists)?,
            owners: Owners::with(alloc, cells)?,
            cells,
            lists,
        })
    }

    /// Puts a cell of no list at the end of a list.
    pub fn push_back(&mut self, list: u32, cell: u32)
        requires list { list < length self.old.lists }
        requires cell { cell < self.old.cells }
        requires lone { (l : ℕ) → l < length self.old.lists → in_list self.old.lists l cell ≡ false }
        ensures { self.new ≡ record self.old { lists = slice_set self.old.lists list (listed self.old.lists list ++ cell ∷ []) } }
    {
        let c = cell as usize;
        let end = self.cells as usize + list as usize;
        let last = self.previous.get(end);
        self.next.set(last, c);
        self.next.set(c, end);
        self.previous.set(end, c);
        self.previous.set(c, last);
        self.owners.set(c, Some(list));
    }

    /// Takes the first cell of a list out. None exactly where the list is empty.
    pub fn pop_front(&mut self, list: u32) -> Option<u32>
        requires { list < length self.old.lists }
        ensures first { result ≡ slice_get (listed self.old.lists list) 0 }
        ensures cell { IfSome result (λ cell. cell < self.old.cells) }
        ensures rest { self.new ≡ record self.old { lists = slice_set self.old.lists list (drop 1 (listed self.old.lists list)) } }
    {
        match self.front(list) {
            Some(cell) => {
                self.unlink(cell);
                Some(cell)
            }
            None => None,
        }
    }

    /// The first cell of a list. None exactly where the list is empty.
    #[inline(always)]
    pub fn front(&self, list: u32) -> Option<u32>
        requires { list < length self.now.lists }
        ensures first { result ≡ slice_get (listed self.now.lists list) 0 }
        ensures cell { IfSome result (λ cell. cell < self.now.cells) }
        ensures few { length (listed self.now.lists list) ≤ self.now.cells }
    {
        let first = self.next.get(self.cells as usize + list as usize);
        if first < self.cells as usize {
            Some(first as u32)
        } else {
            None
        }
    }

    /// Takes a cell out of its list; the order of the others stays. Where it is in no list nothing changes.
    #[inline(always)]
    pub fn unlink(&mut self, cell: u32)
        requires { cell < self.old.cells }
        ensures lists { self.new ≡ record self.old { lists = map (without cell) self.old.lists } }
        ensures first { (l : ℕ) (rest : List ℕ) → l < length self.old.lists → listed self.old.lists l ≡ cell ∷ rest → self.new.lists ≡ slice_set self.old.lists l rest }
    {
        match self.list_of(cell) {
            Some(_list) => self.take_out(cell),
            None => (),
        }
    }

    /// The same, whether it is in a list or not.
    fn take_out(&mut self, cell: u32)
        requires { cell < self.old.cells }
        ensures lists { self.new ≡ record self.old { lists = map (without cell) self.old.lists } }
        ensures first { (l : ℕ) (rest : List ℕ) → l < length self.old.lists → listed self.old.lists l ≡ cell ∷ rest → self.new.lists ≡ slice_set self.old.lists l rest }
    {
        let c = cell as usize;
        let before = self.previous.get(c);
        let behind = self.next.get(c);
        self.next.set(before, behind);
        self.next.set(c, c);
        self.previous.set(behind, before);
        self.previous.set(c, c);
        self.owners.set(c, None);
    }

    /// The cell behind a cell of a list. None exactly for the last.
    #[inline(always)]
    pub fn next(&self, cell: u32) -> Option<u32>
        requires { cell < self.now.cells }
        ensures next { (l k : ℕ) → l < length self.now.lists → slice_get (listed self.now.lists l) k ≡ Some cell → result ≡ slice_get (listed self.now.lists l) (k + 1) }
        ensures cell { IfSome result (λ behind. behind < self.now.cells) }
    {
        let behind = self.next.get(cell as usize);
        if behind < self.cells as usize {
            Some(behind as u32)
        } else {
            None
        }
    }

    /// The list that a cell is in. None exactly where it is in no list.
    #[inline(always)]
    pub fn list_of(&self, cell: u32) -> Option<u32>
        requires { cell < self.now.cells }
        ensures some { (l : ℕ) → l < length self.now.lists → in_list self.now.lists l cell ≡ true ↔ result ≡ Some l }
        ensures in_range { IfSome result (λ list. list < length self.now.lists) }
        ensures none { IfNone result ((l : ℕ) → l < length self.now.lists → in_list self.now.lists l cell ≡ false) }
    {
        self.owners.get(cell as usize)
    }
}
