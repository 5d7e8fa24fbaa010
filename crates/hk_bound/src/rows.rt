//! What each process is known to have: a cell for each process and column.

ghost use Rattle.std.specs.Prelude.{◌≡◌, ◌<◌, IfOk, IfSome, OnOk, length, slice_set, slice_index_or, replicate, None, [], ◌∷◌, ◌++◌};
ghost use Rattle.hk_rights.specs.Rights.{IsRightsWord};
ghost use Rattle.hk_bound.specs.Columns.{cell, covers, joined, joined_rows, empty_rows};

use hk_model::{Items, NoMemory};
use hk_rights::Rights;
use std::alloc::Global;
use std::marker::Model;

/// A row for each process, with a cell for each column: none where the process is not known to have
/// what the column stands for, and else the rights for it.
#[derive(Drop)]
pub(crate) struct Rows {
    rows: Vec<Items<Option<Rights>>>,
}

impl Model for Rows {
    ghost use Rattle.std.specs.Prelude.{ℕ, List, Option};

    ghost Value = { List (List (Option ℕ)) };

    ghost view = { λ a. a.rows.items };
}

/// Whether a cell has all of these rights.
pub(crate) fn covers(cell: Option<Rights>, rights: Rights) -> bool
    ensures value { result ≡ covers cell rights }
    ensures word { IsRightsWord rights }
{
    match cell {
        None => false,
        Some(old) => old.contains(rights),
    }
}

/// A cell with these rights besides.
pub(crate) fn joined(cell: Option<Rights>, rights: Rights) -> Option<Rights>
    ensures value { result ≡ joined cell rights }
    ensures word { IfSome result (λ r. IsRightsWord r) }
{
    match cell {
        None => Some(rights),
        Some(old) => Some(old.union(rights)),
    }
}

/// The cell of a row at a column, none outside the row.
pub(crate) fn cell_at(row: &[Option<Rights>], column: usize) -> Option<Rights>
    ensures { result ≡ slice_index_or row.now column None }
{
    match row.get(column) {
        None => None,
        Some(cell) => *cell,
    }
}

impl Rows {
    /// Rows of cells with nothing.
    pub(crate) fn new(alloc: Global, count: usize, width: usize) -> Result<Rows, NoMemory>
        ensures { IfOk result (λ rows. rows ≡ empty_rows count width) }
    {
        let mut rows = Vec::new(alloc);
        for _ in 0..count {
            rows.push(Items::from_vec(vec![in alloc; None; width]?))?;
        }
        Ok(Rows { rows })
    }

    /// Adds a row behind the others.
    pub(crate) fn push(&mut self, row: Vec<Option<Rights>>) -> Result<(), NoMemory>
        ensures { OnOk result (self.new ≡ self.old ++ row.items ∷ []) }
    {
        self.rows.push(Items::from_vec(row))?;
        Ok(())
    }

    /// The cell of a process and a column, none outside the rows.
    pub(crate) fn get(&self, process: usize, column: usize) -> Option<Rights>
        ensures { result ≡ cell self.now process column }
    {
        match self.rows.get(process) {
            None => None,
            Some(row) => match row.as_slice().get(column) {
                None => None,
                Some(cell) => *cell,
            },
        }
    }

    /// The cells of a process, none outside the rows.
    pub(crate) fn row(&self, process: usize) -> &[Option<Rights>]
        ensures { result.now ≡ slice_index_or self.now process [] }
    {
        match self.rows.get(process) {
            None => &[],
            Some(row) => row.as_slice(),
        }
    }

    /// Adds rights to a cell.
    pub(crate) fn join(&mut self, process: usize, column: usize, rights: Rights)
        requires { process < length self.old }
        ensures value { self.new ≡ joined_rows self.old process column rights }
        ensures word { IfSome (joined (cell self.old process column) rights) (λ r. IsRightsWord r) }
    {
        let next = joined(self.get(process, column), rights);
        let row = &mut self.rows[process];
        row.set(column, next);
    }
}
