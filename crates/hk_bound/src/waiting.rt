//! Cells that have grown and wait: to be merged, and to be handed on. They wait as long as anything cheaper is to
//! be done, so that a cell that grows again meanwhile is taken once.

use crate::forms::Form;
use crate::holdings::Holdings;
use crate::marks::Marks;
use crate::spreading::Grown;
use hk_model::NoMemory;
use hk_rights::Right;
use std::alloc::Global;

/// Columns of one process.
#[derive(Drop)]
pub(crate) struct Columns {
    marks: Marks,
    /// Whether there may be any.
    some: bool,
}

/// Columns of each process that wait for one thing.
#[derive(Drop)]
pub(crate) struct Line {
    processes: Vec<Columns>,
    /// The process that is looked at next.
    next: usize,
}

impl Line {
    /// No columns of so many processes.
    fn new(alloc: Global, count: usize) -> Result<Line, NoMemory> {
        let mut processes = Vec::new(alloc);
        for _ in 0..count {
            processes.push(Columns {
                marks: Marks::new(alloc),
                some: false,
            })?;
        }
        Ok(Line { processes, next: 0 })
    }

    /// Adds a column.
    fn add(&mut self, process: usize, column: usize) -> Result<(), NoMemory> {
        if let Some(columns) = self.processes.get_mut(process) {
            columns.some = true;
            columns.marks.add(column)?;
        }
        Ok(())
    }

    /// The first process from one on of which columns wait.
    fn process_from(&self, start: usize) -> Option<usize> {
        for place in start..self.processes.len() {
            if self.processes[place].some {
                return Some(place);
            }
        }
        None
    }

    /// The next process of which columns wait, in turn.
    fn next_process(&self) -> Option<usize> {
        match self.process_from(self.next) {
            None => self.process_from(0),
            Some(process) => Some(process),
        }
    }

    /// Takes the columns of the next process of which some wait, in their order.
    fn take(&mut self, alloc: Global) -> Result<Option<(usize, Vec<usize>)>, NoMemory> {
        let Some(process) = self.next_process() else {
            return Ok(None);
        };
        self.next = process.wrapping_add(1);
        let Some(columns) = self.processes.get_mut(process) else {
            return Ok(None);
        };
        columns.some = false;
        let numbers = columns.marks.take(alloc)?;
        Ok(Some((process, numbers)))
    }
}

/// Cells that have grown and wait.
#[derive(Drop)]
pub(crate) struct Waiting {
    /// To be merged.
    merges: Line,
    /// To be handed on to those who take from their process.
    passes: Line,
    /// What processes have for objects that may be merged.
    pub holdings: Holdings,
}

impl Waiting {
    /// None, of so many processes of a world with so many objects, with these templates and objects of each type.
    pub(crate) fn new(
        alloc: Global,
        count: usize,
        objects: usize,
        forms: &[Form],
        kinds: &[Vec<usize>],
    ) -> Result<Waiting, NoMemory> {
        let merges = Line::new(alloc, count)?;
        let passes = Line::new(alloc, count)?;
        let holdings = Holdings::new(alloc, count, objects, forms, kinds)?;
        Ok(Waiting {
            merges,
            passes,
            holdings,
        })
    }

    /// Takes what waits of one process to be merged, if anything does, templates first.
    pub(crate) fn take_merges(
        &mut self,
        alloc: Global,
    ) -> Result<Option<(usize, Vec<usize>)>, NoMemory> {
        let Some((process, mut columns)) = self.merges.take(alloc)? else {
            return Ok(None);
        };
        columns.reverse();
        Ok(Some((process, columns)))
    }

    /// Takes what waits of one process to be handed on, if anything does.
    pub(crate) fn take_passes(
        &mut self,
        alloc: Global,
    ) -> Result<Option<(usize, Vec<usize>)>, NoMemory> {
        self.passes.take(alloc)
    }

    /// Adds a cell that has grown. It is handed on where its process has takers.
    pub(crate) fn add(&mut self, cell: &Grown, has_takers: bool) -> Result<(), NoMemory> {
        self.holdings.note(cell)?;
        self.merges.add(cell.process, cell.column)?;
        if has_takers && cell.rights.has(Right::ENV) {
            self.passes.add(cell.process, cell.column)?;
        }
        Ok(())
    }
}
