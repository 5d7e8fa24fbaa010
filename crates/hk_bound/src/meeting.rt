//! Who takes from the lists of objects and who stores there, as far as that was looked at.

use crate::marks::Marks;
use hk_model::NoMemory;
use hk_rights::{Right, Rights};
use std::alloc::Global;

/// For each of some things the processes that take through rights: through any, through some with UNCONF, and
/// through some with ENV.
#[derive(Drop)]
pub(crate) struct Through {
    any: Vec<Marks>,
    unconf: Vec<Marks>,
    env: Vec<Marks>,
}

/// So many empty sets.
fn empty_sets(alloc: Global, count: usize) -> Result<Vec<Marks>, NoMemory> {
    let mut sets = Vec::new(alloc);
    for _ in 0..count {
        sets.push(Marks::new(alloc))?;
    }
    Ok(sets)
}

/// Adds a number to one of some sets.
fn add_to(sets: &mut Vec<Marks>, place: usize, number: usize) -> Result<(), NoMemory> {
    if let Some(set) = sets.get_mut(place) {
        set.add(number)?;
    }
    Ok(())
}

/// Adds to a list the numbers of one of some sets that are not in one of others.
fn list_beyond(
    sets: &[Marks],
    place: usize,
    others: &[Marks],
    other: usize,
    numbers: &mut Vec<usize>,
) -> Result<(), NoMemory> {
    let Some(known) = others.get(other) else {
        return Ok(());
    };
    match sets.get(place) {
        None => Ok(()),
        Some(set) => set.list_beyond(known, numbers),
    }
}

impl Through {
    /// None, for so many things.
    fn new(alloc: Global, count: usize) -> Result<Through, NoMemory> {
        Ok(Through {
            any: empty_sets(alloc, count)?,
            unconf: empty_sets(alloc, count)?,
            env: empty_sets(alloc, count)?,
        })
    }

    /// Adds that a process takes through these rights.
    fn add(&mut self, thing: usize, process: usize, by: Rights) -> Result<(), NoMemory> {
        add_to(&mut self.any, thing, process)?;
        if by.has(Right::UNCONF) {
            add_to(&mut self.unconf, thing, process)?;
        }
        if by.has(Right::ENV) {
            add_to(&mut self.env, thing, process)?;
        }
        Ok(())
    }
}

/// Who takes from the lists of objects and who stores there.
#[derive(Drop)]
pub(crate) struct Meetings {
    /// For each object those that put entries into its list.
    storers: Vec<Marks>,
    /// For each object those that take from its list.
    takers: Through,
    /// For each process those from which it takes.
    sources: Through,
    /// For each process those that take from it.
    sinks: Through,
}

impl Meetings {
    /// None, among so many processes and objects. A process has what it has itself.
    pub(crate) fn new(alloc: Global, count: usize, objects: usize) -> Result<Meetings, NoMemory> {
        let mut meetings = Meetings {
            storers: empty_sets(alloc, objects)?,
            takers: Through::new(alloc, objects)?,
            sources: Through::new(alloc, count)?,
            sinks: Through::new(alloc, count)?,
        };
        for process in 0..count {
            meetings.add_way(process, process, Rights::all())?;
        }
        Ok(meetings)
    }

    /// Notes that a process takes through these rights what another stores.
    pub(crate) fn add_way(
        &mut self,
        process: usize,
        other: usize,
        by: Rights,
    ) -> Result<(), NoMemory> {
        self.sources.add(process, other, by)?;
        self.sinks.add(other, process, by)?;
        Ok(())
    }

    /// Notes that a process takes through these rights from the list of an object. Gives those that store there
    /// and from which it is not known to take as much.
    pub(crate) fn add_taker(
        &mut self,
        alloc: Global,
        process: usize,
        name: usize,
        by: Rights,
    ) -> Result<Vec<usize>, NoMemory> {
        self.takers.add(name, process, by)?;
        let mut others = Vec::new(alloc);
        list_beyond(&self.storers, name, &self.sources.any, process, &mut others)?;
        if by.has(Right::UNCONF) {
            list_beyond(
                &self.storers,
                name,
                &self.sources.unconf,
                process,
                &mut others,
            )?;
        }
        if by.has(Right::ENV) {
            list_beyond(&self.storers, name, &self.sources.env, process, &mut others)?;
        }
        Ok(others)
    }

    /// Notes that a process puts entries into the list of an object. Gives those that take from there and are not
    /// known to take as much from the process, if that was not noted.
    pub(crate) fn add_storer(
        &mut self,
        alloc: Global,
        process: usize,
        name: usize,
    ) -> Result<Vec<usize>, NoMemory> {
        let mut others = Vec::new(alloc);
        let first = match self.storers.get_mut(name) {
            None => false,
            Some(storers) => storers.add(process)?,
        };
        if !first {
            return Ok(others);
        }
        list_beyond(
            &self.takers.any,
            name,
            &self.sinks.any,
            process,
            &mut others,
        )?;
        list_beyond(
            &self.takers.unconf,
            name,
            &self.sinks.unconf,
            process,
            &mut others,
        )?;
        list_beyond(
            &self.takers.env,
            name,
            &self.sinks.env,
            process,
            &mut others,
        )?;
        Ok(others)
    }
}
