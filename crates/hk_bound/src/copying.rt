//! What processes take from the lists of objects: by a call or a Load all entries, by a Copy those alone that the
//! list has with ENV, whoever put them there.

ghost use Rattle.std.specs.Prelude.{◌≡◌, ◌⊎◌, ◌↔◌, ◌<◌, ℕ, true, false, Some, IfOk, IfSome, OnOk, IsTrue, length};
ghost use Rattle.hk_bound.specs.Taking.{type_of};
ghost use Rattle.hk_bound.specs.Each.{Among, Each};
ghost use Rattle.hk_bound.specs.Columns.{name_at, object_count, opening_entries, cell, Finds};
ghost use Rattle.hk_bound.specs.Forms.{entry_form, Holds, AreSorted};
ghost use Rattle.hk_bound.specs.Copies.{added, IsEnvColumn, AreOpened, storer_in, AreStorers, SomeHasEnv};
ghost use Rattle.hk_bound.specs.Rules.{IsKnown, taking_of, ListedWithEnv, EntryRule, EntriesRule};

use crate::gaps::{Gap, Table, Taking, reduced_rights};
use crate::opening::{entries_of, object_count};
use hk_model::{Entry, NoMemory, World};
use hk_rights::{Right, Rights};
use std::alloc::Global;

/// In which lists objects stand without ENV at the opening.
#[derive(Drop)]
pub(crate) struct Bare {
    /// For each object the lists.
    pub lists: Vec<Vec<usize>>,
    /// For each of these whether a process is known to store the object there with ENV.
    pub stored: Vec<Vec<bool>>,
}

impl Bare {
    /// All that stand so in a world.
    pub(crate) fn new(alloc: Global, world: &World) -> Result<Bare, NoMemory> {
        let mut lists: Vec<Vec<usize>> = Vec::new(alloc);
        let mut stored: Vec<Vec<bool>> = Vec::new(alloc);
        for _ in 0..object_count(world) {
            lists.push(Vec::new(alloc))?;
            stored.push(Vec::new(alloc))?;
        }
        let mut bare = Bare { lists, stored };
        for list in 0..object_count(world) {
            bare.add_list(world, list)?;
        }
        Ok(bare)
    }

    /// Adds what stands without ENV in a list.
    fn add_list(&mut self, world: &World, list: usize) -> Result<(), NoMemory> {
        for entry in entries_of(world, list) {
            self.add(list, entry)?;
        }
        Ok(())
    }

    /// Adds an entry of a list, if it is without ENV.
    fn add(&mut self, list: usize, entry: &Entry) -> Result<(), NoMemory> {
        let Entry::Held(cap) = entry else {
            return Ok(());
        };
        if cap.rights.has(Right::ENV) {
            return Ok(());
        }
        let column = cap.name.0 as usize;
        if let Some(lists) = self.lists.get_mut(column) {
            lists.push(list)?;
        }
        if let Some(stored) = self.stored.get_mut(column) {
            stored.push(false)?;
        }
        Ok(())
    }

    /// In how many lists an object stands without ENV.
    pub(crate) fn count(&self, column: usize) -> usize {
        match self.lists.get(column) {
            None => 0,
            Some(lists) => lists.len(),
        }
    }

    /// One of these lists.
    pub(crate) fn list(&self, column: usize, at: usize) -> Option<usize> {
        match self.lists.get(column) {
            None => None,
            Some(lists) => lists.get(at).copied(),
        }
    }

    /// Which of these lists one is, if it is.
    pub(crate) fn place(&self, column: usize, list: usize) -> Option<usize> {
        match self.lists.get(column) {
            None => None,
            Some(lists) => lists.binary_search(&list).ok(),
        }
    }

    /// Notes that a process stores the object into one of these lists with ENV. Whether it is the first.
    pub(crate) fn is_stored_first(&mut self, column: usize, at: usize) -> bool {
        let Some(stored) = self.stored.get_mut(column) else {
            return false;
        };
        match stored.get_mut(at) {
            None => false,
            Some(known) => {
                let first = !*known;
                *known = true;
                first
            }
        }
    }
}

/// Adds a number, if there is one.
fn add(numbers: &mut Vec<usize>, number: Option<usize>) -> Result<(), NoMemory>
    ensures { OnOk result (numbers.new.items ≡ added numbers.old.items number) }
{
    if let Some(number) = number {
        numbers.push(number)?;
    }
    Ok(())
}

/// Whether a number is among others.
fn is_among(numbers: &[usize], number: usize) -> bool
    ensures { IsTrue result ↔ Among numbers.now number }
{
    for other in numbers {
        if *other == number {
            return true;
        }
    }
    false
}

impl<'a> Table<'a> {
    /// The column for which an entry has ENV, if it has.
    fn env_column(&self, entry: &Entry) -> Option<usize>
        requires sorted { AreSorted self.now.forms.now }
        requires there { IfSome (entry_form entry.now) (Holds self.now.forms.now) }
        ensures { IsEnvColumn self.now.world.now self.now.forms.now entry.now result }
    {
        match self.held(entry) {
            None => None,
            Some(held) => {
                if held.1.has(Right::ENV) {
                    Some(held.0)
                } else {
                    None
                }
            }
        }
    }

    /// The columns for which opening entries of an object have ENV, where they are asked for.
    fn opened_columns(
        &self,
        alloc: Global,
        name: usize,
        asked: bool,
    ) -> Result<Vec<usize>, NoMemory>
        requires known { IsKnown self.now.world.now self.now.forms.now self.now.rows.now }
        requires name { name < object_count self.now.world.now }
        ensures { IfOk result (λ columns. asked ≡ true → AreOpened self.now.world.now self.now.forms.now name columns.items) }
    {
        let mut columns = Vec::new(alloc);
        if !asked {
            return Ok(columns);
        }
        for entry in entries_of(self.world, name) {
            add(&mut columns, self.env_column(entry))?;
        }
        Ok(columns)
    }

    /// A process, if it may put entries into the list of an object.
    fn storer(&self, process: usize, name: usize) -> Option<usize>
        ensures { result ≡ storer_in (type_of self.now.world.now (name_at name)) self.now.rows.now name process }
    {
        if self.stores(process, name) {
            Some(process)
        } else {
            None
        }
    }

    /// The processes that may put entries into the list of an object, where they are asked for.
    fn storers(&self, alloc: Global, name: usize, asked: bool) -> Result<Vec<usize>, NoMemory>
        ensures { IfOk result (λ processes. asked ≡ true → AreStorers self.now.world.now self.now.rows.now name processes.items) }
    {
        let mut processes = Vec::new(alloc);
        if !asked {
            return Ok(processes);
        }
        for process in 0..self.world.tasks().len() {
            add(&mut processes, self.storer(process, name))?;
        }
        Ok(processes)
    }

    /// Whether one of some processes has ENV for a column.
    fn some_has_env(&self, processes: &[usize], column: usize) -> bool
        ensures { IsTrue result ↔ SomeHasEnv self.now.rows.now processes.now column }
    {
        for process in processes {
            if self.has_env(*process, column) {
                return true;
            }
        }
        false
    }

    /// Whether what the list of an object has for a column is taken: by a Copy only what one of its entries opens
    /// with ENV, or who stores into it has with ENV.
    fn takes(
        &self,
        taking: &Taking,
        name: usize,
        column: usize,
        opened: &[usize],
        storers: &[usize],
    ) -> bool
        requires opened { taking.now.copied ≡ true → AreOpened self.now.world.now self.now.forms.now name opened.now }
        requires storers { taking.now.copied ≡ true → AreStorers self.now.world.now self.now.rows.now name storers.now }
        ensures { IsTrue result ↔ ((taking.now.copied ≡ false) ⊎ ListedWithEnv self.now.world.now self.now.forms.now self.now.rows.now name column) }
    {
        if !taking.copied {
            return true;
        }
        if is_among(opened, column) {
            return true;
        }
        self.some_has_env(storers, column)
    }

    /// What a process takes of one entry in the list of an object.
    fn take_entry(
        &self,
        process: usize,
        name: usize,
        taking: &Taking,
        opened: &[usize],
        storers: &[usize],
        entry: &Entry,
        gaps: &mut Vec<Gap>,
    ) -> Result<(), NoMemory>
        requires known { IsKnown self.now.world.now self.now.forms.now self.now.rows.now }
        requires process { process < length self.now.world.now.tasks }
        requires name { name < object_count self.now.world.now }
        requires takes { taking_of (type_of self.now.world.now (name_at name)) (cell self.now.rows.now process name) ≡ Some taking.now }
        requires among { Among (opening_entries self.now.world.now name) entry.now }
        requires opened { taking.now.copied ≡ true → AreOpened self.now.world.now self.now.forms.now name opened.now }
        requires storers { taking.now.copied ≡ true → AreStorers self.now.world.now self.now.rows.now name storers.now }
        ensures { OnOk result (Finds self.now.world.now self.now.forms.now self.now.rows.now (EntryRule self.now.world.now self.now.forms.now self.now.rows.now process name taking.now entry.now) gaps.old.items gaps.new.items) }
    {
        let Some(held) = self.held(entry) else {
            return Ok(());
        };
        if self.takes(taking, name, held.0, opened, storers) {
            let rights = reduced_rights(taking.by, held.1);
            self.offer(
                Gap {
                    process,
                    column: held.0,
                    rights,
                },
                gaps,
            )?;
        }
        Ok(())
    }

    /// What a process takes of the opening entries of an object.
    pub(crate) fn take_entries(
        &self,
        alloc: Global,
        process: usize,
        name: usize,
        gaps: &mut Vec<Gap>,
    ) -> Result<(), NoMemory>
        requires known { IsKnown self.now.world.now self.now.forms.now self.now.rows.now }
        requires process { process < length self.now.world.now.tasks }
        requires name { name < object_count self.now.world.now }
        ensures { OnOk result (Finds self.now.world.now self.now.forms.now self.now.rows.now (EntriesRule self.now.world.now self.now.forms.now self.now.rows.now process name) gaps.old.items gaps.new.items) }
    {
        let Some(taking) = self.taking(process, name) else {
            return Ok(());
        };
        let opened = self.opened_columns(alloc, name, taking.copied)?;
        let storers = self.storers(alloc, name, taking.copied)?;
        for entry in entries_of(self.world, name) {
            self.take_entry(
                process,
                name,
                &taking,
                opened.as_slice(),
                storers.as_slice(),
                entry,
                gaps,
            )?;
        }
        Ok(())
    }
}
