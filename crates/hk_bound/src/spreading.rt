//! What comes of a cell that has grown.

ghost use Rattle.std.specs.Prelude.{◌≡◌, ◌<◌, true, IfOk, OnOk, IfSome, length};
ghost use Rattle.hk_bound.specs.Columns.{object_count, width_of, empty_rows};
ghost use Rattle.hk_bound.specs.Rules.{IsKnown, Passes};
ghost use Rattle.hk_bound.specs.Filled.{IsWithin, AreWays, Gains};

use crate::copying::Bare;
use crate::gaps::{Gap, Table, passes_all};
use crate::handing::passing_rights;
use crate::meeting::Meetings;
use crate::opening::{entries_of, is_listed, object_count, type_of};
use crate::rows::{Rows, covers};
use hk_model::{Entry, NoMemory, World};
use hk_rights::{Right, Rights};
use std::alloc::Global;

/// A cell that has grown, with the rights that it then had.
#[derive(Clone, Copy, Drop)]
pub(crate) struct Grown {
    pub process: usize,
    pub column: usize,
    pub rights: Rights,
}

/// By which ways processes take what others store.
#[derive(Drop)]
pub(crate) struct Ways {
    /// Through which rights the process of a row takes what the process of a column stores, itself or by way
    /// of others.
    pub known: Rows,
    /// For each process those that take from it themselves.
    pub takers: Vec<Vec<usize>>,
    /// For each object a process that puts entries into its list and takes all that others put there, if one
    /// was seen: whatever goes through the list comes by way of it.
    pub hubs: Vec<Option<usize>>,
    /// Who takes from the lists of objects and who stores there.
    pub meetings: Meetings,
    /// In which lists objects stand without ENV.
    pub bare: Bare,
}

impl Ways {
    /// No ways among so many processes of a world.
    pub(crate) fn new(alloc: Global, count: usize, world: &World) -> Result<Ways, NoMemory>
        ensures { IfOk result (λ ways. ways.known ≡ empty_rows count count) }
    {
        let objects = object_count(world);
        let known = Rows::new(alloc, count, count)?;
        let mut takers: Vec<Vec<usize>> = Vec::new(alloc);
        for _ in 0..count {
            takers.push(Vec::new(alloc))?;
        }
        let hubs = vec![in alloc; None; objects]?;
        let meetings = Meetings::new(alloc, count, objects)?;
        let bare = Bare::new(alloc, world)?;
        Ok(Ways {
            known,
            takers,
            hubs,
            meetings,
            bare,
        })
    }

    /// The process that stands between all that put entries into the list of an object, if one was seen.
    pub(crate) fn hub(&self, name: usize) -> Option<usize> {
        match self.hubs.get(name) {
            None => None,
            Some(hub) => *hub,
        }
    }

    /// Notes that a process stands between all that put entries into the list of an object.
    pub(crate) fn note_hub(&mut self, name: usize, process: usize)
        ensures { self.new.known ≡ self.old.known }
    {
        if let Some(hub) = self.hubs.get_mut(name) {
            if hub.is_none() {
                *hub = Some(process);
            }
        }
    }

    /// Those that take from a process themselves.
    pub(crate) fn takers_of(&self, process: usize) -> &[usize] {
        match self.takers.get(process) {
            None => &[],
            Some(takers) => takers.as_slice(),
        }
    }

    /// Whether any take from a process themselves.
    pub(crate) fn has_takers(&self, process: usize) -> bool {
        !self.takers_of(process).is_empty()
    }

    /// Whether what passes through these rights comes to a process from another by way of a third, which
    /// takes it with ENV.
    pub(crate) fn are_handed(&self, process: usize, other: usize, passing: Rights) -> bool {
        let handing = passing.union(Rights::ENV);
        for third in 0..self.takers.len() {
            if covers(self.known.get(process, third), passing)
                && covers(self.known.get(third, other), handing)
            {
                return true;
            }
        }
        false
    }

    /// Notes that a process takes from another itself.
    pub(crate) fn add_taker(&mut self, process: usize, other: usize) -> Result<(), NoMemory>
        ensures { OnOk result (self.new.known ≡ self.old.known) }
    {
        if let Some(takers) = self.takers.get_mut(other) {
            takers.push(process)?;
        }
        Ok(())
    }
}

impl<'a> Table<'a> {
    /// Notes that a process takes what another stores through these rights, unless as much is noted. It takes
    /// all that the other has, unless that comes to it by way of a third.
    fn widen(
        &self,
        process: usize,
        other: usize,
        by: Rights,
        ways: &mut Ways,
        gaps: &mut Vec<Gap>,
    ) -> Result<(), NoMemory>
        requires known { IsKnown self.now.world.now self.now.forms.now self.now.rows.now }
        requires process { process < length self.now.world.now.tasks }
        requires passes { Passes self.now.world.now self.now.forms.now process other by }
        requires ways { AreWays self.now.world.now self.now.forms.now ways.old.known }
        ensures ways { OnOk result (AreWays self.now.world.now self.now.forms.now ways.new.known) }
        ensures gaps { OnOk result (Gains self.now.world.now self.now.forms.now self.now.rows.now gaps.old.items gaps.new.items) }
    {
        let passing = passing_rights(by);
        if covers(ways.known.get(process, other), passing) {
            return Ok(());
        }
        let handed = ways.are_handed(process, other, passing);
        ways.known.join(process, other, by);
        ways.meetings.add_way(process, other, by)?;
        if handed {
            return Ok(());
        }
        ways.add_taker(process, other)?;
        self.take_row(process, other, by, gaps)?;
        Ok(())
    }

    /// What a process comes to take of another by what both have for an object.
    fn take_through(
        &self,
        process: usize,
        other: usize,
        name: usize,
        ways: &mut Ways,
        gaps: &mut Vec<Gap>,
    ) -> Result<(), NoMemory>
        requires known { IsKnown self.now.world.now self.now.forms.now self.now.rows.now }
        requires process { process < length self.now.world.now.tasks }
        requires name { name < object_count self.now.world.now }
        requires ways { AreWays self.now.world.now self.now.forms.now ways.old.known }
        ensures ways { OnOk result (AreWays self.now.world.now self.now.forms.now ways.new.known) }
        ensures gaps { OnOk result (Gains self.now.world.now self.now.forms.now self.now.rows.now gaps.old.items gaps.new.items) }
    {
        if let Some(by) = self.through_object(process, other, name) {
            self.widen(process, other, by, ways, gaps)?;
        }
        Ok(())
    }

    /// What two processes come to take of one another by what both have for an object.
    fn exchange(
        &self,
        process: usize,
        other: usize,
        name: usize,
        ways: &mut Ways,
        gaps: &mut Vec<Gap>,
    ) -> Result<(), NoMemory>
        requires known { IsKnown self.now.world.now self.now.forms.now self.now.rows.now }
        requires process { process < length self.now.world.now.tasks }
        requires other { other < length self.now.world.now.tasks }
        requires name { name < object_count self.now.world.now }
        requires ways { AreWays self.now.world.now self.now.forms.now ways.old.known }
        ensures ways { OnOk result (AreWays self.now.world.now self.now.forms.now ways.new.known) }
        ensures gaps { OnOk result (Gains self.now.world.now self.now.forms.now self.now.rows.now gaps.old.items gaps.new.items) }
    {
        self.take_through(process, other, name, ways, gaps)?;
        self.take_through(other, process, name, ways, gaps)?;
        Ok(())
    }

    /// What a process comes to take of others through an object with a list.
    fn take_from_all(
        &self,
        alloc: Global,
        process: usize,
        name: usize,
        ways: &mut Ways,
        gaps: &mut Vec<Gap>,
    ) -> Result<(), NoMemory>
        requires known { IsKnown self.now.world.now self.now.forms.now self.now.rows.now }
        requires process { process < length self.now.world.now.tasks }
        requires name { name < object_count self.now.world.now }
        requires ways { AreWays self.now.world.now self.now.forms.now ways.old.known }
        ensures ways { OnOk result (AreWays self.now.world.now self.now.forms.now ways.new.known) }
        ensures gaps { OnOk result (Gains self.now.world.now self.now.forms.now self.now.rows.now gaps.old.items gaps.new.items) }
    {
        let Some(taking) = self.taking(process, name) else {
            return Ok(());
        };
        let others = ways.meetings.add_taker(alloc, process, name, taking.by)?;
        for other in &others {
            self.take_through(process, *other, name, ways, gaps)?;
        }
        Ok(())
    }

    /// What a process comes to take of another by what both have for an object, if it is one.
    fn take_if_runs(
        &self,
        process: usize,
        other: usize,
        name: usize,
        ways: &mut Ways,
        gaps: &mut Vec<Gap>,
    ) -> Result<(), NoMemory>
        requires known { IsKnown self.now.world.now self.now.forms.now self.now.rows.now }
        requires name { name < object_count self.now.world.now }
        requires ways { AreWays self.now.world.now self.now.forms.now ways.old.known }
        ensures ways { OnOk result (AreWays self.now.world.now self.now.forms.now ways.new.known) }
        ensures gaps { OnOk result (Gains self.now.world.now self.now.forms.now self.now.rows.now gaps.old.items gaps.new.items) }
    {
        if process >= self.world.tasks().len() {
            return Ok(());
        }
        self.take_through(process, other, name, ways, gaps)?;
        Ok(())
    }

    /// What others come to take of a process through an object with a list.
    fn give_to_all(
        &self,
        alloc: Global,
        process: usize,
        name: usize,
        ways: &mut Ways,
        gaps: &mut Vec<Gap>,
    ) -> Result<(), NoMemory>
        requires known { IsKnown self.now.world.now self.now.forms.now self.now.rows.now }
        requires name { name < object_count self.now.world.now }
        requires ways { AreWays self.now.world.now self.now.forms.now ways.old.known }
        ensures ways { OnOk result (AreWays self.now.world.now self.now.forms.now ways.new.known) }
        ensures gaps { OnOk result (Gains self.now.world.now self.now.forms.now self.now.rows.now gaps.old.items gaps.new.items) }
    {
        let others = ways.meetings.add_storer(alloc, process, name)?;
        for other in &others {
            self.take_if_runs(*other, process, name, ways, gaps)?;
        }
        Ok(())
    }

    /// What processes come to take of one another through an object with a list, but for a process that stands
    /// between all.
    fn meet_all(
        &self,
        alloc: Global,
        process: usize,
        name: usize,
        ways: &mut Ways,
        gaps: &mut Vec<Gap>,
    ) -> Result<(), NoMemory>
        requires known { IsKnown self.now.world.now self.now.forms.now self.now.rows.now }
        requires process { process < length self.now.world.now.tasks }
        requires name { name < object_count self.now.world.now }
        requires ways { AreWays self.now.world.now self.now.forms.now ways.old.known }
        ensures ways { OnOk result (AreWays self.now.world.now self.now.forms.now ways.new.known) }
        ensures gaps { OnOk result (Gains self.now.world.now self.now.forms.now self.now.rows.now gaps.old.items gaps.new.items) }
    {
        self.take_from_all(alloc, process, name, ways, gaps)?;
        if !self.stores(process, name) {
            return Ok(());
        }
        self.give_to_all(alloc, process, name, ways, gaps)?;
        Ok(())
    }

    /// What processes come to take of one another through an object with a list, for which this one has
    /// more than before.
    fn meet(
        &self,
        alloc: Global,
        process: usize,
        name: usize,
        ways: &mut Ways,
        gaps: &mut Vec<Gap>,
    ) -> Result<(), NoMemory>
        requires known { IsKnown self.now.world.now self.now.forms.now self.now.rows.now }
        requires process { process < length self.now.world.now.tasks }
        requires name { name < object_count self.now.world.now }
        requires ways { AreWays self.now.world.now self.now.forms.now ways.old.known }
        ensures ways { OnOk result (AreWays self.now.world.now self.now.forms.now ways.new.known) }
        ensures gaps { OnOk result (Gains self.now.world.now self.now.forms.now self.now.rows.now gaps.old.items gaps.new.items) }
    {
        if !is_listed(type_of(self.world, name)) {
            return Ok(());
        }
        if passes_all(&self.through_object(process, process, name)) {
            ways.note_hub(name, process);
        }
        match ways.hub(name) {
            None => self.meet_all(alloc, process, name, ways, gaps),
            Some(hub) => self.meet_hub(alloc, process, hub, name, ways, gaps),
        }
    }

    /// The same, where a process stands between all.
    fn meet_hub(
        &self,
        alloc: Global,
        process: usize,
        hub: usize,
        name: usize,
        ways: &mut Ways,
        gaps: &mut Vec<Gap>,
    ) -> Result<(), NoMemory>
        requires known { IsKnown self.now.world.now self.now.forms.now self.now.rows.now }
        requires process { process < length self.now.world.now.tasks }
        requires name { name < object_count self.now.world.now }
        requires ways { AreWays self.now.world.now self.now.forms.now ways.old.known }
        ensures ways { OnOk result (AreWays self.now.world.now self.now.forms.now ways.new.known) }
        ensures gaps { OnOk result (Gains self.now.world.now self.now.forms.now self.now.rows.now gaps.old.items gaps.new.items) }
    {
        if hub != process && hub < self.world.tasks().len() {
            return self.exchange(process, hub, name, ways, gaps);
        }
        self.meet_all(alloc, process, name, ways, gaps)
    }

    /// What two processes come to take of one another where one has what the other makes.
    fn share(
        &self,
        process: usize,
        other: usize,
        ways: &mut Ways,
        gaps: &mut Vec<Gap>,
    ) -> Result<(), NoMemory>
        requires known { IsKnown self.now.world.now self.now.forms.now self.now.rows.now }
        requires process { process < length self.now.world.now.tasks }
        requires other { other < length self.now.world.now.tasks }
        requires ways { AreWays self.now.world.now self.now.forms.now ways.old.known }
        ensures ways { OnOk result (AreWays self.now.world.now self.now.forms.now ways.new.known) }
        ensures gaps { OnOk result (Gains self.now.world.now self.now.forms.now self.now.rows.now gaps.old.items gaps.new.items) }
    {
        if !self.share_made(process, other) {
            return Ok(());
        }
        self.widen(process, other, Rights::all(), ways, gaps)?;
        Ok(())
    }

    /// What comes of it that a process has what another makes.
    fn take_up_made(
        &self,
        process: usize,
        maker: usize,
        ways: &mut Ways,
        gaps: &mut Vec<Gap>,
    ) -> Result<(), NoMemory>
        requires known { IsKnown self.now.world.now self.now.forms.now self.now.rows.now }
        requires process { process < length self.now.world.now.tasks }
        requires maker { maker < length self.now.world.now.tasks }
        requires ways { AreWays self.now.world.now self.now.forms.now ways.old.known }
        ensures ways { OnOk result (AreWays self.now.world.now self.now.forms.now ways.new.known) }
        ensures gaps { OnOk result (Gains self.now.world.now self.now.forms.now self.now.rows.now gaps.old.items gaps.new.items) }
    {
        self.made_gap(process, maker, gaps)?;
        self.share(process, maker, ways, gaps)?;
        self.share(maker, process, ways, gaps)?;
        Ok(())
    }

    /// What a process copies of a list, if it does.
    fn copy_again(
        &self,
        alloc: Global,
        process: usize,
        list: usize,
        gaps: &mut Vec<Gap>,
    ) -> Result<(), NoMemory>
        requires known { IsKnown self.now.world.now self.now.forms.now self.now.rows.now }
        requires process { process < length self.now.world.now.tasks }
        requires list { list < object_count self.now.world.now }
        ensures { OnOk result (Gains self.now.world.now self.now.forms.now self.now.rows.now gaps.old.items gaps.new.items) }
    {
        let Some(taking) = self.taking(process, list) else {
            return Ok(());
        };
        if !taking.copied {
            return Ok(());
        }
        self.take_entries(alloc, process, list, gaps)?;
        Ok(())
    }

    /// What processes copy of a list in which more has come to have ENV.
    fn all_copy_again(
        &self,
        alloc: Global,
        list: usize,
        gaps: &mut Vec<Gap>,
    ) -> Result<(), NoMemory>
        requires known { IsKnown self.now.world.now self.now.forms.now self.now.rows.now }
        ensures { OnOk result (Gains self.now.world.now self.now.forms.now self.now.rows.now gaps.old.items gaps.new.items) }
    {
        if list >= object_count(self.world) {
            return Ok(());
        }
        for process in 0..self.world.tasks().len() {
            self.copy_again(alloc, process, list, gaps)?;
        }
        Ok(())
    }

    /// What comes of it if a process stores an object with ENV into one of the lists in which it stands without.
    fn store_into(
        &self,
        alloc: Global,
        process: usize,
        name: usize,
        at: usize,
        bare: &mut Bare,
        gaps: &mut Vec<Gap>,
    ) -> Result<(), NoMemory>
        requires known { IsKnown self.now.world.now self.now.forms.now self.now.rows.now }
        ensures { OnOk result (Gains self.now.world.now self.now.forms.now self.now.rows.now gaps.old.items gaps.new.items) }
    {
        let Some(list) = bare.list(name, at) else {
            return Ok(());
        };
        if !self.stores(process, list) {
            return Ok(());
        }
        if !bare.is_stored_first(name, at) {
            return Ok(());
        }
        self.all_copy_again(alloc, list, gaps)?;
        Ok(())
    }

    /// What comes of it if a process stores an object with ENV into the lists in which it stands without.
    fn store_all(
        &self,
        alloc: Global,
        process: usize,
        name: usize,
        bare: &mut Bare,
        gaps: &mut Vec<Gap>,
    ) -> Result<(), NoMemory>
        requires known { IsKnown self.now.world.now self.now.forms.now self.now.rows.now }
        ensures { OnOk result (Gains self.now.world.now self.now.forms.now self.now.rows.now gaps.old.items gaps.new.items) }
    {
        if !self.has_env(process, name) {
            return Ok(());
        }
        for at in 0..bare.count(name) {
            self.store_into(alloc, process, name, at, bare, gaps)?;
        }
        Ok(())
    }

    /// What comes of it if a process stores into a list the object of an entry, with ENV.
    fn store_over(
        &self,
        alloc: Global,
        process: usize,
        list: usize,
        entry: &Entry,
        bare: &mut Bare,
        gaps: &mut Vec<Gap>,
    ) -> Result<(), NoMemory>
        requires known { IsKnown self.now.world.now self.now.forms.now self.now.rows.now }
        ensures { OnOk result (Gains self.now.world.now self.now.forms.now self.now.rows.now gaps.old.items gaps.new.items) }
    {
        let Entry::Held(cap) = entry else {
            return Ok(());
        };
        let name = cap.name.0 as usize;
        if cap.rights.has(Right::ENV) || !self.has_env(process, name) {
            return Ok(());
        }
        let Some(at) = bare.place(name, list) else {
            return Ok(());
        };
        self.store_into(alloc, process, name, at, bare, gaps)?;
        Ok(())
    }

    /// What comes of it if a process stores into a list whatever it has with ENV of what stands there.
    fn store_list(
        &self,
        alloc: Global,
        process: usize,
        list: usize,
        bare: &mut Bare,
        gaps: &mut Vec<Gap>,
    ) -> Result<(), NoMemory>
        requires known { IsKnown self.now.world.now self.now.forms.now self.now.rows.now }
        ensures { OnOk result (Gains self.now.world.now self.now.forms.now self.now.rows.now gaps.old.items gaps.new.items) }
    {
        if !self.stores(process, list) {
            return Ok(());
        }
        for entry in entries_of(self.world, list) {
            self.store_over(alloc, process, list, entry, bare, gaps)?;
        }
        Ok(())
    }

    /// What comes of more rights for an object of the opening, but for merges.
    fn take_up_object(
        &self,
        alloc: Global,
        process: usize,
        name: usize,
        ways: &mut Ways,
        gaps: &mut Vec<Gap>,
    ) -> Result<(), NoMemory>
        requires known { IsKnown self.now.world.now self.now.forms.now self.now.rows.now }
        requires process { process < length self.now.world.now.tasks }
        requires name { name < object_count self.now.world.now }
        requires ways { AreWays self.now.world.now self.now.forms.now ways.old.known }
        ensures ways { OnOk result (AreWays self.now.world.now self.now.forms.now ways.new.known) }
        ensures gaps { OnOk result (Gains self.now.world.now self.now.forms.now self.now.rows.now gaps.old.items gaps.new.items) }
    {
        self.take_own(alloc, process, name, gaps)?;
        self.meet(alloc, process, name, ways, gaps)?;
        self.store_all(alloc, process, name, &mut ways.bare, gaps)?;
        self.store_list(alloc, process, name, &mut ways.bare, gaps)?;
        Ok(())
    }

    /// What comes of a cell that has grown for its process, and through new ways for others, but for merges.
    pub(crate) fn take_up(
        &self,
        alloc: Global,
        grown: &Grown,
        ways: &mut Ways,
        gaps: &mut Vec<Gap>,
    ) -> Result<(), NoMemory>
        requires known { IsKnown self.now.world.now self.now.forms.now self.now.rows.now }
        requires grown { IsWithin self.now.world.now self.now.forms.now grown.now }
        requires ways { AreWays self.now.world.now self.now.forms.now ways.old.known }
        ensures ways { OnOk result (AreWays self.now.world.now self.now.forms.now ways.new.known) }
        ensures gaps { OnOk result (Gains self.now.world.now self.now.forms.now self.now.rows.now gaps.old.items gaps.new.items) }
    {
        let process = grown.process;
        let column = grown.column;
        let objects = object_count(self.world);
        if column < objects {
            self.take_up_object(alloc, process, column, ways, gaps)?;
            return Ok(());
        }
        if column < self.thing_count() {
            self.take_up_made(process, column - objects, ways, gaps)?;
        }
        Ok(())
    }
}
