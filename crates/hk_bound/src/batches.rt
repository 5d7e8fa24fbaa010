//! Merges that have waited: of objects for which a process has got more rights, and of templates that it has got.

ghost use Rattle.std.specs.Prelude.{◌≡◌, ◌<◌, OnOk, length};
ghost use Rattle.hk_bound.specs.Rules.{IsKnown};
ghost use Rattle.hk_bound.specs.Each.{Each};
ghost use Rattle.hk_bound.specs.Filled.{Gains};
ghost use Rattle.hk_bound.specs.Merges.{IsStretch};

use crate::forms::Form;
use crate::gaps::{Gap, Table};
use crate::holdings::Holdings;
use crate::merging::{SettledSets, Stretch};
use crate::opening::{object_count, type_of};
use hk_model::{Name, NoMemory};
use hk_rights::Rights;
use std::alloc::Global;

/// What is known while cells of one process are taken up together.
#[derive(Drop)]
pub(crate) struct Batch {
    /// For which rights merges gave nothing.
    pub settled: SettledSets,
    /// For how many types more all templates are merged with all objects, in place of each new template.
    pub types_left: usize,
    /// The types for which that was done.
    pub merged: Vec<Name>,
}

impl Batch {
    /// So many cells, of so many templates in all.
    pub(crate) fn new(alloc: Global, cells: usize, forms: usize) -> Result<Batch, NoMemory> {
        let types_left = if cells >= 64 && cells >= forms / 2 {
            16
        } else {
            0
        };
        Ok(Batch {
            settled: SettledSets::new(alloc, cells)?,
            types_left,
            merged: Vec::new(alloc),
        })
    }

    /// Whether all templates of a type are merged with all objects of it, in place of each new template.
    fn takes_type(&mut self, of: Name) -> Result<bool, NoMemory> {
        if self.types_left == 0 {
            return Ok(false);
        }
        self.types_left -= 1;
        self.merged.push(of)?;
        Ok(true)
    }

    /// Whether all templates of a type were merged with all objects of it.
    fn has_merged(&self, of: Name) -> bool {
        self.merged.contains(&of)
    }
}

impl<'a> Table<'a> {
    /// What merges give to a process for an object, if it has that.
    fn merge_again(
        &self,
        process: usize,
        name: usize,
        stretches: &[Stretch],
        settled: &mut SettledSets,
        gaps: &mut Vec<Gap>,
    ) -> Result<(), NoMemory>
        requires known { IsKnown self.now.world.now self.now.forms.now self.now.rows.now }
        requires process { process < length self.now.world.now.tasks }
        requires stretches { Each (IsStretch self.now.forms.now) stretches.now }
        ensures { OnOk result (Gains self.now.world.now self.now.forms.now self.now.rows.now gaps.old.items gaps.new.items) }
    {
        if name >= object_count(self.world) {
            return Ok(());
        }
        if let Some(by) = self.rows.get(process, name) {
            self.merge_unsettled(process, name, by, stretches, settled, gaps)?;
        }
        Ok(())
    }

    /// What merges give to a process for objects of a type.
    fn merge_type(
        &self,
        process: usize,
        names: &[usize],
        stretches: &[Stretch],
        settled: &mut SettledSets,
        gaps: &mut Vec<Gap>,
    ) -> Result<(), NoMemory>
        requires known { IsKnown self.now.world.now self.now.forms.now self.now.rows.now }
        requires process { process < length self.now.world.now.tasks }
        requires stretches { Each (IsStretch self.now.forms.now) stretches.now }
        ensures { OnOk result (Gains self.now.world.now self.now.forms.now self.now.rows.now gaps.old.items gaps.new.items) }
    {
        for name in names {
            self.merge_again(process, *name, stretches, settled, gaps)?;
        }
        Ok(())
    }

    /// What a merge with a template that asks for some rights and gives some, but for the special ones, gives to
    /// a process for an object, if it has that with the former and without the latter.
    fn merge_had(
        &self,
        process: usize,
        place: usize,
        asks: Rights,
        gives: Rights,
        name: usize,
        gaps: &mut Vec<Gap>,
    ) -> Result<(), NoMemory>
        requires known { IsKnown self.now.world.now self.now.forms.now self.now.rows.now }
        requires process { process < length self.now.world.now.tasks }
        requires place { place < length self.now.forms.now }
        ensures { OnOk result (Gains self.now.world.now self.now.forms.now self.now.rows.now gaps.old.items gaps.new.items) }
    {
        if name >= object_count(self.world) {
            return Ok(());
        }
        let Some(by) = self.rows.get(process, name) else {
            return Ok(());
        };
        if by.contains(gives) || !by.contains(asks) {
            return Ok(());
        }
        self.merge(process, name, by, place, gaps)?;
        Ok(())
    }

    /// Merges with a template for objects.
    fn merge_form(
        &self,
        process: usize,
        place: usize,
        form: &Form,
        names: &[usize],
        gaps: &mut Vec<Gap>,
    ) -> Result<(), NoMemory>
        requires known { IsKnown self.now.world.now self.now.forms.now self.now.rows.now }
        requires process { process < length self.now.world.now.tasks }
        requires place { place < length self.now.forms.now }
        ensures { OnOk result (Gains self.now.world.now self.now.forms.now self.now.rows.now gaps.old.items gaps.new.items) }
    {
        let gives = form.give.without(Rights::SPECIAL);
        for name in names {
            self.merge_had(process, place, form.check, gives, *name, gaps)?;
        }
        Ok(())
    }

    /// What comes of a template: merges with it for the objects of its type. Of many templates all are merged.
    fn take_up_form(
        &self,
        alloc: Global,
        process: usize,
        place: usize,
        stretches: &[Stretch],
        holdings: &Holdings,
        batch: &mut Batch,
        gaps: &mut Vec<Gap>,
    ) -> Result<(), NoMemory>
        requires known { IsKnown self.now.world.now self.now.forms.now self.now.rows.now }
        requires process { process < length self.now.world.now.tasks }
        requires stretches { Each (IsStretch self.now.forms.now) stretches.now }
        ensures { OnOk result (Gains self.now.world.now self.now.forms.now self.now.rows.now gaps.old.items gaps.new.items) }
    {
        let Some(form) = self.forms.get(place) else {
            return Ok(());
        };
        let Some(names) = self.kinds.get(form.of.0 as usize) else {
            return Ok(());
        };
        if batch.has_merged(form.of) {
            return Ok(());
        }
        if batch.takes_type(form.of)? {
            return self.merge_type(process, names, stretches, &mut batch.settled, gaps);
        }
        match holdings.gaining(alloc, process, place, form, names.len())? {
            None => self.merge_form(process, place, form, names, gaps),
            Some(gaining) => self.merge_form(process, place, form, &gaining, gaps),
        }
    }

    /// What merges give to a process for an object for which it has got more rights.
    fn merge_grown(
        &self,
        process: usize,
        name: usize,
        stretches: &[Stretch],
        batch: &mut Batch,
        gaps: &mut Vec<Gap>,
    ) -> Result<(), NoMemory>
        requires known { IsKnown self.now.world.now self.now.forms.now self.now.rows.now }
        requires process { process < length self.now.world.now.tasks }
        requires stretches { Each (IsStretch self.now.forms.now) stretches.now }
        ensures { OnOk result (Gains self.now.world.now self.now.forms.now self.now.rows.now gaps.old.items gaps.new.items) }
    {
        if batch.has_merged(type_of(self.world, name)) {
            return Ok(());
        }
        self.merge_again(process, name, stretches, &mut batch.settled, gaps)
    }

    /// What merges give to a process for a cell that has grown.
    pub(crate) fn merge_column(
        &self,
        alloc: Global,
        process: usize,
        column: usize,
        stretches: &[Stretch],
        holdings: &Holdings,
        batch: &mut Batch,
        gaps: &mut Vec<Gap>,
    ) -> Result<(), NoMemory>
        requires known { IsKnown self.now.world.now self.now.forms.now self.now.rows.now }
        requires process { process < length self.now.world.now.tasks }
        requires stretches { Each (IsStretch self.now.forms.now) stretches.now }
        ensures { OnOk result (Gains self.now.world.now self.now.forms.now self.now.rows.now gaps.old.items gaps.new.items) }
    {
        if column < object_count(self.world) {
            return self.merge_grown(process, column, stretches, batch, gaps);
        }
        let things = self.thing_count();
        if column < things {
            return Ok(());
        }
        self.take_up_form(
            alloc,
            process,
            column - things,
            stretches,
            holdings,
            batch,
            gaps,
        )
    }
}
