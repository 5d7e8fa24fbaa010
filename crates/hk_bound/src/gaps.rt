//! What the rules give to processes, and the rows do not have.

ghost use Rattle.std.specs.Prelude.{◌≡◌, ◌⊎◌, false, ◌↔◌, IsTrue, ◌<◌, ◌+◌, ◌^◌, ℕ, true, Some, IfSome, IsSome, IfOk, OnOk, is_some, length, slice_get, slice_index_or, []};
ghost use Rattle.hk_rights.specs.Rights.{all_rights, has, env_right, a0_right};
ghost use Rattle.hk_model.specs.Walking.{reduced_rights};
ghost use Rattle.hk_model.specs.Targets.{PROCEDURE};
ghost use Rattle.hk_bound.specs.Taking.{Slots, Old, MadeBy, Has, Right as RightOf, Amplifies, Follows, type_of};
ghost use Rattle.hk_bound.specs.Each.{Among, Each};
ghost use Rattle.hk_bound.specs.Columns.{name_at, proc_at, opening_entries, opening_params, object_count, thing_count, width_of, cell, covers, CellFollows, Finds};
ghost use Rattle.hk_bound.specs.Forms.{entry_form, Holds, IsFirst, AreSorted};
ghost use Rattle.hk_bound.specs.Merges.{IsStretch, SettledRule};
ghost use Rattle.hk_bound.specs.Filled.{Gains};
ghost use Rattle.hk_bound.specs.Rules.{IsKnown, IsHeldAs, env_in, stores_in, taking_of, OpensWithEnv, StoredWithEnv, ListedWithEnv, Offered, EntryRule, EntriesRule, FormRule, ParamRule, ParamsRule, TypeRule, MergeRule, MergesRule, ObjectRule, Passes, share_made, HasTakings, through_in, joined_cells, CellRule, PassedRule, AreStored, passes_all, OpensWith, SlotRule, MadeRule, OwnRule};

use crate::forms::{Form, entry_form, made_form, param_form, place_of};
use crate::merging::{SettledSets, Stretch};
use crate::opening::{entries_of, is_general, is_listed, object_count, params_of, type_of};
use crate::rows::{Rows, cell_at, covers, joined};
use hk_model::{Entry, Name, NoMemory, Param, Task, World};
use hk_rights::{Right, Rights};
use std::alloc::Global;

/// Rights that the rules give to a process, and that its row lacks.
#[derive(Clone, Copy, Drop)]
pub(crate) struct Gap {
    pub process: usize,
    pub column: usize,
    pub rights: Rights,
}

/// What is looked at: a world, its templates and the rows.
///
/// Columns stand for the objects of the opening, by their names, then for what each process makes,
/// and last for the templates, which are had with ENV.
#[derive(Clone, Copy)]
pub(crate) struct Table<'a> {
    pub world: &'a World,
    pub forms: &'a [Form],
    /// The objects of each type of the opening, by the type's name.
    pub kinds: &'a [Vec<usize>],
    pub rows: &'a Rows,
}

/// How a process takes from the list of an object.
#[derive(Clone, Copy)]
pub(crate) struct Taking {
    /// Through these rights.
    pub by: Rights,
    /// Only what is held with ENV, by a Copy.
    pub copied: bool,
}

/// What is obtained through a capability with the rights `by`.
pub(crate) fn reduced_rights(by: Rights, rights: Rights) -> Rights
    ensures { result ≡ reduced_rights by rights }
{
    let kept = if by.has(Right::UNCONF) {
        rights
    } else {
        rights.without(Rights::MODIFY.union(Rights::UNCONF))
    };
    if by.has(Right::ENV) {
        kept
    } else {
        kept.without(Rights::ENV)
    }
}

/// Whether nothing more passes through more rights: what passes asks for no others than these.
pub(crate) fn passes_all(by: &Option<Rights>) -> bool
    ensures { result ≡ passes_all by.now }
{
    match by {
        None => false,
        Some(by) => by.has(Right::UNCONF) && by.has(Right::ENV),
    }
}

/// Whether a cell has what passes to it of another one through these rights.
fn is_passed(mine: Option<Rights>, theirs: Option<Rights>, by: Rights) -> bool
    ensures { result ≡ true → (rights : ℕ) → theirs ≡ Some rights → has rights env_right ≡ true → covers mine (reduced_rights by rights) ≡ true }
{
    match theirs {
        None => true,
        Some(rights) => !rights.has(Right::ENV) || covers(mine, reduced_rights(by, rights)),
    }
}

/// A cell with the rights of another besides.
fn joined_cells(cell: Option<Rights>, more: Option<Rights>) -> Option<Rights>
    ensures { result ≡ joined_cells cell more }
{
    match more {
        None => cell,
        Some(rights) => joined(cell, rights),
    }
}

impl<'a> Table<'a> {
    /// How many columns stand for things.
    pub(crate) fn thing_count(&self) -> usize
        ensures value { result ≡ thing_count self.now.world.now }
        ensures small { result < 2 ^ 32 }
    {
        object_count(self.world) + self.world.tasks().len()
    }

    /// How many columns there are.
    pub(crate) fn width(&self) -> usize
        ensures { result ≡ width_of self.now.world.now self.now.forms.now }
    {
        self.thing_count() + self.forms.len()
    }

    /// The column of a template.
    fn form_column(&self, form: &Form) -> Option<usize>
        requires { AreSorted self.now.forms.now }
        ensures found { IfSome result (λ column. (place : ℕ) × IsFirst self.now.forms.now form.now place × (column ≡ thing_count self.now.world.now + place)) }
        ensures some { Holds self.now.forms.now form.now → IsSome result }
    {
        match place_of(self.forms, form) {
            None => None,
            Some(place) => Some(self.thing_count() + place),
        }
    }

    /// The column that an entry counts for, and its rights there.
    pub(crate) fn held(&self, entry: &Entry) -> Option<(usize, Rights)>
        requires sorted { AreSorted self.now.forms.now }
        requires there { IfSome (entry_form entry.now) (Holds self.now.forms.now) }
        ensures { IsHeldAs self.now.world.now self.now.forms.now entry.now result }
    {
        if let Entry::Held(cap) = entry {
            return Some((cap.name.0 as usize, cap.rights));
        }
        match entry_form(entry) {
            None => None,
            Some(form) => match self.form_column(&form) {
                None => None,
                Some(column) => Some((column, Rights::ENV)),
            },
        }
    }

    /// Whether a process has ENV for a column.
    pub(crate) fn has_env(&self, process: usize, column: usize) -> bool
        ensures { result ≡ env_in (cell self.now.rows.now process column) }
    {
        match self.rows.get(process, column) {
            None => false,
            Some(rights) => rights.has(Right::ENV),
        }
    }

    /// Whether a process may put entries into the list of an object.
    pub(crate) fn stores(&self, process: usize, name: usize) -> bool
        ensures { result ≡ stores_in (type_of self.now.world.now (name_at name)) (cell self.now.rows.now process name) }
    {
        match self.rows.get(process, name) {
            None => false,
            Some(by) => {
                is_listed(type_of(self.world, name))
                    && by.has(Right::MODIFY)
                    && (by.has(Right::STORE) || by.has(Right::APPEND))
            }
        }
    }

    /// How a process takes from the list of an object, if it does.
    pub(crate) fn taking(&self, process: usize, name: usize) -> Option<Taking>
        ensures { result ≡ taking_of (type_of self.now.world.now (name_at name)) (cell self.now.rows.now process name) }
    {
        let of = type_of(self.world, name);
        match self.rows.get(process, name) {
            None => None,
            Some(by) => {
                if of.0 == 4 && by.has(Right::A0) {
                    Some(Taking {
                        by: by.union(Rights::ENV),
                        copied: false,
                    })
                } else if by.has(Right::LOAD) {
                    Some(Taking { by, copied: false })
                } else if is_general(of) && by.has(Right::COPY) && by.has(Right::ENV) {
                    Some(Taking { by, copied: true })
                } else {
                    None
                }
            }
        }
    }

    /// Adds a gap, if it is one.
    pub(crate) fn offer(&self, gap: Gap, gaps: &mut Vec<Gap>) -> Result<(), NoMemory>
        requires follows { CellFollows self.now.world.now self.now.forms.now (Slots (proc_at gap.process)) gap.column gap.rights }
        requires process { gap.process < length self.now.world.now.tasks }
        requires column { gap.column < width_of self.now.world.now self.now.forms.now }
        ensures { OnOk result (Finds self.now.world.now self.now.forms.now self.now.rows.now (Offered self.now.rows.now gap.process gap.column gap.rights) gaps.old.items gaps.new.items) }
    {
        if !covers(self.rows.get(gap.process, gap.column), gap.rights) {
            gaps.push(gap)?;
        }
        Ok(())
    }

    /// A template that a process has.
    fn offer_form(&self, process: usize, form: &Form, gaps: &mut Vec<Gap>) -> Result<(), NoMemory>
        requires sorted { AreSorted self.now.forms.now }
        requires process { process < length self.now.world.now.tasks }
        requires holds { Holds self.now.forms.now form.now }
        requires follows { Follows self.now.world.now (Amplifies (Slots (proc_at process)) form.now.of form.now.check form.now.give) }
        ensures { OnOk result (Finds self.now.world.now self.now.forms.now self.now.rows.now (FormRule self.now.world.now self.now.forms.now self.now.rows.now process form.now) gaps.old.items gaps.new.items) }
    {
        if let Some(column) = self.form_column(form) {
            self.offer(
                Gap {
                    process,
                    column,
                    rights: Rights::ENV,
                },
                gaps,
            )?;
        }
        Ok(())
    }

    /// The template that a process has of a parameter of a procedure that it may call.
    fn take_param(
        &self,
        process: usize,
        name: usize,
        param: &Param,
        gaps: &mut Vec<Gap>,
    ) -> Result<(), NoMemory>
        requires known { IsKnown self.now.world.now self.now.forms.now self.now.rows.now }
        requires process { process < length self.now.world.now.tasks }
        requires name { name < object_count self.now.world.now }
        requires procedure { (type_of self.now.world.now (name_at name)).0 ≡ PROCEDURE }
        requires call { Follows self.now.world.now (RightOf (Slots (proc_at process)) (Old (name_at name)) a0_right) }
        requires among { Among (opening_params self.now.world.now name) param.now }
        ensures { OnOk result (Finds self.now.world.now self.now.forms.now self.now.rows.now (ParamRule self.now.world.now self.now.forms.now self.now.rows.now process param.now) gaps.old.items gaps.new.items) }
    {
        if let Some(form) = param_form(param) {
            self.offer_form(process, &form, gaps)?;
        }
        Ok(())
    }

    /// The templates that a process has of the parameters of a procedure that it may call.
    fn take_params(
        &self,
        process: usize,
        name: usize,
        by: Rights,
        gaps: &mut Vec<Gap>,
    ) -> Result<(), NoMemory>
        requires known { IsKnown self.now.world.now self.now.forms.now self.now.rows.now }
        requires process { process < length self.now.world.now.tasks }
        requires name { name < object_count self.now.world.now }
        requires cell { cell self.now.rows.now process name ≡ Some by }
        ensures { OnOk result (Finds self.now.world.now self.now.forms.now self.now.rows.now (ParamsRule self.now.world.now self.now.forms.now self.now.rows.now process name by) gaps.old.items gaps.new.items) }
    {
        if !by.has(Right::A0) {
            return Ok(());
        }
        if type_of(self.world, name).0 != 4 {
            return Ok(());
        }
        for param in params_of(self.world, name) {
            self.take_param(process, name, param, gaps)?;
        }
        Ok(())
    }

    /// The template that a process can make of a type.
    fn make_form(
        &self,
        process: usize,
        name: usize,
        by: Rights,
        gaps: &mut Vec<Gap>,
    ) -> Result<(), NoMemory>
        requires known { IsKnown self.now.world.now self.now.forms.now self.now.rows.now }
        requires process { process < length self.now.world.now.tasks }
        requires name { name < object_count self.now.world.now }
        requires cell { cell self.now.rows.now process name ≡ Some by }
        ensures { OnOk result (Finds self.now.world.now self.now.forms.now self.now.rows.now (TypeRule self.now.world.now self.now.forms.now self.now.rows.now process name by) gaps.old.items gaps.new.items) }
    {
        if by.has(Right::A0) && by.has(Right::ENV) && type_of(self.world, name).0 == 0 {
            self.offer_form(process, &made_form(Name(name as u64)), gaps)?;
        }
        Ok(())
    }

    /// What a process gets by what it has for one object of the opening, but for merges.
    pub(crate) fn take_own(
        &self,
        alloc: Global,
        process: usize,
        name: usize,
        gaps: &mut Vec<Gap>,
    ) -> Result<(), NoMemory>
        requires known { IsKnown self.now.world.now self.now.forms.now self.now.rows.now }
        requires process { process < length self.now.world.now.tasks }
        requires name { name < object_count self.now.world.now }
        ensures { OnOk result (Gains self.now.world.now self.now.forms.now self.now.rows.now gaps.old.items gaps.new.items) }
    {
        self.take_entries(alloc, process, name, gaps)?;
        let Some(by) = self.rows.get(process, name) else {
            return Ok(());
        };
        self.take_params(process, name, by, gaps)?;
        self.make_form(process, name, by, gaps)?;
        Ok(())
    }

    /// All that a process gets by what it has for one object of the opening. Notes for which rights merges give
    /// nothing.
    pub(crate) fn object_gaps(
        &self,
        alloc: Global,
        process: usize,
        name: usize,
        stretches: &[Stretch],
        settled: &mut SettledSets,
        gaps: &mut Vec<Gap>,
    ) -> Result<(), NoMemory>
        requires known { IsKnown self.now.world.now self.now.forms.now self.now.rows.now }
        requires process { process < length self.now.world.now.tasks }
        requires name { name < object_count self.now.world.now }
        requires stretches { Each (IsStretch self.now.forms.now) stretches.now }
        ensures { OnOk result (Finds self.now.world.now self.now.forms.now self.now.rows.now (SettledRule self.now.world.now self.now.forms.now self.now.rows.now process settled.old.sets.items settled.new.sets.items (ObjectRule self.now.world.now self.now.forms.now self.now.rows.now process name)) gaps.old.items gaps.new.items) }
    {
        self.take_entries(alloc, process, name, gaps)?;
        let Some(by) = self.rows.get(process, name) else {
            return Ok(());
        };
        self.take_params(process, name, by, gaps)?;
        self.make_form(process, name, by, gaps)?;
        self.merge_unsettled(process, name, by, stretches, settled, gaps)?;
        Ok(())
    }

    /// Whether one of two processes has what the other makes.
    pub(crate) fn share_made(&self, process: usize, other: usize) -> bool
        requires process { process < length self.now.world.now.tasks }
        requires other { other < length self.now.world.now.tasks }
        ensures { result ≡ share_made self.now.world.now self.now.rows.now process other }
    {
        let count = object_count(self.world);
        self.rows.get(process, count + other).is_some()
            || self.rows.get(other, count + process).is_some()
    }

    /// The rights through which a process takes from an object into which another stores.
    pub(crate) fn through_object(&self, process: usize, other: usize, name: usize) -> Option<Rights>
        ensures { result ≡ through_in (type_of self.now.world.now (name_at name)) (cell self.now.rows.now process name) (cell self.now.rows.now other name) }
    {
        if !self.stores(other, name) {
            return None;
        }
        match self.taking(process, name) {
            None => None,
            Some(taking) => Some(taking.by),
        }
    }

    /// The rights through which a process takes what another stores, of the objects into which that one
    /// stores, up to where nothing more could pass.
    fn through_objects(&self, process: usize, other: usize, names: &[usize]) -> Option<Rights>
        requires known { IsKnown self.now.world.now self.now.forms.now self.now.rows.now }
        requires process { process < length self.now.world.now.tasks }
        requires names { AreStored self.now.world.now self.now.rows.now other names.now }
        ensures passes { IfSome result (λ by. Passes self.now.world.now self.now.forms.now process other by) }
        ensures all { HasTakings self.now.world.now self.now.rows.now process other (λ name. name < object_count self.now.world.now) result }
    {
        let mut by = None;
        for name in names {
            by = joined_cells(by, self.through_object(process, other, *name));
            if passes_all(&by) {
                return by;
            }
        }
        by
    }

    /// The rights through which a process takes what another stores: all where one of them has what the
    /// other makes.
    pub(crate) fn through(&self, process: usize, other: usize, names: &[usize]) -> Option<Rights>
        requires known { IsKnown self.now.world.now self.now.forms.now self.now.rows.now }
        requires process { process < length self.now.world.now.tasks }
        requires other { other < length self.now.world.now.tasks }
        requires names { AreStored self.now.world.now self.now.rows.now other names.now }
        ensures passes { IfSome result (λ by. Passes self.now.world.now self.now.forms.now process other by) }
        ensures made { share_made self.now.world.now self.now.rows.now process other ≡ true → result ≡ Some all_rights }
        ensures all { share_made self.now.world.now self.now.rows.now process other ≡ false → HasTakings self.now.world.now self.now.rows.now process other (λ name. name < object_count self.now.world.now) result }
    {
        if self.share_made(process, other) {
            Some(Rights::all())
        } else {
            self.through_objects(process, other, names)
        }
    }

    /// What a process takes of one thing that another stores.
    pub(crate) fn take_cell(
        &self,
        process: usize,
        other: usize,
        by: Rights,
        column: usize,
        gaps: &mut Vec<Gap>,
    ) -> Result<(), NoMemory>
        requires known { IsKnown self.now.world.now self.now.forms.now self.now.rows.now }
        requires process { process < length self.now.world.now.tasks }
        requires passes { Passes self.now.world.now self.now.forms.now process other by }
        requires column { column < width_of self.now.world.now self.now.forms.now }
        ensures { OnOk result (Finds self.now.world.now self.now.forms.now self.now.rows.now (CellRule self.now.rows.now process other by column) gaps.old.items gaps.new.items) }
    {
        if let Some(rights) = self.rows.get(other, column) {
            if rights.has(Right::ENV) {
                let reduced = reduced_rights(by, rights);
                self.offer(
                    Gap {
                        process,
                        column,
                        rights: reduced,
                    },
                    gaps,
                )?;
            }
        }
        Ok(())
    }

    /// The same, where the rows of the two are at hand.
    pub(crate) fn take_at(
        &self,
        process: usize,
        other: usize,
        by: Rights,
        column: usize,
        mine: &[Option<Rights>],
        theirs: &[Option<Rights>],
        gaps: &mut Vec<Gap>,
    ) -> Result<(), NoMemory>
        requires known { IsKnown self.now.world.now self.now.forms.now self.now.rows.now }
        requires process { process < length self.now.world.now.tasks }
        requires passes { Passes self.now.world.now self.now.forms.now process other by }
        requires column { column < width_of self.now.world.now self.now.forms.now }
        requires mine { mine.now ≡ slice_index_or self.now.rows.now process [] }
        requires theirs { theirs.now ≡ slice_index_or self.now.rows.now other [] }
        ensures { OnOk result (Finds self.now.world.now self.now.forms.now self.now.rows.now (CellRule self.now.rows.now process other by column) gaps.old.items gaps.new.items) }
    {
        if is_passed(cell_at(mine, column), cell_at(theirs, column), by) {
            return Ok(());
        }
        self.take_cell(process, other, by, column, gaps)?;
        Ok(())
    }

    /// The same, of a column that may be none.
    pub(crate) fn take_grown(
        &self,
        process: usize,
        other: usize,
        by: Rights,
        column: usize,
        mine: &[Option<Rights>],
        theirs: &[Option<Rights>],
        gaps: &mut Vec<Gap>,
    ) -> Result<(), NoMemory>
        requires known { IsKnown self.now.world.now self.now.forms.now self.now.rows.now }
        requires process { process < length self.now.world.now.tasks }
        requires passes { Passes self.now.world.now self.now.forms.now process other by }
        requires mine { mine.now ≡ slice_index_or self.now.rows.now process [] }
        requires theirs { theirs.now ≡ slice_index_or self.now.rows.now other [] }
        ensures { OnOk result (Gains self.now.world.now self.now.forms.now self.now.rows.now gaps.old.items gaps.new.items) }
    {
        if is_passed(cell_at(mine, column), cell_at(theirs, column), by) {
            return Ok(());
        }
        if column >= self.width() {
            return Ok(());
        }
        self.take_cell(process, other, by, column, gaps)?;
        Ok(())
    }

    /// What a process takes of all that another stores, through these rights.
    pub(crate) fn take_row(
        &self,
        process: usize,
        other: usize,
        by: Rights,
        gaps: &mut Vec<Gap>,
    ) -> Result<(), NoMemory>
        requires known { IsKnown self.now.world.now self.now.forms.now self.now.rows.now }
        requires process { process < length self.now.world.now.tasks }
        requires passes { Passes self.now.world.now self.now.forms.now process other by }
        ensures { OnOk result (Finds self.now.world.now self.now.forms.now self.now.rows.now (PassedRule self.now.world.now self.now.forms.now self.now.rows.now process other by) gaps.old.items gaps.new.items) }
    {
        let mine = self.rows.row(process);
        let theirs = self.rows.row(other);
        for column in 0..self.width() {
            self.take_at(process, other, by, column, mine, theirs, gaps)?;
        }
        Ok(())
    }

    /// What a process has of one of its opening slots.
    fn slot_gap(&self, process: usize, entry: &Entry, gaps: &mut Vec<Gap>) -> Result<(), NoMemory>
        requires known { IsKnown self.now.world.now self.now.forms.now self.now.rows.now }
        requires process { process < length self.now.world.now.tasks }
        requires opens { OpensWith self.now.world.now process entry.now }
        ensures { OnOk result (Finds self.now.world.now self.now.forms.now self.now.rows.now (SlotRule self.now.world.now self.now.forms.now self.now.rows.now process entry.now) gaps.old.items gaps.new.items) }
    {
        if let Some(held) = self.held(entry) {
            self.offer(
                Gap {
                    process,
                    column: held.0,
                    rights: held.1,
                },
                gaps,
            )?;
        }
        Ok(())
    }

    /// What a process opens with.
    fn opening_gaps(&self, process: usize, task: &Task, gaps: &mut Vec<Gap>) -> Result<(), NoMemory>
        requires known { IsKnown self.now.world.now self.now.forms.now self.now.rows.now }
        requires process { process < length self.now.world.now.tasks }
        requires task { slice_get self.now.world.now.tasks process ≡ Some task.now }
        ensures { OnOk result (Finds self.now.world.now self.now.forms.now self.now.rows.now (Each (SlotRule self.now.world.now self.now.forms.now self.now.rows.now process) task.now.slots) gaps.old.items gaps.new.items) }
    {
        for entry in task.slots.as_slice() {
            self.slot_gap(process, entry, gaps)?;
        }
        Ok(())
    }

    /// Whether a process has what one process makes: its own, or by its row.
    fn has_made(&self, process: usize, maker: usize) -> bool
        requires known { IsKnown self.now.world.now self.now.forms.now self.now.rows.now }
        requires process { process < length self.now.world.now.tasks }
        requires maker { maker < length self.now.world.now.tasks }
        ensures had { result ≡ true → Follows self.now.world.now (Has (Slots (proc_at process)) (MadeBy (proc_at maker))) }
        ensures own { maker ≡ process → result ≡ true }
        ensures row { is_some (cell self.now.rows.now process (object_count self.now.world.now + maker)) ≡ true → result ≡ true }
    {
        if maker == process {
            return true;
        }
        match self.rows.get(process, object_count(self.world) + maker) {
            None => false,
            Some(_) => true,
        }
    }

    /// All rights for what one process makes, where another has it; a process has what it makes itself.
    pub(crate) fn made_gap(
        &self,
        process: usize,
        maker: usize,
        gaps: &mut Vec<Gap>,
    ) -> Result<(), NoMemory>
        requires known { IsKnown self.now.world.now self.now.forms.now self.now.rows.now }
        requires process { process < length self.now.world.now.tasks }
        requires maker { maker < length self.now.world.now.tasks }
        ensures { OnOk result (Finds self.now.world.now self.now.forms.now self.now.rows.now (MadeRule self.now.world.now self.now.rows.now process maker) gaps.old.items gaps.new.items) }
    {
        if self.has_made(process, maker) {
            let column = object_count(self.world) + maker;
            self.offer(
                Gap {
                    process,
                    column,
                    rights: Rights::all(),
                },
                gaps,
            )?;
        }
        Ok(())
    }

    /// All rights for what processes make, where a process has it.
    fn made_gaps(&self, process: usize, gaps: &mut Vec<Gap>) -> Result<(), NoMemory>
        requires known { IsKnown self.now.world.now self.now.forms.now self.now.rows.now }
        requires process { process < length self.now.world.now.tasks }
        ensures { OnOk result (Finds self.now.world.now self.now.forms.now self.now.rows.now ((maker : ℕ) → maker < length self.now.world.now.tasks → MadeRule self.now.world.now self.now.rows.now process maker) gaps.old.items gaps.new.items) }
    {
        for maker in 0..self.world.tasks().len() {
            self.made_gap(process, maker, gaps)?;
        }
        Ok(())
    }

    /// What a process gets by what it has for objects of the opening.
    fn objects_gaps(
        &self,
        alloc: Global,
        process: usize,
        stretches: &[Stretch],
        gaps: &mut Vec<Gap>,
    ) -> Result<(), NoMemory>
        requires known { IsKnown self.now.world.now self.now.forms.now self.now.rows.now }
        requires process { process < length self.now.world.now.tasks }
        requires stretches { Each (IsStretch self.now.forms.now) stretches.now }
        ensures { OnOk result (Finds self.now.world.now self.now.forms.now self.now.rows.now ((name : ℕ) → name < object_count self.now.world.now → ObjectRule self.now.world.now self.now.forms.now self.now.rows.now process name) gaps.old.items gaps.new.items) }
    {
        let mut settled = SettledSets::new(alloc, self.forms.len())?;
        for name in 0..object_count(self.world) {
            self.object_gaps(alloc, process, name, stretches, &mut settled, gaps)?;
        }
        Ok(())
    }

    /// All gaps of a process by what it has itself.
    pub(crate) fn own_gaps(
        &self,
        alloc: Global,
        process: usize,
        task: &Task,
        stretches: &[Stretch],
        gaps: &mut Vec<Gap>,
    ) -> Result<(), NoMemory>
        requires known { IsKnown self.now.world.now self.now.forms.now self.now.rows.now }
        requires process { process < length self.now.world.now.tasks }
        requires stretches { Each (IsStretch self.now.forms.now) stretches.now }
        requires task { slice_get self.now.world.now.tasks process ≡ Some task.now }
        ensures { OnOk result (Finds self.now.world.now self.now.forms.now self.now.rows.now (OwnRule self.now.world.now self.now.forms.now self.now.rows.now process) gaps.old.items gaps.new.items) }
    {
        self.opening_gaps(process, task, gaps)?;
        self.made_gaps(process, gaps)?;
        self.objects_gaps(alloc, process, stretches, gaps)?;
        Ok(())
    }
}
