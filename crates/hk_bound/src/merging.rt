//! What merges give to a process. Templates are passed over together, by what they all ask for and all that
//! they give, and rights for which merges gave nothing are kept.

ghost use Rattle.std.specs.Prelude.{◌≡◌, ◌↔◌, IsTrue, ◌<◌, ◌≤◌, ◌+◌, ℕ, true, Some, None, IfSome, IfOk, OnOk, length};
ghost use Rattle.hk_rights.specs.Rights.{HasAll, IsRightsWord};
ghost use Rattle.hk_model.specs.Merging.{merged_rights};
ghost use Rattle.hk_model.specs.declared.names.Name.{Name as NameOf};
ghost use Rattle.hk_bound.specs.declared.forms.Form.{Form as FormOf};
ghost use Rattle.hk_bound.specs.Each.{Among, Each};
ghost use Rattle.hk_bound.specs.Columns.{object_count, cell, Finds};
ghost use Rattle.hk_bound.specs.Merges.{IsIdle, IsStretch, MergesFrom, settled_at, SettledRule, AddsSettled};
ghost use Rattle.hk_bound.specs.Rules.{IsKnown, MergeRule, MergesRule};

use crate::forms::{Form, start_of};
use crate::gaps::{Gap, Table};
use crate::opening::type_of;
use hk_model::{Name, NoMemory};
use hk_rights::Rights;
use std::alloc::Global;

/// How many templates are passed over together, at most.
const STRETCH: usize = 16;

/// How many sets of rights are kept for which merges give nothing.
const MOST_SETTLED: usize = 4093;

/// Templates that stand one behind another.
#[derive(Clone, Copy, Drop)]
pub(crate) struct Stretch {
    /// The place of the first.
    pub start: usize,
    /// The place behind the last.
    pub end: usize,
    /// What each of them asks for.
    pub check: Rights,
    /// What they give, all together.
    pub give: Rights,
}

/// A type, and rights of a process for objects of it for which merges give it nothing that it lacks.
#[derive(Clone, Copy, Drop)]
pub(crate) struct Settled {
    pub of: Name,
    pub rights: Rights,
}

/// For which rights merges are known to give a process nothing that it lacks.
#[derive(Drop)]
pub(crate) struct SettledSets {
    pub sets: Vec<Option<Settled>>,
}

/// Whether all of some rights are there.
fn has_rights(by: Rights, check: Rights) -> bool
    ensures value { IsTrue result ↔ HasAll by check }
    ensures word { IsRightsWord check }
{
    by.contains(check)
}

/// What a merge gives: the rights of `give`, but of the special rights those alone that were there.
fn merged_rights(by: Rights, give: Rights) -> Rights
    ensures { (of : NameOf) → result ≡ merged_rights by (Some of) give }
{
    let special = give.intersection(Rights::SPECIAL).intersection(by);
    give.without(Rights::SPECIAL).union(special)
}

/// Whether a merge gives nothing to who has these rights, with any template that asks for all of some rights and
/// gives no others than some.
fn is_idle(by: Rights, check: Rights, give: Rights) -> bool
    ensures { result ≡ true → (form : FormOf) → HasAll form.check check → HasAll give form.give → IsIdle by form }
{
    if !has_rights(by, check) {
        return true;
    }
    has_rights(by, give.without(Rights::SPECIAL))
}

/// The templates from one place to before another, and what they ask for and give.
fn stretch_of(forms: &[Form], start: usize, end: usize) -> Stretch
    requires { end ≤ length forms.now }
    ensures { IsStretch forms.now result }
{
    let mut check = Rights::all();
    let mut give = Rights::none();
    for place in start..end {
        check = check.intersection(forms[place].check);
        give = give.union(forms[place].give);
    }
    Stretch {
        start,
        end,
        check,
        give,
    }
}

/// All templates, cut into stretches.
pub(crate) fn all_stretches(alloc: Global, forms: &[Form]) -> Result<Vec<Stretch>, NoMemory>
    ensures { IfOk result (λ stretches. Each (IsStretch forms.now) stretches.items) }
{
    let count = forms.len();
    let mut stretches = Vec::new(alloc);
    for number in 0..count / STRETCH + 1 {
        let start = number * STRETCH;
        let end = if count - start < STRETCH {
            count
        } else {
            start + STRETCH
        };
        stretches.push(stretch_of(forms, start, end))?;
    }
    Ok(stretches)
}

/// Whether these are rights for objects of a type for which merges give nothing.
fn is_settled(settled: &Option<Settled>, of: Name, rights: Rights) -> bool
    ensures { result ≡ true → settled.now ≡ Some (settled_at of rights) }
{
    match settled {
        None => false,
        Some(old) => old.of.0 == of.0 && old.rights.bits() == rights.bits(),
    }
}

impl SettledSets {
    /// No rights, with room for few where few cells are looked at.
    pub(crate) fn new(alloc: Global, cells: usize) -> Result<SettledSets, NoMemory>
        ensures { IfOk result (λ settled. Each (λ set. set ≡ None) settled.sets.items) }
    {
        let room = if cells < 64 { 1 } else { MOST_SETTLED };
        let sets = vec![in alloc; None; room]?;
        Ok(SettledSets { sets })
    }

    /// The one place at which rights for objects of a type are kept.
    fn place(&self, of: Name, rights: Rights) -> usize {
        let room = self.sets.len();
        if room < MOST_SETTLED {
            return 0;
        }
        (rights.bits() as usize + of.0 as usize % MOST_SETTLED) % MOST_SETTLED
    }

    /// Whether merges are known to give nothing to who has these rights for an object of a type.
    fn knows(&self, of: Name, rights: Rights) -> bool
        ensures { result ≡ true → Among self.now.sets.items (Some (settled_at of rights)) }
    {
        match self.sets.get(self.place(of, rights)) {
            None => false,
            Some(settled) => is_settled(settled, of, rights),
        }
    }

    /// Notes rights for which merges give nothing, in place of those that stood there.
    fn add(&mut self, of: Name, rights: Rights)
        ensures { AddsSettled of rights self.old.sets.items self.new.sets.items }
    {
        let place = self.place(of, rights);
        if place >= self.sets.len() {
            return;
        }
        self.sets[place] = Some(Settled { of, rights });
    }
}

impl<'a> Table<'a> {
    /// What a merge with one template gives to a process for an object.
    pub(crate) fn merge(
        &self,
        process: usize,
        name: usize,
        by: Rights,
        place: usize,
        gaps: &mut Vec<Gap>,
    ) -> Result<(), NoMemory>
        requires known { IsKnown self.now.world.now self.now.forms.now self.now.rows.now }
        requires process { process < length self.now.world.now.tasks }
        requires name { name < object_count self.now.world.now }
        requires cell { cell self.now.rows.now process name ≡ Some by }
        requires place { place < length self.now.forms.now }
        ensures { OnOk result (Finds self.now.world.now self.now.forms.now self.now.rows.now (MergeRule self.now.world.now self.now.forms.now self.now.rows.now process name by place) gaps.old.items gaps.new.items) }
    {
        let form = &self.forms[place];
        if !has_rights(by, form.check) {
            return Ok(());
        }
        if form.of != type_of(self.world, name) {
            return Ok(());
        }
        if !self.has_env(process, self.thing_count() + place) {
            return Ok(());
        }
        let rights = merged_rights(by, form.give);
        self.offer(
            Gap {
                process,
                column: name,
                rights,
            },
            gaps,
        )?;
        Ok(())
    }

    /// The same, but for a template that can be seen to give nothing.
    fn merge_unless_idle(
        &self,
        process: usize,
        name: usize,
        by: Rights,
        place: usize,
        gaps: &mut Vec<Gap>,
    ) -> Result<(), NoMemory>
        requires known { IsKnown self.now.world.now self.now.forms.now self.now.rows.now }
        requires process { process < length self.now.world.now.tasks }
        requires name { name < object_count self.now.world.now }
        requires cell { cell self.now.rows.now process name ≡ Some by }
        requires place { place < length self.now.forms.now }
        ensures { OnOk result (Finds self.now.world.now self.now.forms.now self.now.rows.now (MergeRule self.now.world.now self.now.forms.now self.now.rows.now process name by place) gaps.old.items gaps.new.items) }
    {
        let form = &self.forms[place];
        if is_idle(by, form.check, form.give) {
            return Ok(());
        }
        self.merge(process, name, by, place, gaps)
    }

    /// What merges with the templates from one place to before another give to a process for an object.
    fn merge_between(
        &self,
        process: usize,
        name: usize,
        by: Rights,
        start: usize,
        end: usize,
        gaps: &mut Vec<Gap>,
    ) -> Result<(), NoMemory>
        requires known { IsKnown self.now.world.now self.now.forms.now self.now.rows.now }
        requires process { process < length self.now.world.now.tasks }
        requires name { name < object_count self.now.world.now }
        requires cell { cell self.now.rows.now process name ≡ Some by }
        requires end { end ≤ length self.now.forms.now }
        ensures { OnOk result (Finds self.now.world.now self.now.forms.now self.now.rows.now (MergesFrom self.now.world.now self.now.forms.now self.now.rows.now process name by start end) gaps.old.items gaps.new.items) }
    {
        for place in start..end {
            self.merge_unless_idle(process, name, by, place, gaps)?;
        }
        Ok(())
    }

    /// What merges with the templates of a stretch, from one place on, give to a process for an object. Gives the
    /// place from which on templates are left.
    fn merge_stretch(
        &self,
        process: usize,
        name: usize,
        by: Rights,
        start: usize,
        stretch: &Stretch,
        gaps: &mut Vec<Gap>,
    ) -> Result<usize, NoMemory>
        requires known { IsKnown self.now.world.now self.now.forms.now self.now.rows.now }
        requires process { process < length self.now.world.now.tasks }
        requires name { name < object_count self.now.world.now }
        requires cell { cell self.now.rows.now process name ≡ Some by }
        requires stretch { IsStretch self.now.forms.now stretch.now }
        ensures more { IfOk result (λ end. start ≤ end) }
        ensures finds { IfOk result (λ end. Finds self.now.world.now self.now.forms.now self.now.rows.now (MergesFrom self.now.world.now self.now.forms.now self.now.rows.now process name by start end) gaps.old.items gaps.new.items) }
    {
        if start < stretch.start || stretch.end <= start {
            return Ok(start);
        }
        if is_idle(by, stretch.check, stretch.give) {
            return Ok(stretch.end);
        }
        self.merge_between(process, name, by, start, stretch.end, gaps)?;
        Ok(stretch.end)
    }

    /// What merges give to a process for an object.
    fn merge_all(
        &self,
        process: usize,
        name: usize,
        by: Rights,
        stretches: &[Stretch],
        gaps: &mut Vec<Gap>,
    ) -> Result<(), NoMemory>
        requires known { IsKnown self.now.world.now self.now.forms.now self.now.rows.now }
        requires process { process < length self.now.world.now.tasks }
        requires name { name < object_count self.now.world.now }
        requires cell { cell self.now.rows.now process name ≡ Some by }
        requires stretches { Each (IsStretch self.now.forms.now) stretches.now }
        ensures { OnOk result (Finds self.now.world.now self.now.forms.now self.now.rows.now (MergesRule self.now.world.now self.now.forms.now self.now.rows.now process name by) gaps.old.items gaps.new.items) }
    {
        let of = type_of(self.world, name);
        let mut place = start_of(self.forms, of);
        for number in place / STRETCH..stretches.len() {
            if place >= self.forms.len() || self.forms[place].of != of {
                return Ok(());
            }
            let next = self.merge_stretch(process, name, by, place, &stretches[number], gaps)?;
            place = next;
        }
        self.merge_between(process, name, by, place, self.forms.len(), gaps)?;
        Ok(())
    }

    /// What merges give to a process for an object, unless they are known to give nothing where it has these
    /// rights for an object of this type. Notes what is known then.
    pub(crate) fn merge_unsettled(
        &self,
        process: usize,
        name: usize,
        by: Rights,
        stretches: &[Stretch],
        settled: &mut SettledSets,
        gaps: &mut Vec<Gap>,
    ) -> Result<(), NoMemory>
        requires known { IsKnown self.now.world.now self.now.forms.now self.now.rows.now }
        requires process { process < length self.now.world.now.tasks }
        requires name { name < object_count self.now.world.now }
        requires cell { cell self.now.rows.now process name ≡ Some by }
        requires stretches { Each (IsStretch self.now.forms.now) stretches.now }
        ensures { OnOk result (Finds self.now.world.now self.now.forms.now self.now.rows.now (SettledRule self.now.world.now self.now.forms.now self.now.rows.now process settled.old.sets.items settled.new.sets.items (MergesRule self.now.world.now self.now.forms.now self.now.rows.now process name by)) gaps.old.items gaps.new.items) }
    {
        let of = type_of(self.world, name);
        if settled.knows(of, by) {
            return Ok(());
        }
        let before = gaps.len();
        self.merge_all(process, name, by, stretches, gaps)?;
        if gaps.len() != before {
            return Ok(());
        }
        settled.add(of, by);
        Ok(())
    }
}
