//! What processes take of what others store: each from each, but where it has come by way of a third.

ghost use Rattle.std.specs.Prelude.{◌≡◌, ◌<◌, true, IfOk, OnOk, length};
ghost use Rattle.hk_rights.specs.Rights.{has, unconf_right, env_right};
ghost use Rattle.hk_bound.specs.Columns.{Finds};
ghost use Rattle.hk_bound.specs.Rules.{IsKnown, AreStored, StoredFrom, StoredRules};
ghost use Rattle.hk_bound.specs.Handed.{WaysPass, AllWaysPass, IsHanded, TakenRule};
ghost use Rattle.hk_bound.specs.Filled.{AddsStored};

use crate::gaps::{Gap, Table};
use crate::opening::object_count;
use crate::rows::{Rows, covers};
use hk_model::NoMemory;
use hk_rights::Rights;
use std::alloc::Global;

/// Those of the rights by which it hangs what passes through them.
pub(crate) fn passing_rights(by: Rights) -> Rights
    ensures unconf { has result unconf_right ≡ has by unconf_right }
    ensures env { has result env_right ≡ has by env_right }
{
    by.intersection(Rights::UNCONF.union(Rights::ENV))
}

/// Whether what a process takes of another through these rights comes to it by way of a third: one that
/// is known to have what it takes of the other, and of which the process is known to have what it takes.
fn is_handed(earlier: &Rows, ways: &[Option<Rights>], process: usize, by: Rights) -> bool
    ensures { result ≡ true → IsHanded earlier.now ways.now process by }
{
    let passing = passing_rights(by);
    let handing = passing.union(Rights::ENV);
    for (third, cell) in ways.iter().enumerate() {
        if covers(*cell, handing) && covers(earlier.get(third, process), passing) {
            return true;
        }
    }
    false
}

impl<'a> Table<'a> {
    /// What a process takes of what another stores, by the objects into which that one stores, and the
    /// rights through which it takes. What has come by way of a third is not looked at.
    fn take_stored(
        &self,
        process: usize,
        other: usize,
        names: &[usize],
        earlier: &Rows,
        ways: &[Option<Rights>],
        gaps: &mut Vec<Gap>,
    ) -> Result<Option<Rights>, NoMemory>
        requires known { IsKnown self.now.world.now self.now.forms.now self.now.rows.now }
        requires process { process < length self.now.world.now.tasks }
        requires other { other < length self.now.world.now.tasks }
        requires names { AreStored self.now.world.now self.now.rows.now other names.now }
        ensures { IfOk result (λ by. Finds self.now.world.now self.now.forms.now self.now.rows.now (AllWaysPass self.now.world.now self.now.forms.now self.now.rows.now earlier.now → WaysPass self.now.world.now self.now.forms.now self.now.rows.now other ways.now → TakenRule self.now.world.now self.now.forms.now self.now.rows.now process other by) gaps.old.items gaps.new.items) }
    {
        let Some(by) = self.through(process, other, names) else {
            return Ok(None);
        };
        if is_handed(earlier, ways, process, by) {
            return Ok(Some(by));
        }
        self.take_row(process, other, by, gaps)?;
        Ok(Some(by))
    }
}

/// Adds an object to those into which a process stores, if it is one.
fn add_stored(
    table: &Table,
    process: usize,
    name: usize,
    names: &mut Vec<usize>,
) -> Result<(), NoMemory>
    ensures { OnOk result (AddsStored table.now.world.now table.now.rows.now process name names.old.items names.new.items) }
{
    if table.stores(process, name) {
        names.push(name)?;
    }
    Ok(())
}

/// The objects into which a process stores.
fn stored_names(alloc: Global, table: &Table, process: usize) -> Result<Vec<usize>, NoMemory>
    ensures { IfOk result (λ names. AreStored table.now.world.now table.now.rows.now process names.items) }
{
    let mut names = Vec::new(alloc);
    for name in 0..object_count(table.world) {
        add_stored(table, process, name, &mut names)?;
    }
    Ok(names)
}

/// What processes take of what one stores, and the rights through which each takes.
fn stored_gaps(
    alloc: Global,
    table: &Table,
    other: usize,
    earlier: &Rows,
    gaps: &mut Vec<Gap>,
) -> Result<Vec<Option<Rights>>, NoMemory>
    requires known { IsKnown table.now.world.now table.now.forms.now table.now.rows.now }
    requires other { other < length table.now.world.now.tasks }
    ensures { IfOk result (λ ways. Finds table.now.world.now table.now.forms.now table.now.rows.now (AllWaysPass table.now.world.now table.now.forms.now table.now.rows.now earlier.now → StoredFrom table.now.world.now table.now.forms.now table.now.rows.now other × WaysPass table.now.world.now table.now.forms.now table.now.rows.now other ways.items) gaps.old.items gaps.new.items) }
{
    let names = stored_names(alloc, table, other)?;
    let mut ways = Vec::new(alloc);
    for process in 0..table.world.tasks().len() {
        let by = table.take_stored(process, other, &names, earlier, &ways, gaps)?;
        ways.push(by)?;
    }
    Ok(ways)
}

/// What processes take of what others store.
pub(crate) fn all_stored_gaps(
    alloc: Global,
    table: &Table,
    gaps: &mut Vec<Gap>,
) -> Result<(), NoMemory>
    requires known { IsKnown table.now.world.now table.now.forms.now table.now.rows.now }
    ensures { OnOk result (Finds table.now.world.now table.now.forms.now table.now.rows.now (StoredRules table.now.world.now table.now.forms.now table.now.rows.now) gaps.old.items gaps.new.items) }
{
    let mut earlier = Rows::new(alloc, 0, 0)?;
    for other in 0..table.world.tasks().len() {
        let ways = stored_gaps(alloc, table, other, &earlier, gaps)?;
        earlier.push(ways)?;
    }
    Ok(())
}
