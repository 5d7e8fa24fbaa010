//! All that the processes of a world can come to have: a worklist of cells that have grown, and looks
//! over all rules that see whether anything is missing.

ghost use Rattle.std.specs.Prelude.{◌≡◌, ◌<◌, ◌≤◌, [], IfOk, OnOk, length};
ghost use Rattle.hk_model.specs.WorldValue.{IsWorld};
ghost use Rattle.hk_bound.specs.Columns.{AreGaps, Finds};
ghost use Rattle.hk_bound.specs.Forms.{AreForms};
ghost use Rattle.hk_bound.specs.Rules.{IsKnown, OwnRules, AllRules};
ghost use Rattle.hk_bound.specs.Weights.{rows_weight};
ghost use Rattle.hk_bound.specs.Each.{Each};
ghost use Rattle.hk_bound.specs.Filled.{IsWithin, AreFilling, AreWays, Fills, FillsAll};
ghost use Rattle.hk_bound.specs.Listed.{AreExact};
ghost use Rattle.hk_bound.specs.Merges.{IsStretch};

use crate::batches::Batch;
use crate::forms::Form;
use crate::gaps::{Gap, Table};
use crate::handing::all_stored_gaps;
use crate::holdings::Holdings;
use crate::merging::{Stretch, all_stretches};
use crate::opening::{object_count, type_of};
use crate::rows::{Rows, covers};
use crate::spreading::{Grown, Ways};
use crate::waiting::Waiting;
use hk_model::{NoMemory, World};
use hk_rights::Rights;
use std::alloc::Global;

/// The objects of each type of the opening, by the type's name.
fn kinds(alloc: Global, world: &World) -> Result<Vec<Vec<usize>>, NoMemory> {
    let mut kinds: Vec<Vec<usize>> = Vec::new(alloc);
    for _ in 0..object_count(world) {
        kinds.push(Vec::new(alloc))?;
    }
    for name in 0..object_count(world) {
        if let Some(names) = kinds.get_mut(type_of(world, name).0 as usize) {
            names.push(name)?;
        }
    }
    Ok(kinds)
}

/// The rights of a cell with others besides.
fn united(cell: Option<Rights>, rights: Rights) -> Rights {
    match cell {
        None => rights,
        Some(old) => old.union(rights),
    }
}

/// Whether a cell has no other rights than these.
fn is_latest(cell: Option<Rights>, rights: Rights) -> bool {
    match cell {
        None => false,
        Some(now) => rights.contains(now),
    }
}

/// Adds the rights of a gap to its cell, which then waits to be taken up, unless it has them.
fn fill(rows: &mut Rows, gap: &Gap, grown: &mut Vec<Grown>) -> Result<(), NoMemory>
    requires process { gap.now.process < length rows.old }
    ensures { OnOk result (Fills gap.now rows.old rows.new grown.old.items grown.new.items) }
{
    if covers(rows.get(gap.process, gap.column), gap.rights) {
        return Ok(());
    }
    let rights = united(rows.get(gap.process, gap.column), gap.rights);
    rows.join(gap.process, gap.column, gap.rights);
    grown.push(Grown {
        process: gap.process,
        column: gap.column,
        rights,
    })?;
    Ok(())
}

/// Adds the rights of gaps to their cells.
fn fill_all(
    world: &World,
    forms: &[Form],
    rows: &mut Rows,
    gaps: &[Gap],
    grown: &mut Vec<Grown>,
) -> Result<(), NoMemory>
    requires filling { AreFilling world.now forms.now rows.old grown.old.items }
    requires gaps { AreGaps world.now forms.now rows.old gaps.now }
    ensures all { OnOk result (FillsAll world.now forms.now rows.old rows.new grown.old.items grown.new.items) }
    ensures more { OnOk result (0 < length gaps.now → rows_weight rows.old < rows_weight rows.new) }
{
    for gap in gaps {
        fill(rows, gap, grown)?;
    }
    Ok(())
}

/// Gives what comes of a cell that has grown, and lets it wait for the rest. Where it has grown again, its later
/// entry was taken up.
fn take_up(
    alloc: Global,
    world: &World,
    forms: &[Form],
    kinds: &[Vec<usize>],
    cell: &Grown,
    rows: &mut Rows,
    ways: &mut Ways,
    grown: &mut Vec<Grown>,
    waiting: &mut Waiting,
) -> Result<(), NoMemory>
    requires world { IsWorld world.now }
    requires forms { AreForms world.now forms.now }
    requires cell { IsWithin world.now forms.now cell.now }
    requires filling { AreFilling world.now forms.now rows.old grown.old.items }
    requires ways { AreWays world.now forms.now ways.old.known }
    ensures filled { OnOk result (FillsAll world.now forms.now rows.old rows.new grown.old.items grown.new.items) }
    ensures ways { OnOk result (AreWays world.now forms.now ways.new.known) }
{
    if !is_latest(rows.get(cell.process, cell.column), cell.rights) {
        return Ok(());
    }
    let mut gaps = Vec::new(alloc);
    let table = Table {
        world,
        forms,
        kinds,
        rows: &*rows,
    };
    table.take_up(alloc, cell, ways, &mut gaps)?;
    fill_all(world, forms, rows, &gaps, grown)?;
    waiting.add(cell, ways.has_takers(cell.process))?;
    Ok(())
}

/// Gives another process what it takes of the cells of a process that have grown.
fn pass_cells(
    alloc: Global,
    world: &World,
    forms: &[Form],
    kinds: &[Vec<usize>],
    other: usize,
    process: usize,
    columns: &[usize],
    rows: &mut Rows,
    ways: &Ways,
    grown: &mut Vec<Grown>,
) -> Result<(), NoMemory>
    requires world { IsWorld world.now }
    requires forms { AreForms world.now forms.now }
    requires filling { AreFilling world.now forms.now rows.old grown.old.items }
    requires ways { AreWays world.now forms.now ways.now.known }
    ensures { OnOk result (FillsAll world.now forms.now rows.old rows.new grown.old.items grown.new.items) }
{
    let Some(by) = ways.known.get(other, process) else {
        return Ok(());
    };
    let mut gaps = Vec::new(alloc);
    let table = Table {
        world,
        forms,
        kinds,
        rows: &*rows,
    };
    let mine = rows.row(other);
    let theirs = rows.row(process);
    for column in columns {
        table.take_grown(other, process, by, *column, mine, theirs, &mut gaps)?;
    }
    fill_all(world, forms, rows, &gaps, grown)?;
    Ok(())
}

/// Gives those that take from a process what they take of its cells that have grown.
fn pass_on(
    alloc: Global,
    world: &World,
    forms: &[Form],
    kinds: &[Vec<usize>],
    process: usize,
    columns: &[usize],
    rows: &mut Rows,
    ways: &Ways,
    grown: &mut Vec<Grown>,
) -> Result<(), NoMemory>
    requires world { IsWorld world.now }
    requires forms { AreForms world.now forms.now }
    requires filling { AreFilling world.now forms.now rows.old grown.old.items }
    requires ways { AreWays world.now forms.now ways.now.known }
    ensures { OnOk result (FillsAll world.now forms.now rows.old rows.new grown.old.items grown.new.items) }
{
    for other in ways.takers_of(process) {
        pass_cells(
            alloc, world, forms, kinds, *other, process, columns, rows, ways, grown,
        )?;
    }
    Ok(())
}

/// Takes up cells that have grown.
fn take_up_cells(
    alloc: Global,
    world: &World,
    forms: &[Form],
    kinds: &[Vec<usize>],
    cells: &[Grown],
    rows: &mut Rows,
    ways: &mut Ways,
    grown: &mut Vec<Grown>,
    waiting: &mut Waiting,
) -> Result<(), NoMemory>
    requires world { IsWorld world.now }
    requires forms { AreForms world.now forms.now }
    requires cells { Each (IsWithin world.now forms.now) cells.now }
    requires filling { AreFilling world.now forms.now rows.old grown.old.items }
    requires ways { AreWays world.now forms.now ways.old.known }
    ensures filled { OnOk result (FillsAll world.now forms.now rows.old rows.new grown.old.items grown.new.items) }
    ensures ways { OnOk result (AreWays world.now forms.now ways.new.known) }
{
    for cell in cells {
        take_up(alloc, world, forms, kinds, cell, rows, ways, grown, waiting)?;
    }
    Ok(())
}

/// The number of cells before those at the end that are all of one process, one of these at least.
fn before_last(grown: &[Grown]) -> usize
    requires { 0 < length grown.now }
    ensures { result < length grown.now }
{
    let last = grown.len() - 1;
    let process = grown[last].process;
    for back in 0..last {
        let start = last - back;
        if grown[start - 1].process != process {
            return start;
        }
    }
    0
}

/// Takes up the cells that have grown, until none is left: always those at the end that are of one
/// process together.
fn take_up_all(
    alloc: Global,
    world: &World,
    forms: &[Form],
    kinds: &[Vec<usize>],
    rows: &mut Rows,
    ways: &mut Ways,
    grown: &mut Vec<Grown>,
    waiting: &mut Waiting,
) -> Result<(), NoMemory>
    requires world { IsWorld world.now }
    requires forms { AreForms world.now forms.now }
    requires filling { AreFilling world.now forms.now rows.old grown.old.items }
    requires ways { AreWays world.now forms.now ways.old.known }
    ensures filling { OnOk result (AreFilling world.now forms.now rows.new grown.new.items) }
    ensures no_less { OnOk result (rows_weight rows.old ≤ rows_weight rows.new) }
    ensures ways { OnOk result (AreWays world.now forms.now ways.new.known) }
{
    'cells: while !grown.is_empty() {
        let start = before_last(grown);
        let cells = grown.split_off(start)?;
        take_up_cells(
            alloc, world, forms, kinds, &cells, rows, ways, grown, waiting,
        )?;
    }
    Ok(())
}

/// Gives what merges give to a process for a cell that has grown.
fn merge_column(
    alloc: Global,
    world: &World,
    forms: &[Form],
    kinds: &[Vec<usize>],
    process: usize,
    column: usize,
    stretches: &[Stretch],
    holdings: &Holdings,
    batch: &mut Batch,
    rows: &mut Rows,
    grown: &mut Vec<Grown>,
) -> Result<(), NoMemory>
    requires world { IsWorld world.now }
    requires forms { AreForms world.now forms.now }
    requires process { process < length world.now.tasks }
    requires stretches { Each (IsStretch forms.now) stretches.now }
    requires filling { AreFilling world.now forms.now rows.old grown.old.items }
    ensures { OnOk result (FillsAll world.now forms.now rows.old rows.new grown.old.items grown.new.items) }
{
    let mut gaps = Vec::new(alloc);
    let table = Table {
        world,
        forms,
        kinds,
        rows: &*rows,
    };
    table.merge_column(
        alloc, process, column, stretches, holdings, batch, &mut gaps,
    )?;
    fill_all(world, forms, rows, &gaps, grown)?;
    Ok(())
}

/// Gives what merges give to a process for cells that have grown.
fn merge_columns(
    alloc: Global,
    world: &World,
    forms: &[Form],
    kinds: &[Vec<usize>],
    process: usize,
    columns: &[usize],
    stretches: &[Stretch],
    holdings: &Holdings,
    rows: &mut Rows,
    grown: &mut Vec<Grown>,
) -> Result<(), NoMemory>
    requires world { IsWorld world.now }
    requires forms { AreForms world.now forms.now }
    requires stretches { Each (IsStretch forms.now) stretches.now }
    requires filling { AreFilling world.now forms.now rows.old grown.old.items }
    ensures { OnOk result (FillsAll world.now forms.now rows.old rows.new grown.old.items grown.new.items) }
{
    if process >= world.tasks().len() {
        return Ok(());
    }
    let mut batch = Batch::new(alloc, columns.len(), forms.len())?;
    for column in columns {
        merge_column(
            alloc, world, forms, kinds, process, *column, stretches, holdings, &mut batch, rows,
            grown,
        )?;
    }
    Ok(())
}

/// Takes up what has waited of one process: merges, and what is handed on where no merge waits. Gives whether
/// anything waited.
fn take_waiting(
    alloc: Global,
    world: &World,
    forms: &[Form],
    kinds: &[Vec<usize>],
    stretches: &[Stretch],
    rows: &mut Rows,
    ways: &Ways,
    grown: &mut Vec<Grown>,
    waiting: &mut Waiting,
) -> Result<bool, NoMemory>
    requires world { IsWorld world.now }
    requires forms { AreForms world.now forms.now }
    requires stretches { Each (IsStretch forms.now) stretches.now }
    requires filling { AreFilling world.now forms.now rows.old grown.old.items }
    requires ways { AreWays world.now forms.now ways.now.known }
    ensures { IfOk result (λ more. FillsAll world.now forms.now rows.old rows.new grown.old.items grown.new.items) }
{
    if let Some((process, columns)) = waiting.take_merges(alloc)? {
        merge_columns(
            alloc,
            world,
            forms,
            kinds,
            process,
            &columns,
            stretches,
            &waiting.holdings,
            rows,
            grown,
        )?;
        return Ok(true);
    }
    let Some((process, columns)) = waiting.take_passes(alloc)? else {
        return Ok(false);
    };
    pass_on(
        alloc, world, forms, kinds, process, &columns, rows, ways, grown,
    )?;
    Ok(true)
}

/// Takes up all that has grown and all that waits, until nothing is left.
fn spread_all(
    alloc: Global,
    world: &World,
    forms: &[Form],
    kinds: &[Vec<usize>],
    stretches: &[Stretch],
    rows: &mut Rows,
    ways: &mut Ways,
    grown: &mut Vec<Grown>,
    waiting: &mut Waiting,
) -> Result<(), NoMemory>
    requires world { IsWorld world.now }
    requires forms { AreForms world.now forms.now }
    requires stretches { Each (IsStretch forms.now) stretches.now }
    requires filling { AreFilling world.now forms.now rows.old grown.old.items }
    requires ways { AreWays world.now forms.now ways.old.known }
    ensures filling { OnOk result (AreFilling world.now forms.now rows.new grown.new.items) }
    ensures no_less { OnOk result (rows_weight rows.old ≤ rows_weight rows.new) }
    ensures ways { OnOk result (AreWays world.now forms.now ways.new.known) }
{
    for _ in 0..u64::MAX {
        take_up_all(alloc, world, forms, kinds, rows, ways, grown, waiting)?;
        if !take_waiting(
            alloc, world, forms, kinds, stretches, rows, ways, grown, waiting,
        )? {
            return Ok(());
        }
    }
    Ok(())
}

/// What processes get by what they have themselves.
fn all_own_gaps(
    alloc: Global,
    table: &Table,
    stretches: &[Stretch],
    gaps: &mut Vec<Gap>,
) -> Result<(), NoMemory>
    requires known { IsKnown table.now.world.now table.now.forms.now table.now.rows.now }
    requires stretches { Each (IsStretch table.now.forms.now) stretches.now }
    ensures { OnOk result (Finds table.now.world.now table.now.forms.now table.now.rows.now (OwnRules table.now.world.now table.now.forms.now table.now.rows.now) gaps.old.items gaps.new.items) }
{
    for (process, task) in table.world.tasks().iter().enumerate() {
        table.own_gaps(alloc, process, task, stretches, gaps)?;
    }
    Ok(())
}

/// All that the rules give and the rows lack, of all processes.
fn missing(alloc: Global, table: &Table, stretches: &[Stretch]) -> Result<Vec<Gap>, NoMemory>
    requires known { IsKnown table.now.world.now table.now.forms.now table.now.rows.now }
    requires stretches { Each (IsStretch table.now.forms.now) stretches.now }
    ensures { IfOk result (λ gaps. Finds table.now.world.now table.now.forms.now table.now.rows.now (AllRules table.now.world.now table.now.forms.now table.now.rows.now) [] gaps.items) }
{
    let mut gaps = Vec::new(alloc);
    all_own_gaps(alloc, table, stretches, &mut gaps)?;
    all_stored_gaps(alloc, table, &mut gaps)?;
    Ok(gaps)
}

/// What the rows lack, by a look over all rules.
fn look(
    alloc: Global,
    world: &World,
    forms: &[Form],
    kinds: &[Vec<usize>],
    stretches: &[Stretch],
    rows: &Rows,
) -> Result<Vec<Gap>, NoMemory>
    requires known { IsKnown world.now forms.now rows.now }
    requires stretches { Each (IsStretch forms.now) stretches.now }
    ensures { IfOk result (λ gaps. Finds world.now forms.now rows.now (AllRules world.now forms.now rows.now) [] gaps.items) }
{
    let table = Table {
        world,
        forms,
        kinds,
        rows,
    };
    missing(alloc, &table, stretches)
}

/// No cells that wait.
fn nothing_waiting(alloc: Global, world: &World, forms: &[Form]) -> Result<Waiting, NoMemory>
    requires { IsWorld world.now }
{
    let count = world.tasks().len();
    let kinds = kinds(alloc, world)?;
    Waiting::new(alloc, count, object_count(world), forms, &kinds)
}

/// All that the processes can come to have. The first look finds what they open with. Each cell that
/// grows waits, and is taken up once with the rights that it has then. The last look finds nothing.
pub(crate) fn closed_rows(alloc: Global, world: &World, forms: &[Form]) -> Result<Rows, NoMemory>
    requires world { IsWorld world.now }
    requires forms { AreForms world.now forms.now }
    ensures { IfOk result (λ rows. AreExact world.now rows) }
{
    let count = world.tasks().len();
    let kinds = kinds(alloc, world)?;
    let stretches = all_stretches(alloc, forms)?;
    let mut rows = Rows::new(alloc, count, object_count(world) + count + forms.len())?;
    let mut ways = Ways::new(alloc, count, world)?;
    let mut grown = Vec::new(alloc);
    let mut waiting = nothing_waiting(alloc, world, forms)?;
    'looks: loop {
        let gaps = look(alloc, world, forms, &kinds, stretches.as_slice(), &rows)?;
        if gaps.is_empty() {
            return Ok(rows);
        }
        fill_all(world, forms, &mut rows, &gaps, &mut grown)?;
        spread_all(
            alloc,
            world,
            forms,
            &kinds,
            stretches.as_slice(),
            &mut rows,
            &mut ways,
            &mut grown,
            &mut waiting,
        )?;
    }
}
