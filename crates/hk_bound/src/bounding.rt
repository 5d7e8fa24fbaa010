//! The bounds of all processes of a world.

ghost use Rattle.std.specs.Prelude.{◌≡◌, ◌↔◌, ◌<◌, ℕ, ◌+◌, IsTrue, IfOk, OnOk, IfSome, Some, length, slice_get};
ghost use Rattle.hk_bound.specs.Columns.{proc_at, name_at, object_count};
ghost use Rattle.hk_bound.specs.Listed.{IsBoundOf, Listing, AreExact, changes_in};
ghost use Rattle.hk_bound.specs.Bounds.{IsInBound};

use crate::closing::closed_rows;
use crate::forms::all_forms;
use crate::opening::{is_general, is_listed, object_count, type_of};
use crate::rows::Rows;
use hk_model::{Name, NoMemory, World};
use hk_rights::{Right, Rights};
use std::alloc::Global;

/// Whether some of these rights, beside MODIFY, change an object of a type.
fn changes(of: Name, rights: Rights) -> bool
    ensures { result ≡ changes_in of rights }
{
    rights.has(Right::MODIFY)
        && ((is_general(of) && (rights.has(Right::PUTDATA) || rights.has(Right::ADDDATA)))
            || (is_listed(of)
                && (rights.has(Right::STORE)
                    || rights.has(Right::APPEND)
                    || rights.has(Right::KILL)))
            || (of.0 == 3 && (rights.has(Right::A0) || rights.has(Right::A1))))
}

/// Whether a process may ever change an object.
fn may_change(world: &World, rows: &Rows, process: usize, name: usize) -> bool
    requires exact { AreExact world.now rows.now }
    requires name { name < object_count world.now }
    ensures { IsTrue result ↔ IsInBound world.now (proc_at process) (name_at name) }
{
    match rows.get(process, name) {
        None => false,
        Some(rights) => changes(type_of(world, name), rights),
    }
}

/// Adds an object to the list of those that a process may ever change, if it is one.
fn list(
    world: &World,
    rows: &Rows,
    process: usize,
    name: usize,
    names: &mut Vec<Name>,
) -> Result<(), NoMemory>
    requires exact { AreExact world.now rows.now }
    requires name { name < object_count world.now }
    requires listing { Listing world.now (proc_at process) name names.old.items }
    ensures { OnOk result (Listing world.now (proc_at process) (name + 1) names.new.items) }
{
    if !may_change(world, rows, process, name) {
        return Ok(());
    }
    names.push(Name(name as u64))?;
    Ok(())
}

/// The objects that a process may ever change, names rising.
fn bound_of(
    alloc: Global,
    world: &World,
    rows: &Rows,
    process: usize,
) -> Result<Vec<Name>, NoMemory>
    requires { AreExact world.now rows.now }
    ensures { IfOk result (λ names. IsBoundOf world.now (proc_at process) names.items) }
{
    let mut names = Vec::new(alloc);
    for name in 0..object_count(world) {
        list(world, rows, process, name, &mut names)?;
    }
    Ok(names)
}

/// The static bound of each process (`docs/RULES.md`, "The static bound"): the objects of the opening
/// that it may ever change, whatever the programs do, in rising order of their names. One list for each
/// process, in their order. `NoMemory` where memory does not suffice.
pub fn bound(alloc: Global, world: &World) -> Result<Vec<Vec<Name>>, NoMemory>
    ensures count { IfOk result (λ bounds. length bounds.items ≡ length world.now.tasks) }
    ensures exact { IfOk result
        (λ bounds. (p : ℕ) → IfSome (slice_get bounds.items p) (λ names. IsBoundOf world.now (proc_at p) names.items)) }
{
    let processes = world.tasks().len();
    let forms = all_forms(alloc, world)?;
    let rows = closed_rows(alloc, world, &forms)?;
    let mut bounds = Vec::new(alloc);
    for process in 0..processes {
        bounds.push(bound_of(alloc, world, &rows, process)?)?;
    }
    Ok(bounds)
}
