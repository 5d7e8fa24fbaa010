//! Which runs hold an object (`docs/RULES.md`, "Reaches").

ghost use Rattle.std.specs.Prelude.{◌≡◌, ◌-◌, ◌++◌, ◌∷◌, [], length, filter, replicate, slice_get, IfOk, OnOk};
ghost use Rattle.hk_model.specs.declared.names.Name.{Name};
ghost use Rattle.hk_report.specs.Holders.{AreHolders, IsOneMore, held_at, holds, stretch_at, stretches};

use crate::histories::{History, Span};
use crate::lists::add_one;
use crate::runs::{ends_at, spans_at};
use hk_model::{Cap, Items, Name, NoMemory};
use std::alloc::Global;

/// A run of a list.
#[derive(Clone, Copy)]
pub struct Stretch {
    /// The object in whose list it stood.
    pub by: Name,
    /// The capability that stood there.
    pub cap: Cap,
    /// The first moment at which it stood there.
    pub from: u32,
    /// The place of its first span among those of the list.
    pub first: usize,
    /// The place behind its last one.
    pub end: usize,
}

/// No runs hold the objects that come next, up to a name.
fn reach_up(alloc: Global, all: &mut Vec<Items<Stretch>>, name: Name) -> Result<(), NoMemory>
    ensures { OnOk result (all.new.items ≡ all.old.items ++ replicate (name.0 - length all.old.items) []) }
{
    let missing = (name.0 as usize).saturating_sub(all.len());
    for _ in 0..missing {
        all.push(Items::new(alloc))?;
    }
    Ok(())
}

/// One run more, which holds an object.
#[tactic(auto, using(crate::proofs::HolderLemmas::more_held))]
fn add(alloc: Global, all: &mut Vec<Items<Stretch>>, stretch: Stretch) -> Result<(), NoMemory>
    ensures { OnOk result (IsOneMore stretch all.old.items all.new.items) }
{
    let name = stretch.cap.name;
    match all.get_mut(name.0 as usize) {
        Some(held) => {
            add_one(alloc, held, stretch)?;
            Ok(())
        }
        None => {
            reach_up(alloc, all, name)?;
            let mut held = Items::new(alloc);
            add_one(alloc, &mut held, stretch)?;
            all.push(held)?;
            Ok(())
        }
    }
}

/// The run of a list from a place to another more, if a span is there.
fn add_run(
    alloc: Global,
    all: &mut Vec<Items<Stretch>>,
    by: Name,
    spans: &[Span],
    first: usize,
    end: usize,
) -> Result<(), NoMemory>
    ensures { OnOk result ((name : Name) → held_at all.new.items name ≡ held_at all.old.items name ++ filter (holds name) (stretch_at by first end (slice_get spans.now first))) }
{
    match spans.get(first) {
        Some(span) => {
            let (cap, from) = (span.cap, span.from);
            add(
                alloc,
                all,
                Stretch {
                    by,
                    cap,
                    from,
                    first,
                    end,
                },
            )
        }
        None => Ok(()),
    }
}

/// The runs of a list more, which end at these places.
fn add_runs(
    alloc: Global,
    all: &mut Vec<Items<Stretch>>,
    by: Name,
    spans: &[Span],
    ends: &[usize],
) -> Result<(), NoMemory>
    ensures { OnOk result ((name : Name) → held_at all.new.items name ≡ held_at all.old.items name ++ filter (holds name) (stretches by spans.now 0 ends.now)) }
{
    let mut first = 0;
    for end in ends {
        add_run(alloc, all, by, spans, first, *end)?;
        first = *end;
    }
    Ok(())
}

/// The runs that hold each object, by its name. `runs` are the places at which those of each list end. NoMemory is want
/// of memory.
pub(crate) fn holders(
    alloc: Global,
    histories: &[History],
    runs: &[Items<usize>],
) -> Result<Vec<Items<Stretch>>, NoMemory>
    ensures { IfOk result (λ all. AreHolders histories.now runs.now all.items) }
{
    let mut all = Vec::with_capacity(alloc, histories.len())?;
    for index in 0..histories.len() {
        let by = Name(index as u64);
        let spans = spans_at(histories, by);
        add_runs(alloc, &mut all, by, spans, ends_at(runs, by))?;
    }
    Ok(all)
}
