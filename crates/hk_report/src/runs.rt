//! The runs in which one capability has stood at one index of a list again and again (`docs/RULES.md`, "Reaches").
//!
//! The spans of a run are disjoint, so of a run one span alone can matter to a hop, and halving finds it.

ghost use Rattle.std.specs.Prelude.{◌≡◌, IfOk, option_copied};
ghost use Rattle.std.specs.List.{find};
ghost use Rattle.hk_report.specs.Histories.{history_of};
ghost use Rattle.hk_report.specs.Reachable.{can_matter, moment_at, IsKept, AreKept};
ghost use Rattle.hk_report.specs.Runs.{precedes, IsRun, AreCut, ends_at, AreRuns, is_open, AreByName, AreOrdered};

use crate::histories::{History, Span, same_cap};
use crate::lists::add_one;
use crate::reachable::moment_at;
use hk_model::{Items, Name, NoMemory};
use std::alloc::Global;
use std::mem;

/// Whether a span can stand before another in a run: the same capability stood at the same index, and was gone before
/// it stood there again.
fn precedes(a: &Span, b: &Span) -> bool
    ensures { result ≡ precedes a.now b.now }
{
    a.index == b.index
        && same_cap(a.cap, b.cap)
        && a.from < a.until
        && a.until <= b.from
        && b.from < b.until
}

/// Whether a span can matter in a list at which ways can be from this moment on, if they can.
fn can_matter(first: Option<u32>, span: &Span) -> bool
    ensures { result ≡ can_matter first span.now }
{
    match first {
        Some(first) => first <= span.until,
        None => false,
    }
}

/// Puts what has stood in a list in order, by the object, its index, its rights and its moment; leaves out what cannot
/// matter.
fn rearrange(alloc: Global, history: &mut History, first: Option<u32>)
    ensures kept { IsKept first history.old history.new }
    ensures ordered { AreByName history.new.spans }
{
    let mut spans = mem::replace(&mut history.spans, Items::new(alloc)).into_vec();
    spans.retain(|span| can_matter(first, span));
    spans.sort_unstable_by_key(|span| {
        (
            span.cap.name.0,
            span.index,
            span.cap.rights.bits(),
            span.from,
        )
    });
    history.spans = Items::from_vec(spans);
}

/// Puts what has stood in each list in order, so that the spans of a run stand together, and leaves out what cannot
/// matter, by the first moments at which ways can be at the objects.
pub(crate) fn rearrange_all(alloc: Global, histories: &mut Vec<History>, firsts: &[Option<u32>])
    ensures kept { AreKept (moment_at firsts.now) histories.old.items histories.new.items }
    ensures ordered { AreOrdered histories.new.items }
{
    for index in 0..histories.len() {
        if let Some(history) = histories.get_mut(index) {
            rearrange(alloc, history, moment_at(firsts, Name(index as u64)));
        }
    }
}

/// The places at which the runs of these spans end.
fn ends_of(alloc: Global, spans: &[Span]) -> Result<Items<usize>, NoMemory>
    ensures { IfOk result (λ ends. AreCut 0 ends spans.now) }
{
    let mut ends = Items::new(alloc);
    for place in 1..spans.len() {
        if !precedes(&spans[place - 1], &spans[place]) {
            add_one(alloc, &mut ends, place)?;
        }
    }
    if !spans.is_empty() {
        add_one(alloc, &mut ends, spans.len())?;
    }
    Ok(ends)
}

/// The places at which the runs of each list end, by the name of its object. NoMemory is want of memory.
pub(crate) fn all_ends(alloc: Global, histories: &[History]) -> Result<Vec<Items<usize>>, NoMemory>
    ensures { IfOk result (λ all. AreRuns histories.now all.items) }
{
    let mut all = Vec::with_capacity(alloc, histories.len())?;
    for history in histories {
        all.push(ends_of(alloc, history.spans.as_slice())?)?;
    }
    Ok(all)
}

/// The places at which the runs of a list end.
pub(crate) fn ends_at(all: &[Items<usize>], name: Name) -> &[usize]
    ensures { result.now ≡ ends_at all.now name }
{
    match all.get(name.0 as usize) {
        Some(ends) => ends.as_slice(),
        None => &[],
    }
}

/// What has stood in the list of an object.
pub(crate) fn spans_at(histories: &[History], name: Name) -> &[Span]
    ensures { result.now ≡ (history_of histories.now name).spans }
{
    match histories.get(name.0 as usize) {
        Some(history) => history.spans.as_slice(),
        None => &[],
    }
}

/// The first span of a run that has not ended by a moment. Most runs are of one span, and most have not ended.
pub(crate) fn first_open(run: &[Span], moment: u32) -> Option<&Span>
    requires { IsRun run.now }
    ensures { option_copied result ≡ find (is_open moment) run.now }
{
    if let Some(span) = run.first() {
        if moment < span.until {
            return Some(span);
        }
    }
    let ended = run.partition_point(|span| span.until <= moment);
    run.get(ended)
}
