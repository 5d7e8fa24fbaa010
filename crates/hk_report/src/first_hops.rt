//! Which hop from an object comes first, after which the rest of a way can be made (`docs/RULES.md`, "Reaches").
//!
//! A list is gone over run by run, or object by object: both stand in the order of the objects' names.

ghost use Rattle.std.specs.Prelude.{◌≡◌, ◌/◌, Bool, List, true, None, length, nat_lt, IfSome};
ghost use Rattle.std.specs.List.{find, between};
ghost use Rattle.hk_model.specs.declared.names.Name.{Name};
ghost use Rattle.hk_report.specs.declared.histories.Span.{Span};
ghost use Rattle.hk_report.specs.declared.histories.History.{History};
ghost use Rattle.hk_report.specs.Histories.{history_of};
ghost use Rattle.hk_report.specs.Runs.{IsRun, ends_at, is_open};
ghost use Rattle.hk_report.specs.Blocks.{IsAround, AreFrom, end_of};
ghost use Rattle.hk_report.specs.declared.hops.Level.TheVariants.{Behind};
ghost use Rattle.hk_report.specs.Hops.{IsBy, StaysFirst, StaysBefore, is_made, next_latest, bounds_at, latest_at, latest_end, alone, onward_below, first_open_below, first_from};
ghost use Rattle.hk_report.specs.Holders.{is_other};

use crate::blocks::{Block, IN_BLOCK, blocks_at};
use crate::histories::Span;
use crate::hops::{
    Arrived, Bounds, Ground, Latest, Level, Onward, Raise, earlier, entry_onward, handed_onward,
    index_of, later, moment_of,
};
use crate::runs::{ends_at, first_open, spans_at};
use hk_model::Name;

/// Objects are looked up in a list where it has so many runs for each of them, else its runs are gone over.
const LOOK_UP: usize = 8;

/// Whether an object is another than the one that was gone over last.
fn is_other(last: Option<Name>, name: Name) -> bool
    ensures { result ≡ is_other last name }
{
    match last {
        Some(last) => last.0 != name.0,
        None => true,
    }
}

/// Whether a hop comes before all over a run that begins with this span.
fn stays_first(from: &Arrived, span: &Span, first: &Option<Onward>) -> bool
    ensures { result ≡ true → StaysFirst from.now span.now first.now }
{
    match first {
        Some(onward) => {
            let moment = later(from.moment, span.from);
            moment_of(&onward.hop) < moment
                || (moment_of(&onward.hop) == moment && index_of(&onward.hop) < span.index)
        }
        None => false,
    }
}

/// Whether what begins at a moment begins when a way of these hops has to have come. A level that was worked out for each
/// object tells nothing of that.
fn is_late(level: &Level, moment: u32) -> bool
    ensures { result ≡ true → (made : Name → Bool) → (histories : List History) → (name : Name) → IsBy moment (latest_at made histories level.now name) }
{
    match level {
        Level::End { before, .. } => *before <= moment,
        Level::Near { before, .. } => *before <= moment,
        Level::Behind(_) => false,
    }
}

/// Whether a hop comes before all over what begins at a moment.
fn stays_before(from: &Arrived, moment: u32, first: &Option<Onward>) -> bool
    ensures { result ≡ true → StaysBefore from.now moment first.now }
{
    match first {
        Some(onward) => moment_of(&onward.hop) < later(from.moment, moment),
        None => false,
    }
}

/// Whether no hop over a span of a block comes before the one that is there: each of them has ended when the way comes to
/// their list, begins too late for the rest of the way, or begins behind the hop that is there.
fn is_passed(block: &Block, level: &Level, from: &Arrived, first: &Option<Onward>) -> bool
    ensures { result ≡ true → (made : Name → Bool) → (histories : List History) → (spans : List Span) → IsAround block.now spans → first.now ≡ first_from made (latest_at made histories level.now) from.now first.now spans }
{
    block.until <= from.moment
        || is_late(level, block.from)
        || stays_before(from, block.from, first)
}

/// The hop over a span that comes first, after which the rest can be made below these.
fn onward_below(from: &Arrived, span: &Span, latest: Latest, made: bool) -> Option<Onward>
    ensures { result ≡ onward_below latest made from.now span.now }
{
    earlier(
        entry_onward(from, span, latest),
        handed_onward(from, span, latest, made),
    )
}

/// The hop that comes first of one and those over a run of one capability, after which the rest can be made below these.
/// It can go over the first span alone that has not ended, and over none where the hop that is there comes before all.
fn first_open_below(
    run: &[Span],
    from: &Arrived,
    latest: Latest,
    made: bool,
    first: Option<Onward>,
) -> Option<Onward>
    requires { IsRun run.now }
    ensures { result ≡ first_open_below latest made from.now first (find (is_open from.now.moment) run.now) }
{
    if let Some(span) = run.first() {
        if stays_first(from, span, &first) {
            return first;
        }
    }
    match first_open(run, from.moment) {
        Some(span) => earlier(first, onward_below(from, span, latest, made)),
        None => first,
    }
}

impl<'a> Ground<'a> {
    /// The hop that comes first of one and those over a run. `known` keeps what was asked of a level last: runs that hold
    /// one object stand together. Nothing is asked for a run that has ended, or begins when the way has to have come.
    fn first_over(
        &self,
        level: &Level,
        known: &mut Option<Raise>,
        from: &Arrived,
        run: &[Span],
        first: Option<Onward>,
    ) -> Option<Onward>
        requires run { IsRun run.now }
        requires known { IfSome known.old (λ kept. kept.latest ≡ latest_at (is_made self.now.families.now self.now.begun self.now.histories.now) self.now.histories.now level.now kept.name) }
        ensures first { result ≡ first_from (is_made self.now.families.now self.now.begun self.now.histories.now) (latest_at (is_made self.now.families.now self.now.begun self.now.histories.now) self.now.histories.now level.now) from.now first run.now }
        ensures known { IfSome known.new (λ kept. kept.latest ≡ latest_at (is_made self.now.families.now self.now.begun self.now.histories.now) self.now.histories.now level.now kept.name) }
    {
        let Some(span) = run.first() else {
            return first;
        };
        if stays_first(from, span, &first) {
            return first;
        }
        if is_late(level, span.from) {
            return first;
        }
        let Some(open) = first_open(run, from.moment) else {
            return first;
        };
        let name = span.cap.name;
        let latest = self.latest_known(level, known, name);
        if latest.modify == 0 && latest.unconf == 0 {
            return first;
        }
        earlier(first, onward_below(from, open, latest, self.is_made(name)))
    }

    /// From which moments the rest can be made at an object, by what was asked last where it was the same.
    fn latest_known(&self, level: &Level, known: &mut Option<Raise>, name: Name) -> Latest
        requires { IfSome known.old (λ kept. kept.latest ≡ latest_at (is_made self.now.families.now self.now.begun self.now.histories.now) self.now.histories.now level.now kept.name) }
        ensures value { result ≡ latest_at (is_made self.now.families.now self.now.begun self.now.histories.now) self.now.histories.now level.now name }
        ensures known { IfSome known.new (λ kept. kept.latest ≡ latest_at (is_made self.now.families.now self.now.begun self.now.histories.now) self.now.histories.now level.now kept.name) }
    {
        if let Some(kept) = *known {
            if kept.name.0 == name.0 {
                return kept.latest;
            }
        }
        let latest = self.latest_at(level, name);
        *known = Some(Raise { name, latest });
        latest
    }

    /// The first hop after which the rest can be made.
    pub(crate) fn first_onward(&self, level: &Level, from: &Arrived) -> Option<Onward>
        ensures { result ≡ first_from (is_made self.now.families.now self.now.begun self.now.histories.now) (latest_at (is_made self.now.families.now self.now.begun self.now.histories.now) self.now.histories.now level.now) from.now None (history_of self.now.histories.now from.now.name).spans }
    {
        match level {
            Level::End { name, .. } => self.first_held(level, *name, from, None),
            Level::Near { name, before } if self.are_few(self.holders_of(*name).len(), from) => {
                self.first_near(*name, *before, from)
            }
            Level::Behind(bounds) if self.are_few(bounds.latest.len(), from) => {
                self.first_behind(level, bounds, from)
            }
            _ => self.first_by_runs(level, from),
        }
    }

    /// Whether it costs less to look up so many objects in the list than to go over its runs.
    fn are_few(&self, count: usize, from: &Arrived) -> bool
        ensures { result ≡ nat_lt count (length (ends_at self.now.runs.now from.now.name) / 8) }
    {
        count < ends_at(self.runs, from.name).len() / LOOK_UP
    }

    /// The hop that comes first of one and those to an object, after which the rest can be made: of the runs of the list
    /// those that hold it are looked at.
    fn first_held(
        &self,
        level: &Level,
        object: Name,
        from: &Arrived,
        first: Option<Onward>,
    ) -> Option<Onward>
        ensures { result ≡ first_from (is_made self.now.families.now self.now.begun self.now.histories.now) (alone object (latest_at (is_made self.now.families.now self.now.begun self.now.histories.now) self.now.histories.now level.now object)) from.now first (history_of self.now.histories.now from.now.name).spans }
    {
        let runs = self.held_in(object, from.name);
        if runs.is_empty() {
            return first;
        }
        let latest = self.latest_at(level, object);
        let made = self.is_made(object);
        let mut first = first;
        for held in runs {
            first = first_open_below(self.run_of(held), from, latest, made, first);
        }
        first
    }

    /// The first hop after which one more leads to an object, before a moment: by the objects in whose lists it stood.
    fn first_near(&self, end: Name, before: u32, from: &Arrived) -> Option<Onward>
        ensures { result ≡ first_from (is_made self.now.families.now self.now.begun self.now.histories.now) (next_latest (is_made self.now.families.now self.now.begun self.now.histories.now) self.now.histories.now (latest_end end before)) from.now None (history_of self.now.histories.now from.now.name).spans }
    {
        let level = Level::Near { name: end, before };
        let mut first = None;
        let mut last = None;
        for held in self.holders_of(end) {
            if is_other(last, held.by) {
                first = self.first_held(&level, held.by, from, first);
                last = Some(held.by);
            }
        }
        first
    }

    /// The first hop after which the rest can be made, by the objects that have bounds. They are those of the level.
    fn first_behind(&self, level: &Level, bounds: &Bounds, from: &Arrived) -> Option<Onward>
        requires { level.now ≡ Behind bounds.now }
        ensures { result ≡ first_from (is_made self.now.families.now self.now.begun self.now.histories.now) (bounds_at bounds.now) from.now None (history_of self.now.histories.now from.now.name).spans }
    {
        let mut first = None;
        for name in bounds.latest.keys() {
            first = self.first_held(level, *name, from, first);
        }
        first
    }

    /// The first hop after which the rest can be made, by all runs of the list.
    fn first_by_runs(&self, level: &Level, from: &Arrived) -> Option<Onward>
        ensures { result ≡ first_from (is_made self.now.families.now self.now.begun self.now.histories.now) (latest_at (is_made self.now.families.now self.now.begun self.now.histories.now) self.now.histories.now level.now) from.now None (history_of self.now.histories.now from.now.name).spans }
    {
        let mut first = None;
        let mut known = None;
        let mut start = 0;
        let mut rest = ends_at(self.runs, from.name);
        for block in blocks_at(self.blocks, from.name) {
            let (runs, more) = rest.split_at(IN_BLOCK);
            if !is_passed(block, level, from, &first) {
                first = self.first_through(level, &mut known, from, start, runs, first);
            }
            start = runs[IN_BLOCK - 1];
            rest = more;
        }
        self.first_through(level, &mut known, from, start, rest, first)
    }

    /// The hop that comes first of one and those over the runs from a place of the list on, which end at these places.
    fn first_through(
        &self,
        level: &Level,
        known: &mut Option<Raise>,
        from: &Arrived,
        start: usize,
        ends: &[usize],
        first: Option<Onward>,
    ) -> Option<Onward>
        requires runs { AreFrom start ends.now (history_of self.now.histories.now from.now.name).spans }
        requires known { IfSome known.old (λ kept. kept.latest ≡ latest_at (is_made self.now.families.now self.now.begun self.now.histories.now) self.now.histories.now level.now kept.name) }
        ensures first { result ≡ first_from (is_made self.now.families.now self.now.begun self.now.histories.now) (latest_at (is_made self.now.families.now self.now.begun self.now.histories.now) self.now.histories.now level.now) from.now first (between start (end_of start ends.now) (history_of self.now.histories.now from.now.name).spans) }
        ensures known { IfSome known.new (λ kept. kept.latest ≡ latest_at (is_made self.now.families.now self.now.begun self.now.histories.now) self.now.histories.now level.now kept.name) }
    {
        let spans = spans_at(self.histories, from.name);
        let mut start = start;
        let mut first = first;
        for end in ends {
            first = self.first_over(level, known, from, &spans[start..*end], first);
            start = *end;
        }
        first
    }
}
