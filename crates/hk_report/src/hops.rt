//! Hops over what has stood in lists, and from which moments the rest of a way can be made (`docs/RULES.md`, "Reaches").

ghost use Rattle.std.specs.Prelude.{◌≡◌, ◌≤◌, ◌/◌, Bool, List, true, None, length, filter, nat_lt, IfOk, IfSome, OnOk};
ghost use Rattle.std.specs.Cmp.Lexicographic.{slice_cmp};
ghost use Rattle.std.specs.List.{AllByRecursion, find};
ghost use Rattle.std.specs.Ordering.{nat_cmp, is_lt};
ghost use Rattle.hk_model.specs.Reaches.{index_of, moment_of};
ghost use Rattle.hk_model.specs.Changes.{hop_key};
ghost use Rattle.hk_report.specs.Histories.{history_of};
ghost use Rattle.hk_report.specs.Runs.{IsRun, AreRuns, AreRuns-prop, AreOrdered, AreOrdered-prop, ends_at, is_open};
ghost use Rattle.hk_report.specs.Blocks.{AreBlocked, AreBlocked-prop};
ghost use Rattle.hk_report.specs.declared.hops.Level.TheVariants.{Behind};
ghost use Rattle.hk_report.specs.Hops.{StaysFirst, same_begun, has_begun, is_made, next_latest, later, greater, lesser, arrived_by, arrived_whole, no_latest, ends_before, bounds_at, latest_at, latest_end, alone, is_good, entry_onward, handed_onward, earlier, onward_below, first_open_below, first_from, from_on};
ghost use Rattle.hk_report.specs.HeldBlocks.{IsWithin, AreHeldBlocked, AreHeldBlocked-prop};
ghost use Rattle.hk_report.specs.declared.reachable.Side.TheVariants.{Last};
ghost use Rattle.hk_report.specs.Reachable.{moment_at, can_come, comes_at, Agree, IsClosed, IsClosed-prop};
ghost use Rattle.hk_report.specs.Holders.{AreHolders, HoldsAlone, held_at, live_at, held_in, is_other, spans_in, joined, latest_within, entry_most, handed_most, most_on, raised_at, raised_over};

use crate::blocks::{Block, IN_BLOCK};
use crate::families::{Begun, calls_over};
use crate::held_blocks::{HeldBlock, held_blocks_at};
use crate::histories::{History, Span};
use crate::holders::Stretch;
use crate::lists::Lists;
use crate::reachable::{from_end, is_by, moment_at};
use crate::runs::{ends_at, first_open, spans_at};
use hk_model::{Cap, Hop, Items, Name, NoMemory};
use hk_rights::Right;
use std::alloc::Global;
use std::collections::BTreeMap;

/// Where a way has come to.
#[derive(Clone, Copy)]
pub struct Arrived {
    pub name: Name,
    /// Whether the object stands good for the modifiable reach.
    pub modify: bool,
    /// Whether it stands good for the unconfined reach.
    pub unconf: bool,
    pub moment: u32,
}

/// From which moments on an object the rest of a way can be made: from those below these.
#[derive(Clone, Copy)]
pub struct Latest {
    /// Where the object stands good for the modifiable reach.
    pub modify: u32,
    /// Where it stands good for the unconfined reach.
    pub unconf: u32,
}

/// From which moments the rest of a way can be made, at each object at which it can.
#[derive(Drop)]
pub struct Bounds {
    pub latest: BTreeMap<Name, Latest>,
}

/// The same of the rest of a way that has so many hops.
#[derive(Drop)]
pub enum Level {
    /// No hop: the way has come to this object, before this moment.
    End { name: Name, before: u32 },
    /// One hop to it: told of an object as it is asked for, by the runs of its list that hold the other.
    Near { name: Name, before: u32 },
    /// More hops, worked out for each object.
    Behind(Bounds),
}

/// What is to be raised at an object.
#[derive(Clone, Copy)]
pub(crate) struct Raise {
    pub name: Name,
    pub latest: Latest,
}

impl Raise {
    /// Whether it raises an object as far as what is at most this.
    fn covers(&self, name: Name, most: Latest) -> bool
        ensures { result ≡ true → (self.now.name.0 ≡ name.0) × (most.modify ≤ self.now.latest.modify) × (most.unconf ≤ self.now.latest.unconf) }
    {
        self.name.0 == name.0
            && most.modify <= self.latest.modify
            && most.unconf <= self.latest.unconf
    }
}

/// Whether a run begins when a hop over it has to have been made.
fn begins_late(held: &Stretch, most: Latest) -> bool
    ensures { result ≡ true → (most.modify ≤ held.now.from) × (most.unconf ≤ held.now.from) }
{
    most.modify <= held.from && most.unconf <= held.from
}

/// A hop, and where it leads.
#[derive(Clone, Copy)]
pub struct Onward {
    pub hop: Hop,
    pub to: Arrived,
}

/// What hops of a call go over.
#[derive(Clone, Copy)]
pub(crate) struct Ground<'a> {
    /// What has stood in the list of each object, by its name.
    pub histories: &'a [History],
    /// The confined calls that each incarnation is under, by its number.
    pub families: &'a Lists<Begun>,
    /// The confined call that makes the hops.
    pub begun: Begun,
    /// The places at which the runs of each list end, by the name of its object.
    pub runs: &'a [Items<usize>],
    /// The blocks of the runs of each list, by the name of its object.
    pub blocks: &'a [Items<Block>],
    /// The runs that hold each object, by its name.
    pub holders: &'a [Items<Stretch>],
    /// The last moments at which a call can begin that comes to each object, by its name, counted back.
    pub lasts: &'a [Option<u32>],
    /// The blocks of the runs that hold each object, by its name.
    pub held_blocks: &'a [Items<HeldBlock>],
    ghost cut: { AreRuns histories.now runs.now } by { AreRuns-prop histories.now runs.now },
    ghost blocked: { AreBlocked histories.now runs.now blocks.now } by { AreBlocked-prop histories.now runs.now blocks.now },
    ghost held: { AreHolders histories.now runs.now holders.now },
    ghost held_blocked: { AreHeldBlocked (moment_at lasts.now) holders.now held_blocks.now } by { AreHeldBlocked-prop (moment_at lasts.now) holders.now held_blocks.now },
    ghost ordered: { AreOrdered histories.now } by { AreOrdered-prop histories.now },
    ghost closed: { IsClosed Last histories.now (moment_at lasts.now) } by { IsClosed-prop Last histories.now (moment_at lasts.now) },
}

/// Whether two calls are the same.
pub(crate) fn same_begun(a: Begun, b: Begun) -> bool
    ensures { result ≡ same_begun a b }
{
    a.call.0 == b.call.0 && a.moment == b.moment
}

/// Whether a call is one of these.
fn has_begun(begun: Begun, calls: &[Begun]) -> bool
    ensures { result ≡ has_begun begun calls.now }
{
    for call in calls {
        if same_begun(begun, *call) {
            return true;
        }
    }
    false
}

/// The later of two moments.
pub(crate) fn later(a: u32, b: u32) -> u32
    ensures { result ≡ later a b }
{
    if a < b { b } else { a }
}

/// The lesser of two bounds.
fn lesser(a: u32, b: u32) -> u32
    ensures { result ≡ lesser a b }
{
    if a < b { a } else { b }
}

/// What a capability stands good for, at a moment.
pub(crate) fn arrived_by(moment: u32, cap: Cap) -> Arrived
    ensures { result ≡ arrived_by moment cap }
{
    Arrived {
        name: cap.name,
        modify: cap.rights.has(Right::MODIFY),
        unconf: cap.rights.has(Right::UNCONF),
        moment,
    }
}

/// An object that was made under the call stands good for both.
pub(crate) fn arrived_whole(moment: u32, cap: Cap) -> Arrived
    ensures { result ≡ arrived_whole moment cap }
{
    Arrived {
        name: cap.name,
        modify: true,
        unconf: true,
        moment,
    }
}

/// Whether the rest can be made from there.
fn is_good(to: &Arrived, latest: Latest) -> bool
    ensures { result ≡ is_good to.now latest }
{
    (to.modify && to.moment < latest.modify) || (to.unconf && to.moment < latest.unconf)
}

/// The hop by the entry, where it can be made and the rest after it.
pub(crate) fn entry_onward(from: &Arrived, span: &Span, latest: Latest) -> Option<Onward>
    ensures { result ≡ entry_onward from.now span.now latest }
{
    let moment = later(from.moment, span.from);
    let to = arrived_by(moment, span.cap);
    if from.unconf && moment < span.until && is_good(&to, latest) {
        let hop = Hop::Entry {
            index: span.index,
            moment,
        };
        Some(Onward { hop, to })
    } else {
        None
    }
}

/// The hop to what was made under the call, where it can be made and the rest after it.
pub(crate) fn handed_onward(
    from: &Arrived,
    span: &Span,
    latest: Latest,
    made: bool,
) -> Option<Onward>
    ensures { result ≡ handed_onward from.now span.now latest made }
{
    let moment = later(from.moment, span.from);
    let to = arrived_whole(moment, span.cap);
    if from.modify && made && moment < span.until && is_good(&to, latest) {
        let hop = Hop::Handed {
            index: span.index,
            moment,
        };
        Some(Onward { hop, to })
    } else {
        None
    }
}

/// The index of a hop.
pub(crate) fn index_of(hop: &Hop) -> u16
    ensures { result ≡ index_of hop.now }
{
    match hop {
        Hop::Entry { index, .. } => *index,
        Hop::Handed { index, .. } => *index,
    }
}

/// The moment of a hop.
pub(crate) fn moment_of(hop: &Hop) -> u32
    ensures { result ≡ moment_of hop.now }
{
    match hop {
        Hop::Entry { moment, .. } => *moment,
        Hop::Handed { moment, .. } => *moment,
    }
}

/// Whether a hop comes before another: by its moment, then its index, then an entry before what is handed.
#[tactic(auto, using(crate::proofs::HopLemmas::moment_first, crate::proofs::HopLemmas::index_first, crate::proofs::HopLemmas::handed_last))]
pub(crate) fn comes_before(a: &Hop, b: &Hop) -> bool
    ensures { result ≡ is_lt (slice_cmp nat_cmp (hop_key a.now) (hop_key b.now)) }
{
    if moment_of(a) != moment_of(b) {
        return moment_of(a) < moment_of(b);
    }
    if index_of(a) != index_of(b) {
        return index_of(a) < index_of(b);
    }
    match (a, b) {
        (Hop::Entry { .. }, Hop::Handed { .. }) => true,
        _ => false,
    }
}

/// The hop that comes first of those that there are.
pub(crate) fn earlier(a: Option<Onward>, b: Option<Onward>) -> Option<Onward>
    ensures { result ≡ earlier a b }
{
    match a {
        None => b,
        Some(first) => match b {
            None => a,
            Some(second) => {
                if comes_before(&second.hop, &first.hop) {
                    b
                } else {
                    a
                }
            }
        },
    }
}

/// From which moments a hop over a span can be made at its list, where the rest can be from below a bound.
fn from_on(span: &Span, bound: u32) -> u32
    ensures { result ≡ from_on span.now bound }
{
    let bound = lesser(span.until, bound);
    if span.from < bound { bound } else { 0 }
}

/// The greater of two bounds.
fn greater(a: u32, b: u32) -> u32
    ensures { result ≡ greater a b }
{
    if a < b { b } else { a }
}

/// Below which moment a hop by the entry has to be made, with a capability after which the rest can be made below these.
fn entry_most(cap: Cap, latest: Latest) -> u32
    ensures { result ≡ entry_most cap latest }
{
    let modify = if cap.rights.has(Right::MODIFY) {
        latest.modify
    } else {
        0
    };
    let unconf = if cap.rights.has(Right::UNCONF) {
        latest.unconf
    } else {
        0
    };
    greater(modify, unconf)
}

/// Below which moment one to what was made under the call has to be made.
fn handed_most(made: bool, latest: Latest) -> u32
    ensures { result ≡ handed_most made latest }
{
    if made {
        greater(latest.modify, latest.unconf)
    } else {
        0
    }
}

/// From which moments a hop over some span of a run can be made below a moment: over the last that has begun by then.
#[tactic(auto, using(crate::proofs::RunLemmas::on_nothing, crate::proofs::RunLemmas::none_begun))]
fn most_on(run: &[Span], bound: u32) -> u32
    requires { IsRun run.now }
    ensures { result ≡ most_on run.now bound }
{
    if bound == 0 {
        return 0;
    }
    if let Some(span) = run.last() {
        if span.from < bound {
            return from_on(span, bound);
        }
    }
    let begun = run.partition_point(|span| span.from < bound);
    if begun == 0 {
        return 0;
    }
    from_on(&run[begun - 1], bound)
}

/// The greater bounds of two.
fn joined(a: Latest, b: Latest) -> Latest
    ensures { result ≡ joined a b }
{
    Latest {
        modify: greater(a.modify, b.modify),
        unconf: greater(a.unconf, b.unconf),
    }
}

/// No rest can be made.
fn no_latest() -> Latest
    ensures { result ≡ no_latest }
{
    Latest {
        modify: 0,
        unconf: 0,
    }
}

/// Below which moments a hop over a run of a capability has to be made: to what was made under the call, and by the entry.
fn most_over(cap: Cap, latest: Latest, made: bool) -> Latest
    ensures { result ≡ record { modify = handed_most made latest; unconf = entry_most cap latest } }
{
    Latest {
        modify: handed_most(made, latest),
        unconf: entry_most(cap, latest),
    }
}

impl Bounds {
    /// No rest can be made.
    fn none(alloc: Global) -> Bounds
        ensures { bounds_at result ≡ (λ _. no_latest) }
    {
        Bounds {
            latest: BTreeMap::new(alloc),
        }
    }

    /// From which moments the rest can be made at an object.
    fn at(&self, name: Name) -> Latest
        ensures { result ≡ bounds_at self.now name }
    {
        match self.latest.get(&name) {
            Some(latest) => *latest,
            None => no_latest(),
        }
    }

    /// The rest can be made from these moments at an object, too.
    #[tactic(auto, using(crate::proofs::Raising::none_raised))]
    fn raise(&mut self, name: Name, latest: Latest) -> Result<(), NoMemory>
        ensures { OnOk result (bounds_at self.new ≡ raised_at (bounds_at self.old) name latest) }
    {
        if latest.modify == 0 && latest.unconf == 0 {
            return Ok(());
        }
        let all = joined(self.at(name), latest);
        self.latest.insert(name, all)?;
        Ok(())
    }

    /// The same, behind what is to be raised already: where it is at the same object, both are joined and raised
    /// later, else the earlier one is raised now.
    fn raise_later(
        &mut self,
        waiting: &mut Raise,
        name: Name,
        latest: Latest,
    ) -> Result<(), NoMemory>
        ensures { OnOk result (raised_at (bounds_at self.new) waiting.new.name waiting.new.latest ≡ raised_at (raised_at (bounds_at self.old) waiting.old.name waiting.old.latest) name latest) }
    {
        if waiting.name.0 == name.0 {
            waiting.latest = joined(waiting.latest, latest);
            return Ok(());
        }
        self.raise(waiting.name, waiting.latest)?;
        *waiting = Raise { name, latest };
        Ok(())
    }
}

/// The way has come, before this moment.
fn ends_before(before: u32) -> Latest
    ensures { result ≡ ends_before before }
{
    Latest {
        modify: before,
        unconf: 0,
    }
}

/// From which moments the rest can be made where the way has come to an object, before a moment.
fn latest_end(end: Name, before: u32, name: Name) -> Latest
    ensures { result ≡ latest_end end before name }
{
    if name.0 == end.0 {
        ends_before(before)
    } else {
        no_latest()
    }
}

/// Whether an object was made under a call.
pub(crate) fn is_made(
    families: &Lists<Begun>,
    begun: Begun,
    histories: &[History],
    name: Name,
) -> bool
    ensures { result ≡ is_made families.now begun histories.now name }
{
    match histories.get(name.0 as usize) {
        Some(history) => match history.maker {
            Some(inc) => has_begun(begun, calls_over(families, inc)),
            None => false,
        },
        None => false,
    }
}

impl<'a> Ground<'a> {
    /// Whether an object was made under the call.
    pub(crate) fn is_made(&self, name: Name) -> bool
        ensures { result ≡ is_made self.now.families.now self.now.begun self.now.histories.now name }
    {
        is_made(self.families, self.begun, self.histories, name)
    }

    /// From which moments the rest can be made at an object.
    pub(crate) fn latest_at(&self, level: &Level, name: Name) -> Latest
        ensures { result ≡ latest_at (is_made self.now.families.now self.now.begun self.now.histories.now) self.now.histories.now level.now name }
    {
        match level {
            Level::End { name: end, before } => latest_end(*end, *before, name),
            Level::Near { name: end, before } => self.latest_near(*end, *before, name),
            Level::Behind(bounds) => bounds.at(name),
        }
    }

    /// From which moments one hop to an object, before a moment, can be made at another.
    fn latest_near(&self, end: Name, before: u32, name: Name) -> Latest
        ensures { result ≡ next_latest (is_made self.now.families.now self.now.begun self.now.histories.now) self.now.histories.now (latest_end end before) name }
    {
        let made = self.is_made(end);
        let latest = ends_before(before);
        let mut all = no_latest();
        for held in self.held_in(end, name) {
            all = self.joined_over(all, held, latest, made);
        }
        all
    }

    /// The greater of these bounds and those that what is kept for an object gives over a run.
    fn joined_over(&self, all: Latest, held: &Stretch, latest: Latest, made: bool) -> Latest
        requires { (name : Name) × HoldsAlone self.now.histories.now name held.now }
        ensures { result ≡ joined all (latest_within (spans_in self.now.histories.now held.now) latest made) }
    {
        let most = most_over(held.cap, latest, made);
        if most.modify <= all.modify && most.unconf <= all.unconf {
            return all;
        }
        joined(all, self.latest_over(held, most))
    }

    /// The runs that hold an object.
    pub(crate) fn holders_of(&self, name: Name) -> &[Stretch]
        ensures { result.now ≡ held_at self.now.holders.now name }
    {
        match self.holders.get(name.0 as usize) {
            Some(held) => held.as_slice(),
            None => &[],
        }
    }

    /// Those of them in the list of an object. The runs of each list stand together, in the order of the names.
    pub(crate) fn held_in(&self, name: Name, by: Name) -> &[Stretch]
        ensures { result.now ≡ held_in self.now.holders.now name by }
    {
        let held = self.holders_of(name);
        let start = held.partition_point(|stretch| stretch.by.0 < by.0);
        let rest = &held[start..];
        let count = rest.partition_point(|stretch| stretch.by.0 <= by.0);
        &rest[..count]
    }

    /// The spans of a run.
    pub(crate) fn run_of(&self, held: &Stretch) -> &[Span]
        requires { (name : Name) × HoldsAlone self.now.histories.now name held.now }
        ensures { result.now ≡ spans_in self.now.histories.now held.now }
    {
        &spans_at(self.histories, held.by)[held.first..held.end]
    }

    /// From which moments a hop over a run can be made below these.
    fn latest_over(&self, held: &Stretch, most: Latest) -> Latest
        requires { (name : Name) × HoldsAlone self.now.histories.now name held.now }
        ensures { result ≡ record { modify = most_on (spans_in self.now.histories.now held.now) most.modify; unconf = most_on (spans_in self.now.histories.now held.now) most.unconf } }
    {
        if most.modify == 0 && most.unconf == 0 {
            return most;
        }
        let run = self.run_of(held);
        Latest {
            modify: most_on(run, most.modify),
            unconf: most_on(run, most.unconf),
        }
    }

    /// What is kept for an object gives over a run to that which held it, behind what is to be raised already. A run that
    /// cannot raise it further, or begins too late to raise it, is not looked at.
    fn raise_over(
        &self,
        next: &mut Bounds,
        waiting: &mut Raise,
        held: &Stretch,
        latest: Latest,
        made: bool,
    ) -> Result<(), NoMemory>
        requires { (name : Name) × HoldsAlone self.now.histories.now name held.now }
        ensures { OnOk result (raised_at (bounds_at next.new) waiting.new.name waiting.new.latest ≡ raised_at (raised_at (bounds_at next.old) waiting.old.name waiting.old.latest) held.now.by (latest_within (spans_in self.now.histories.now held.now) latest made)) }
    {
        let most = most_over(held.cap, latest, made);
        if begins_late(held, most) {
            return Ok(());
        }
        if waiting.covers(held.by, most) {
            return Ok(());
        }
        let over = self.latest_over(held, most);
        next.raise_later(waiting, held.by, over)?;
        Ok(())
    }

    /// Whether the call can come to an object.
    fn can_come(&self, name: Name) -> bool
        ensures { result ≡ can_come (moment_at self.now.lasts.now) self.now.begun.moment name }
    {
        is_by(moment_at(self.lasts, name), from_end(self.begun.moment))
    }

    /// What is kept for an object gives to those that held it and that the call can come to. The runs of one list stand
    /// together, so a list is looked up once.
    #[tactic(auto, using(crate::proofs::Raising::nothing_raised))]
    fn raise_holders(&self, next: &mut Bounds, name: Name, latest: Latest) -> Result<(), NoMemory>
        ensures { OnOk result (bounds_at next.new ≡ raised_over self.now.histories.now latest (is_made self.now.families.now self.now.begun self.now.histories.now name) (bounds_at next.old) (live_at (can_come (moment_at self.now.lasts.now) self.now.begun.moment) self.now.holders.now name)) }
    {
        let made = self.is_made(name);
        let mut waiting = Raise {
            name,
            latest: no_latest(),
        };
        let mut rest = self.holders_of(name);
        for block in held_blocks_at(self.held_blocks, name) {
            let (some, more) = rest.split_at(IN_BLOCK);
            if !self.raises_nothing(block, latest) {
                self.raise_each(next, &mut waiting, some, latest, made)?;
            }
            rest = more;
        }
        self.raise_each(next, &mut waiting, rest, latest, made)?;
        next.raise(waiting.name, waiting.latest)
    }

    /// Whether what is kept for an object gives nothing over a block of the runs that hold it: the call can come to none of
    /// those that held it, or all begin when a hop over them has to have been made.
    fn raises_nothing(&self, block: &HeldBlock, latest: Latest) -> bool
        ensures { result ≡ true → (held : List Stretch) → AllByRecursion (IsWithin (moment_at self.now.lasts.now) block.now) held → AllByRecursion (λ stretch. (name : Name) × HoldsAlone self.now.histories.now name stretch) held → (made : Bool) → (level : Name → Latest) → raised_over self.now.histories.now latest made level (filter (λ stretch. can_come (moment_at self.now.lasts.now) self.now.begun.moment stretch.by) held) ≡ level }
    {
        greater(latest.modify, latest.unconf) <= block.from
            || !is_by(block.last, from_end(self.begun.moment))
    }

    /// What is kept for an object gives over these runs to those that held it and that the call can come to, behind what is
    /// to be raised already.
    fn raise_each(
        &self,
        next: &mut Bounds,
        waiting: &mut Raise,
        runs: &[Stretch],
        latest: Latest,
        made: bool,
    ) -> Result<(), NoMemory>
        requires { AllByRecursion (λ stretch. (name : Name) × HoldsAlone self.now.histories.now name stretch) runs.now }
        ensures { OnOk result (raised_at (bounds_at next.new) waiting.new.name waiting.new.latest ≡ raised_over self.now.histories.now latest made (raised_at (bounds_at next.old) waiting.old.name waiting.old.latest) (filter (λ stretch. can_come (moment_at self.now.lasts.now) self.now.begun.moment stretch.by) runs.now)) }
    {
        for held in runs {
            if self.can_come(held.by) {
                self.raise_over(next, waiting, held, latest, made)?;
            }
        }
        Ok(())
    }

    /// The bounds of one hop more than these, at each object that the call can come to.
    fn bounds_behind(&self, alloc: Global, bounds: &Bounds) -> Result<Bounds, NoMemory>
        ensures { IfOk result (λ next. (name : Name) → can_come (moment_at self.now.lasts.now) self.now.begun.moment name ≡ true → bounds_at next name ≡ next_latest (is_made self.now.families.now self.now.begun self.now.histories.now) self.now.histories.now (bounds_at bounds.now) name) }
    {
        let mut next = Bounds::none(alloc);
        for (name, latest) in bounds.latest.iter() {
            self.raise_holders(&mut next, *name, *latest)?;
        }
        Ok(next)
    }

    /// The bounds of one hop to an object, before a moment, at each object that the call can come to.
    fn bounds_before(&self, alloc: Global, name: Name, before: u32) -> Result<Bounds, NoMemory>
        ensures { IfOk result (λ next. (x : Name) → can_come (moment_at self.now.lasts.now) self.now.begun.moment x ≡ true → bounds_at next x ≡ next_latest (is_made self.now.families.now self.now.begun self.now.histories.now) self.now.histories.now (latest_end name before) x) }
    {
        let mut next = Bounds::none(alloc);
        self.raise_holders(&mut next, name, ends_before(before))?;
        Ok(next)
    }

    /// The bounds of two hops to an object, before a moment, from when the call can come to each.
    fn bounds_of_two(&self, alloc: Global, name: Name, before: u32) -> Result<Bounds, NoMemory>
        ensures { IfOk result (λ next. Agree (comes_at (moment_at self.now.lasts.now) self.now.begun.moment) (bounds_at next) (next_latest (is_made self.now.families.now self.now.begun self.now.histories.now) self.now.histories.now (next_latest (is_made self.now.families.now self.now.begun self.now.histories.now) self.now.histories.now (latest_end name before)))) }
    {
        let near = self.bounds_before(alloc, name, before)?;
        self.bounds_behind(alloc, &near)
    }

    /// The level of one hop more, from when the call can come to each object. NoMemory is want of memory.
    pub(crate) fn next_level(&self, alloc: Global, level: &Level) -> Result<Level, NoMemory>
        ensures { IfOk result (λ next. Agree (comes_at (moment_at self.now.lasts.now) self.now.begun.moment) (latest_at (is_made self.now.families.now self.now.begun self.now.histories.now) self.now.histories.now next) (next_latest (is_made self.now.families.now self.now.begun self.now.histories.now) self.now.histories.now (latest_at (is_made self.now.families.now self.now.begun self.now.histories.now) self.now.histories.now level.now))) }
    {
        match level {
            Level::End { name, before } => {
                let (name, before) = (*name, *before);
                Ok(Level::Near { name, before })
            }
            Level::Near { name, before } => {
                Ok(Level::Behind(self.bounds_of_two(alloc, *name, *before)?))
            }
            Level::Behind(bounds) => Ok(Level::Behind(self.bounds_behind(alloc, bounds)?)),
        }
    }
}
