//! The ways of a call, from its parameters on, in the order of reasons (`docs/RULES.md`, "Changes and their reasons").
//!
//! Ways of as many hops are found together, one behind the other in their order, and a way is kept where, for some kind of hop,
//! none before it has come to its object by then. Whether one is missed is tested afterwards (`are_fronts`); of how they are
//! found it need only be known that each is a way.

ghost use Rattle.std.specs.Prelude.{◌≡◌, ◌≤◌, length, replicate, [], IfOk, IfSome, OnOk};
ghost use Rattle.hk_report.specs.Hops.{is_made};
ghost use Rattle.hk_report.specs.Histories.{history_of};
ghost use Rattle.std.specs.List.{Contains};
ghost use Rattle.hk_report.specs.Fronts.{ways_at, IsOneMore, IsWay, AreSound, AreFronts};

use crate::fronts::{Fronts, are_fronts, ways_at};
use crate::histories::Span;
use crate::hops::{Arrived, Ground, arrived_by, later};
use crate::lists::add_one;
use crate::params::GivenParam;
use crate::runs::spans_at;
use crate::ways::{Way, first_there, hop_over, stands_for};
use hk_model::{Items, Name, NoMemory};
use std::alloc::Global;
use std::mem;

/// A way that is kept: by the name of its object, and how many of that object stand before it.
#[derive(Clone, Copy)]
pub struct Kept {
    /// The name of its object.
    pub name: Name,
    /// How many ways of that object stand before it.
    pub number: usize,
}

/// A hop that is to be made over a span, by the place of the span. The derived order is that of hops: by moment, then by index,
/// then an entry before what is handed.
#[derive(Clone, Copy, PartialEq, Eq, PartialOrd, Ord)]
pub struct Next {
    /// When it is made.
    pub moment: u32,
    /// The index of the span.
    pub index: u16,
    /// Whether it hands on what was made under the call.
    pub handed: bool,
    /// The place of the span in the list.
    pub span: usize,
}

/// So many ways are kept of one object at most, since all are looked at to find the first that is there.
const MOST_OF_ONE: usize = 256;

/// The ways that are kept so far.
#[derive(Drop)]
pub struct Spreading {
    /// Those of each object, by its name.
    pub ways: Vec<Items<Way>>,
    /// Those behind which no hop is made yet.
    pub fresh: Vec<Kept>,
    /// How much more may be looked at; 0 where it was not enough.
    pub left: usize,
}

/// No way is kept of the objects of so many lists.
fn none_kept(alloc: Global, count: usize) -> Result<Vec<Items<Way>>, NoMemory>
    ensures { IfOk result (λ ways. ways.items ≡ replicate count []) }
{
    let mut ways = Vec::with_capacity(alloc, count)?;
    for _ in 0..count {
        ways.push(Items::new(alloc))?;
    }
    Ok(ways)
}

/// A copy of a way that is kept. NoMemory is want of memory.
fn copied(alloc: Global, all: &[Items<Way>], kept: Kept) -> Result<Option<Way>, NoMemory>
    ensures { IfOk result (λ o. IfSome o (λ way. Contains (ways_at all.now kept.name) way)) }
{
    match ways_at(all, kept.name).get(kept.number) {
        Some(way) => Ok(Some(Way {
            arg: way.arg,
            hops: way.hops.copy(alloc)?,
            to: way.to,
        })),
        None => Ok(None),
    }
}

/// Whether a way before this one can make the hop, at the same moment.
fn is_forestalled(all: &[Items<Way>], kept: Kept, handed: bool, moment: u32) -> bool {
    let ways = ways_at(all, kept.name);
    let before = kept.number.min(ways.len());
    first_there(&ways[..before], handed, moment).is_some()
}

impl Spreading {
    /// No way is kept of the objects of so many lists, and so much may be looked at. NoMemory is want of memory.
    fn none(alloc: Global, count: usize, left: usize) -> Result<Spreading, NoMemory>
        ensures { IfOk result (λ s. s.ways.items ≡ replicate count []) }
    {
        Ok(Spreading {
            ways: none_kept(alloc, count)?,
            fresh: Vec::new(alloc),
            left,
        })
    }

    /// So much is looked at. False where nothing is left then.
    fn spend(&mut self, steps: usize) -> bool
        ensures { self.new.ways ≡ self.old.ways }
    {
        self.left = self.left.saturating_sub(steps);
        self.left > 0
    }

    /// Whether no way that is kept has come to an object by then, for hops of a kind that go on from there. To look takes as much
    /// as there are ways, and the way itself so many hops; false where not so much is left.
    fn is_new(&mut self, to: &Arrived, hops: usize) -> bool
        ensures { self.new.ways ≡ self.old.ways }
    {
        let count = ways_at(self.ways.as_slice(), to.name).len();
        if !self.spend(count.saturating_add(hops)) {
            return false;
        }
        let ways = ways_at(self.ways.as_slice(), to.name);
        [false, true].iter().any(|handed| {
            stands_for(*handed, to) && first_there(ways, *handed, to.moment).is_none()
        })
    }

    /// A way is kept, where enough is left to look at, and its object is one of those of the lists. Where more would be kept of
    /// the object than may be, nothing is left. NoMemory is want of memory.
    fn keep(&mut self, alloc: Global, way: Way) -> Result<(), NoMemory>
        ensures { OnOk result (IsOneMore way self.old.ways.items self.new.ways.items) }
    {
        if !self.spend(way.hops.len() + 4) {
            return Ok(());
        }
        let name = way.to.name;
        if let Some(ways) = self.ways.get_mut(name.0 as usize) {
            let number = ways.len();
            if number >= MOST_OF_ONE {
                self.left = 0;
                return Ok(());
            }
            add_one(alloc, ways, way)?;
            self.fresh.push(Kept { name, number })?;
        }
        Ok(())
    }

    /// The way of no hop from a parameter is kept, if it holds a capability.
    fn begin_by(
        &mut self,
        alloc: Global,
        ground: &Ground,
        params: &[GivenParam],
        arg: usize,
    ) -> Result<(), NoMemory>
        requires few { length params.now ≤ 8 }
        requires sound { AreSound (is_made ground.now.families.now ground.now.begun ground.now.histories.now) ground.now.histories.now ground.now.begun.moment params.now self.old.ways.items }
        ensures { OnOk result (AreSound (is_made ground.now.families.now ground.now.begun ground.now.histories.now) ground.now.histories.now ground.now.begun.moment params.now self.new.ways.items) }
    {
        let Some(param) = params.get(arg) else {
            return Ok(());
        };
        let Some(cap) = param.cap() else {
            return Ok(());
        };
        let to = arrived_by(ground.begun.moment, cap);
        if !self.is_new(&to, 0) {
            return Ok(());
        }
        let hops = Items::new(alloc);
        let arg = arg as u8;
        self.keep(alloc, Way { arg, hops, to })?;
        Ok(())
    }

    /// The ways of no hop from all parameters are kept.
    fn begin(
        &mut self,
        alloc: Global,
        ground: &Ground,
        params: &[GivenParam],
    ) -> Result<(), NoMemory>
        requires few { length params.now ≤ 8 }
        requires sound { AreSound (is_made ground.now.families.now ground.now.begun ground.now.histories.now) ground.now.histories.now ground.now.begun.moment params.now self.old.ways.items }
        ensures { OnOk result (AreSound (is_made ground.now.families.now ground.now.begun ground.now.histories.now) ground.now.histories.now ground.now.begun.moment params.now self.new.ways.items) }
    {
        for arg in 0..params.len() {
            self.begin_by(alloc, ground, params, arg)?;
        }
        Ok(())
    }

    /// The hop of a kind over a span to be made behind a way that is kept, if there is one that no way before it can make.
    fn next_hop(
        &self,
        ground: &Ground,
        kept: Kept,
        to: &Arrived,
        stood: &Span,
        handed: bool,
    ) -> Option<(u32, u16)> {
        let moment = later(to.moment, stood.from);
        let can_be = stands_for(handed, to)
            && moment < stood.until
            && (!handed || ground.is_made(stood.cap.name))
            && !is_forestalled(self.ways.as_slice(), kept, handed, moment);
        if can_be {
            Some((moment, stood.index))
        } else {
            None
        }
    }

    /// The hops to be made behind a way that is kept, in their order.
    fn next_hops(
        &self,
        alloc: Global,
        ground: &Ground,
        kept: Kept,
        to: &Arrived,
    ) -> Result<Vec<Next>, NoMemory> {
        let mut next = Vec::new(alloc);
        for (span, stood) in spans_at(ground.histories, to.name).iter().enumerate() {
            for handed in [false, true] {
                if let Some((moment, index)) = self.next_hop(ground, kept, to, stood, handed) {
                    next.push(Next {
                        moment,
                        index,
                        handed,
                        span,
                    })?;
                }
            }
        }
        next.sort_unstable();
        Ok(next)
    }

    /// A way with a hop of a kind over a span more is kept, where it can be made and the way is new.
    fn go_over(
        &mut self,
        alloc: Global,
        ground: &Ground,
        params: &[GivenParam],
        way: &Way,
        span: &Span,
        handed: bool,
    ) -> Result<(), NoMemory>
        requires way { IsWay (is_made ground.now.families.now ground.now.begun ground.now.histories.now) ground.now.histories.now ground.now.begun.moment params.now way.now.to.name way.now }
        requires span { Contains (history_of ground.now.histories.now way.now.to.name).spans span.now }
        requires sound { AreSound (is_made ground.now.families.now ground.now.begun ground.now.histories.now) ground.now.histories.now ground.now.begun.moment params.now self.old.ways.items }
        ensures { OnOk result (AreSound (is_made ground.now.families.now ground.now.begun ground.now.histories.now) ground.now.histories.now ground.now.begun.moment params.now self.new.ways.items) }
    {
        let made = ground.is_made(span.cap.name);
        let Some(onward) = hop_over(handed, made, &way.to, span) else {
            return Ok(());
        };
        if !self.is_new(&onward.to, way.hops.len()) {
            return Ok(());
        }
        self.keep(alloc, way.longer(alloc, onward)?)?;
        Ok(())
    }

    /// The same for each of these hops.
    fn go_over_all(
        &mut self,
        alloc: Global,
        ground: &Ground,
        params: &[GivenParam],
        way: &Way,
        next: &[Next],
    ) -> Result<(), NoMemory>
        requires way { IsWay (is_made ground.now.families.now ground.now.begun ground.now.histories.now) ground.now.histories.now ground.now.begun.moment params.now way.now.to.name way.now }
        requires sound { AreSound (is_made ground.now.families.now ground.now.begun ground.now.histories.now) ground.now.histories.now ground.now.begun.moment params.now self.old.ways.items }
        ensures { OnOk result (AreSound (is_made ground.now.families.now ground.now.begun ground.now.histories.now) ground.now.histories.now ground.now.begun.moment params.now self.new.ways.items) }
    {
        let spans = spans_at(ground.histories, way.to.name);
        for hop in next {
            if let Some(span) = spans.get(hop.span) {
                self.go_over(alloc, ground, params, way, span, hop.handed)?;
            }
        }
        Ok(())
    }

    /// A way that is kept, with each hop more. NoMemory is want of memory.
    fn go_on(
        &mut self,
        alloc: Global,
        ground: &Ground,
        params: &[GivenParam],
        kept: Kept,
    ) -> Result<(), NoMemory>
        requires sound { AreSound (is_made ground.now.families.now ground.now.begun ground.now.histories.now) ground.now.histories.now ground.now.begun.moment params.now self.old.ways.items }
        ensures { OnOk result (AreSound (is_made ground.now.families.now ground.now.begun ground.now.histories.now) ground.now.histories.now ground.now.begun.moment params.now self.new.ways.items) }
    {
        let spans = spans_at(ground.histories, kept.name);
        if !self.spend(spans.len().saturating_mul(kept.number.saturating_add(1))) {
            return Ok(());
        }
        let Some(way) = copied(alloc, self.ways.as_slice(), kept)? else {
            return Ok(());
        };
        let next = self.next_hops(alloc, ground, kept, &way.to)?;
        self.go_over_all(alloc, ground, params, &way, next.as_slice())
    }

    /// The ways of one hop more than those behind which no hop is made yet.
    fn go_on_all(
        &mut self,
        alloc: Global,
        ground: &Ground,
        params: &[GivenParam],
    ) -> Result<(), NoMemory>
        requires sound { AreSound (is_made ground.now.families.now ground.now.begun ground.now.histories.now) ground.now.histories.now ground.now.begun.moment params.now self.old.ways.items }
        ensures { OnOk result (AreSound (is_made ground.now.families.now ground.now.begun ground.now.histories.now) ground.now.histories.now ground.now.begun.moment params.now self.new.ways.items) }
    {
        let fresh = mem::replace(&mut self.fresh, Vec::new(alloc));
        for kept in fresh.as_slice() {
            self.go_on(alloc, ground, params, *kept)?;
        }
        Ok(())
    }

    /// All ways that are new are kept, as long as something is left to look at.
    fn spread(
        &mut self,
        alloc: Global,
        ground: &Ground,
        params: &[GivenParam],
    ) -> Result<(), NoMemory>
        requires sound { AreSound (is_made ground.now.families.now ground.now.begun ground.now.histories.now) ground.now.histories.now ground.now.begun.moment params.now self.old.ways.items }
        ensures { OnOk result (AreSound (is_made ground.now.families.now ground.now.begun ground.now.histories.now) ground.now.histories.now ground.now.begun.moment params.now self.new.ways.items) }
    {
        for _ in 0..u64::MAX {
            if self.fresh.is_empty() {
                return Ok(());
            }
            self.go_on_all(alloc, ground, params)?;
        }
        Ok(())
    }
}

/// The ways of a call that matter to its reasons, where looking at so much is enough to find them. NoMemory is want of memory.
pub(crate) fn found_fronts(
    alloc: Global,
    ground: &Ground,
    params: &[GivenParam],
    steps: usize,
) -> Result<Option<Fronts>, NoMemory>
    requires few { length params.now ≤ 8 }
    ensures begun { IfOk result (λ o. IfSome o (λ fronts. fronts.begun ≡ ground.now.begun)) }
    ensures all { IfOk result (λ o. IfSome o (λ fronts. AreFronts (is_made ground.now.families.now ground.now.begun ground.now.histories.now) ground.now.histories.now ground.now.begun.moment params.now fronts.ways.items)) }
{
    let count = ground.histories.len();
    if count > steps / 2 {
        return Ok(None);
    }
    let mut spreading = Spreading::none(alloc, count, steps - count)?;
    spreading.begin(alloc, ground, params)?;
    spreading.spread(alloc, ground, params)?;
    if spreading.left == 0 || !are_fronts(spreading.ways.as_slice(), ground, params) {
        return Ok(None);
    }
    Ok(Some(Fronts {
        begun: ground.begun,
        ways: spreading.ways,
        weight: steps.saturating_sub(spreading.left),
    }))
}
