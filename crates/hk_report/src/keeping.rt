//! The ways that are kept of calls that have many changes (`docs/RULES.md`, "Changes and their reasons").

ghost use Rattle.std.specs.Prelude.{◌≡◌, ◌≤◌, length, [], IfOk, IfSome, OnOk};
ghost use Rattle.hk_report.specs.Hops.{is_made};
ghost use Rattle.hk_report.specs.Fronts.{IsFirst};
ghost use Rattle.hk_report.specs.Keeping.{IsFirstOf, IsAdded, IsOneCallMore};

use crate::families::Begun;
use crate::fronts::{Fronts, ways_at};
use crate::hops::{Ground, same_begun};
use crate::params::GivenParam;
use crate::spreading::found_fronts;
use crate::ways::first_there;
use hk_model::{Items, Name, NoMemory, Reach};
use std::alloc::Global;

/// What is kept of calls while the reasons of changes are found.
#[derive(Drop)]
pub struct Keeping {
    /// How many reasons were sought for each call, by its incarnation.
    pub sought: Vec<u32>,
    /// The place of the ways of each call among those that are kept, by its incarnation. Those of another may stand there.
    pub places: Vec<u32>,
    /// The ways of calls for which many were.
    pub fronts: Vec<Fronts>,
    /// How much may have been looked at to find these.
    pub weight: usize,
}

/// So many reasons of a call are sought, one by one, before it can pay to find its ways.
const MANY: u32 = 64;

/// To find the ways of a call, so much may be looked at for each reason that was sought,
const EACH: usize = 1024;

/// and no more than this.
const MOST: usize = 1 << 24;

/// The ways of several calls are kept as long as no more than this was looked at to find them all.
const MOST_KEPT: usize = 1 << 23;

/// Whether the ways of a call are to be sought now, where so many of its reasons were: then, and each time when they are
/// twice as many, as long as none are kept.
fn is_due(sought: u32) -> bool {
    sought >= MANY && sought.is_power_of_two()
}

/// So many noughts. NoMemory is want of memory.
fn noughts(alloc: Global, count: usize) -> Result<Vec<u32>, NoMemory> {
    let mut numbers = Vec::with_capacity(alloc, count)?;
    for _ in 0..count {
        numbers.push(0)?;
    }
    Ok(numbers)
}

impl Fronts {
    /// The first way to an object with MODIFY that is there by a moment, if there is one. NoMemory is want of memory.
    fn reach(&self, alloc: Global, wanted: Name, moment: u32) -> Result<Option<Reach>, NoMemory>
        ensures { IfOk result (λ o. IfSome o (λ reach. IsFirst self.now.ways.items wanted moment reach)) }
    {
        match first_there(ways_at(self.ways.as_slice(), wanted), true, moment) {
            Some(way) => Ok(Some(Reach::Param {
                arg: way.arg,
                hops: way.hops.copy(alloc)?,
            })),
            None => Ok(None),
        }
    }
}

impl Keeping {
    /// Nothing is kept, of so many incarnations. NoMemory is want of memory.
    pub(crate) fn none(alloc: Global, count: usize) -> Result<Keeping, NoMemory>
        ensures { IfOk result (λ k. k.fronts.items ≡ []) }
    {
        Ok(Keeping {
            sought: noughts(alloc, count)?,
            places: noughts(alloc, count)?,
            fronts: Vec::new(alloc),
            weight: 0,
        })
    }

    /// Why a call can change an object at a moment, where its ways are kept. NoMemory is want of memory.
    pub(crate) fn reach(
        &self,
        alloc: Global,
        begun: Begun,
        wanted: Name,
        moment: u32,
    ) -> Result<Option<Reach>, NoMemory>
        ensures { IfOk result (λ o. IfSome o (λ reach. IsFirstOf self.now.fronts.items begun wanted moment reach)) }
    {
        let Some(place) = self.places.get(begun.call.0 as usize) else {
            return Ok(None);
        };
        let Some(fronts) = self.fronts.get(*place as usize) else {
            return Ok(None);
        };
        if same_begun(fronts.begun, begun) {
            let found = fronts.reach(alloc, wanted, moment)?;
            return Ok(found);
        }
        Ok(None)
    }

    /// One reason more is sought for a call; how many it are now.
    fn count(&mut self, begun: Begun) -> u32
        ensures { self.new.fronts ≡ self.old.fronts }
    {
        match self.sought.get_mut(begun.call.0 as usize) {
            Some(sought) => {
                *sought = sought.saturating_add(1);
                *sought
            }
            None => 0,
        }
    }

    /// The ways of a call are kept, and those of others let go where all would be too many.
    fn keep(&mut self, fronts: Fronts) -> Result<(), NoMemory>
        ensures { OnOk result (IsAdded fronts self.old.fronts.items self.new.fronts.items) }
    {
        let weight = fronts.weight;
        if weight > MOST_KEPT.saturating_sub(self.weight) {
            self.fronts.clear();
            self.weight = 0;
        }
        self.weight = self.weight.saturating_add(weight);
        if let Some(place) = self.places.get_mut(fronts.begun.call.0 as usize) {
            *place = u32::try_from(self.fronts.len()).unwrap_or(u32::MAX);
        }
        self.fronts.push(fronts)?;
        Ok(())
    }

    /// One reason more is to be sought for a call: its ways are found and kept, where it can pay. NoMemory is want of memory.
    pub(crate) fn seek(
        &mut self,
        alloc: Global,
        ground: &Ground,
        params: &[GivenParam],
    ) -> Result<(), NoMemory>
        requires few { length params.now ≤ 8 }
        ensures { OnOk result (IsOneCallMore (is_made ground.now.families.now ground.now.begun ground.now.histories.now) ground.now.histories.now ground.now.begun params.now self.old.fronts.items self.new.fronts.items) }
    {
        let sought = self.count(ground.begun);
        if !is_due(sought) {
            return Ok(());
        }
        let steps = (sought as usize).saturating_mul(EACH).min(MOST);
        if let Some(fronts) = found_fronts(alloc, ground, params, steps)? {
            self.keep(fronts)?;
        }
        Ok(())
    }
}
