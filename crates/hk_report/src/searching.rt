//! The search for the least reach (`docs/RULES.md`, "Changes and their reasons").

ghost use Rattle.std.specs.Prelude.{map, ◌≡◌, ◌∷◌, ◌++◌, ◌≤◌, ◌<◌, [], length, IfOk, OnOk, Some};
ghost use Rattle.hk_report.specs.Hops.{is_made, latest_at};
ghost use Rattle.hk_report.specs.Reachable.{moment_at, from_end, comes_at, IsBy, AreHeldBy, AgreeEach};
ghost use Rattle.hk_report.specs.Searches.{is_direct, direct_param, onward_at, first_start, level_at, levels_below, hops_down, IsFoundBehind, IsFound};

use crate::hops::{Arrived, Ground, Level, Onward, arrived_by};
use crate::params::GivenParam;
use hk_model::{Cap, Hop, Items, Name, NoMemory, Reach};
use hk_rights::Right;
use std::alloc::Global;

/// A parameter, and the first hop from its object.
#[derive(Clone, Copy)]
pub struct Start {
    pub arg: u8,
    pub onward: Onward,
}

/// What is sought: the least reach of an object by a moment, from parameters.
#[derive(Clone, Copy)]
pub(crate) struct Search<'a> {
    pub ground: Ground<'a>,
    /// The merged parameters of the call.
    pub params: &'a [GivenParam],
    pub wanted: Name,
    /// A way has to come there before this moment.
    pub before: u32,
}

/// Whether a parameter is a capability for this object with MODIFY.
fn is_direct(param: &GivenParam, wanted: Name) -> bool
    ensures { result ≡ is_direct wanted param.now }
{
    match param.cap() {
        Some(cap) => cap.name.0 == wanted.0 && cap.rights.has(Right::MODIFY),
        None => false,
    }
}

/// The first parameter of this object with MODIFY.
pub(crate) fn direct_param(params: &[GivenParam], wanted: Name) -> Option<u8>
    requires { length params.now ≤ 8 }
    ensures { result ≡ direct_param wanted 0 params.now }
{
    for (index, param) in params.iter().enumerate() {
        if is_direct(param, wanted) {
            return Some(index as u8);
        }
    }
    None
}

impl<'a> Search<'a> {
    /// The first hop from the object of a parameter after which the rest can be made.
    fn onward_at(&self, level: &Level, param: &GivenParam) -> Option<Onward>
        ensures { result ≡ onward_at (is_made self.now.ground.families.now self.now.ground.begun self.now.ground.histories.now) self.now.ground.histories.now self.now.ground.begun.moment (latest_at (is_made self.now.ground.families.now self.now.ground.begun self.now.ground.histories.now) self.now.ground.histories.now level.now) param.now }
    {
        match param.cap() {
            Some(cap) => {
                let from = arrived_by(self.ground.begun.moment, cap);
                self.ground.first_onward(level, &from)
            }
            None => None,
        }
    }

    /// The first parameter from whose object the rest can be made after a hop.
    fn first_start(&self, level: &Level) -> Option<Start>
        requires { length self.now.params.now ≤ 8 }
        ensures { result ≡ first_start (is_made self.now.ground.families.now self.now.ground.begun self.now.ground.histories.now) self.now.ground.histories.now self.now.ground.begun.moment (latest_at (is_made self.now.ground.families.now self.now.ground.begun self.now.ground.histories.now) self.now.ground.histories.now level.now) 0 self.now.params.now }
    {
        for (index, param) in self.params.iter().enumerate() {
            if let Some(onward) = self.onward_at(level, param) {
                let arg = index as u8;
                return Some(Start { arg, onward });
            }
        }
        None
    }

    /// The hops that are left, behind those that are there, with these levels.
    fn go_down(
        &self,
        hops: &mut Items<Hop>,
        levels: &[Level],
        from: Arrived,
    ) -> Result<(), NoMemory>
        requires levels { AgreeEach (comes_at (moment_at self.now.ground.lasts.now) self.now.ground.begun.moment) (map (latest_at (is_made self.now.ground.families.now self.now.ground.begun self.now.ground.histories.now) self.now.ground.histories.now) levels.now) (levels_below (is_made self.now.ground.families.now self.now.ground.begun self.now.ground.histories.now) self.now.ground.histories.now self.now.wanted self.now.before (length levels.now)) }
        requires there { IsBy (comes_at (moment_at self.now.ground.lasts.now) self.now.ground.begun.moment from.name) from.moment }
        ensures { OnOk result (hops.new ≡ hops.old ++ hops_down (is_made self.now.ground.families.now self.now.ground.begun self.now.ground.histories.now) self.now.ground.histories.now self.now.wanted self.now.before (length levels.now) from) }
    {
        let mut left = levels.len();
        let mut at = from;
        while left > 0 {
            left -= 1;
            match self.ground.first_onward(&levels[left], &at) {
                Some(onward) => {
                    hops.push(onward.hop)?;
                    at = onward.to;
                }
                None => return Ok(()),
            }
        }
        Ok(())
    }

    /// The least reach of at least one hop: with fewer hops first. Where a reach is there, the levels
    /// end at the number of its hops.
    fn least_behind(&self, alloc: Global) -> Result<Reach, NoMemory>
        requires few { length self.now.params.now ≤ 8 }
        requires held { AreHeldBy (moment_at self.now.ground.lasts.now) (from_end self.now.ground.begun.moment) self.now.params.now }
        ensures { IfOk result (λ reach. IsFoundBehind (is_made self.now.ground.families.now self.now.ground.begun self.now.ground.histories.now) self.now.ground.histories.now self.now.wanted self.now.before self.now.ground.begun.moment self.now.params.now reach) }
    {
        let mut levels = Vec::new(alloc);
        let mut level = Level::End {
            name: self.wanted,
            before: self.before,
        };
        for _ in 0..u64::MAX {
            if let Some(start) = self.first_start(&level) {
                let mut hops = Items::new(alloc);
                hops.push(start.onward.hop)?;
                self.go_down(&mut hops, levels.as_slice(), start.onward.to)?;
                let arg = start.arg;
                return Ok(Reach::Param { arg, hops });
            }
            let next = self.ground.next_level(alloc, &level)?;
            levels.push(level)?;
            level = next;
        }
        Err(NoMemory)
    }

    /// The least reach of the object (`docs/RULES.md`, "Changes and their reasons"): with the fewest
    /// hops, then from the least parameter, then hop by hop the first. NoMemory is want of memory.
    pub(crate) fn least(&self, alloc: Global) -> Result<Reach, NoMemory>
        requires few { length self.now.params.now ≤ 8 }
        requires held { AreHeldBy (moment_at self.now.ground.lasts.now) (from_end self.now.ground.begun.moment) self.now.params.now }
        ensures { IfOk result (λ reach. IsFound (is_made self.now.ground.families.now self.now.ground.begun self.now.ground.histories.now) self.now.ground.histories.now self.now.wanted self.now.before self.now.ground.begun.moment self.now.params.now reach) }
    {
        match direct_param(self.params, self.wanted) {
            Some(arg) => Ok(Reach::Param {
                arg,
                hops: Items::new(alloc),
            }),
            None => self.least_behind(alloc),
        }
    }
}
