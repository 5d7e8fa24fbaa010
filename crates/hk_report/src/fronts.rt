//! The ways that are kept for the objects to which they lead, and whether they are all that matter (`docs/RULES.md`,
//! "Changes and their reasons").

ghost use Rattle.std.specs.Prelude.{◌≡◌, ◌≤◌, length, true};
ghost use Rattle.hk_model.specs.declared.names.Name.{Name};
ghost use Rattle.hk_report.specs.Hops.{is_made};
ghost use Rattle.hk_report.specs.Histories.{history_of};
ghost use Rattle.hk_report.specs.Fronts.{AreRising, ways_at, way_from, longer, stands_for, first_there, IsMetBy, IsMet, IsMetOnward, AreMetOver, AreMetOverAll, IsStarted, AreStarted, AreSound, AreFronts};

use crate::families::Begun;
use crate::histories::Span;
use crate::hops::{Ground, Onward, arrived_by};
use crate::params::GivenParam;
use crate::runs::spans_at;
use crate::ways::{Way, first_there, hop_over, stands_for};
use hk_model::{Cap, Items, Name};

/// The ways of a call that matter to its reasons.
#[derive(Drop)]
pub struct Fronts {
    /// The call.
    pub begun: Begun,
    /// Those that are kept of each object, by its name.
    pub ways: Vec<Items<Way>>,
    /// How much was looked at to find them.
    pub weight: usize,
}

/// The ways that are kept for an object, by its name.
pub(crate) fn ways_at(all: &[Items<Way>], name: Name) -> &[Way]
    ensures { result.now ≡ ways_at all.now name }
{
    match all.get(name.0 as usize) {
        Some(ways) => ways.as_slice(),
        None => &[],
    }
}

/// Whether a way is kept that has come by then to the object of a way with a hop more, for hops of a kind, and the latter does not
/// come before it; or the object does not stand good for these.
fn is_met(all: &[Items<Way>], way: &Way, onward: &Onward, handed: bool) -> bool
    ensures { result ≡ true → stands_for handed onward.now.to ≡ true → IsMetBy (longer way.now onward.now) (first_there handed onward.now.to.moment (ways_at all.now onward.now.to.name)) }
{
    if !stands_for(handed, &onward.to) {
        return true;
    }
    match first_there(ways_at(all, onward.to.name), handed, onward.to.moment) {
        Some(first) => first.is_at_most_longer(way.arg, way.hops.as_slice(), &onward.hop),
        None => false,
    }
}

/// The same for both kinds of hop, if there is one more.
fn is_met_onward(all: &[Items<Way>], way: &Way, onward: Option<Onward>) -> bool
    ensures { result ≡ true → IsMetOnward all.now way.now onward }
{
    match onward {
        Some(onward) => is_met(all, way, &onward, false) && is_met(all, way, &onward, true),
        None => true,
    }
}

/// The same of the hop of a kind over a span behind each of these ways, up to the first that is there when the span begins.
fn are_met_over(all: &[Items<Way>], handed: bool, made: bool, span: &Span, ways: &[Way]) -> bool
    ensures { result ≡ true → AreMetOver all.now handed made span.now ways.now }
{
    for way in ways {
        if !is_met_onward(all, way, hop_over(handed, made, &way.to, span)) {
            return false;
        }
        if way.is_there(handed, span.from) {
            return true;
        }
    }
    true
}

/// The same of each of these spans.
fn are_met_over_all(all: &[Items<Way>], ground: &Ground, ways: &[Way], spans: &[Span]) -> bool
    ensures { result ≡ true → AreMetOverAll all.now (is_made ground.now.families.now ground.now.begun ground.now.histories.now) ways.now spans.now }
{
    for span in spans {
        let made = ground.is_made(span.cap.name);
        if !are_met_over(all, false, made, span, ways)
            || !are_met_over(all, true, made, span, ways)
        {
            return false;
        }
    }
    true
}

/// The same of all lists.
fn are_closed(all: &[Items<Way>], ground: &Ground) -> bool
    ensures { result ≡ true → (name : Name) → AreMetOverAll all.now (is_made ground.now.families.now ground.now.begun ground.now.histories.now) (ways_at all.now name) (history_of ground.now.histories.now name).spans }
{
    for (index, ways) in all.iter().enumerate() {
        let spans = spans_at(ground.histories, Name(index as u64));
        if ways.len() > 0 && !are_met_over_all(all, ground, ways.as_slice(), spans) {
            return false;
        }
    }
    true
}

/// Whether each of some ways comes before the next, or is the same.
fn are_rising(ways: &[Way]) -> bool
    ensures { result ≡ true → AreRising ways.now }
{
    for place in 1..ways.len() {
        if !ways[place - 1].is_at_most(&ways[place]) {
            return false;
        }
    }
    true
}

/// The same of the ways of each object.
fn all_rise(all: &[Items<Way>]) -> bool
    ensures { result ≡ true → (name : Name) → AreRising (ways_at all.now name) }
{
    for ways in all {
        if !are_rising(ways.as_slice()) {
            return false;
        }
    }
    true
}

/// Whether a way is kept that is there at once, for hops of a kind, and the way of no hop to the object of a capability does not
/// come before it; or the object does not stand good for these.
fn is_started_for(all: &[Items<Way>], moment: u32, arg: u8, cap: &Cap, handed: bool) -> bool
    ensures { result ≡ true → stands_for handed (way_from moment arg cap.now).to ≡ true → IsMetBy (way_from moment arg cap.now) (first_there handed moment (ways_at all.now cap.now.name)) }
{
    let to = arrived_by(moment, *cap);
    if !stands_for(handed, &to) {
        return true;
    }
    match first_there(ways_at(all, to.name), handed, moment) {
        Some(first) => first.is_at_most_start(arg),
        None => false,
    }
}

/// The same for both kinds of hop, if the parameter holds a capability.
fn is_started(all: &[Items<Way>], moment: u32, arg: u8, param: &GivenParam) -> bool
    ensures { result ≡ true → IsStarted all.now moment arg param.now }
{
    match param.cap() {
        Some(cap) => {
            is_started_for(all, moment, arg, &cap, false)
                && is_started_for(all, moment, arg, &cap, true)
        }
        None => true,
    }
}

/// The same of all parameters.
fn are_started(all: &[Items<Way>], moment: u32, params: &[GivenParam]) -> bool
    requires { length params.now ≤ 8 }
    ensures { result ≡ true → AreStarted all.now moment 0 params.now }
{
    for (index, param) in params.iter().enumerate() {
        if !is_started(all, moment, index as u8, param) {
            return false;
        }
    }
    true
}

/// Whether no other way of a call comes before the one that is kept first, where those that are kept are ways.
pub(crate) fn are_fronts(all: &[Items<Way>], ground: &Ground, params: &[GivenParam]) -> bool
    requires few { length params.now ≤ 8 }
    requires sound { AreSound (is_made ground.now.families.now ground.now.begun ground.now.histories.now) ground.now.histories.now ground.now.begun.moment params.now all.now }
    ensures { result ≡ true → AreFronts (is_made ground.now.families.now ground.now.begun ground.now.histories.now) ground.now.histories.now ground.now.begun.moment params.now all.now }
{
    are_started(all, ground.begun.moment, params) && all_rise(all) && are_closed(all, ground)
}
