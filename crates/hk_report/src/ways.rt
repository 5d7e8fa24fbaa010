//! Ways from the parameters of a call, and their order (`docs/RULES.md`, "Changes and their reasons").

ghost use Rattle.std.specs.Prelude.{◌≡◌, ◌+◌, ◌++◌, ◌∷◌, [], true, IsTrue, length, IfOk, option_copied};
ghost use Rattle.std.specs.List.{flat_map};
ghost use Rattle.hk_model.specs.Changes.{hop_key, reach_key, is_at_most};
ghost use Rattle.hk_report.specs.Fronts.{stands_for, hop_over, way_key, comes_by, is_there, first_there, longer};

use crate::histories::Span;
use crate::hops::{Arrived, Onward, arrived_by, arrived_whole, comes_before, later};
use hk_model::{Hop, Items, NoMemory};
use std::alloc::Global;

/// A way from a parameter of a call.
#[derive(Drop)]
pub struct Way {
    /// The number of the parameter.
    pub arg: u8,
    /// Its hops, from the object of the parameter on.
    pub hops: Items<Hop>,
    /// Where it has come to.
    pub to: Arrived,
}

/// Whether an object stands good for hops of a kind: where `handed`, for those that hand on what was made under the call, else for
/// those by an entry.
pub(crate) fn stands_for(handed: bool, there: &Arrived) -> bool
    ensures { result ≡ stands_for handed there.now }
{
    if handed { there.modify } else { there.unconf }
}

/// The hop of a kind over a span at the first moment, if it can be made. `made` is whether the object to which it leads was made under
/// the call.
pub(crate) fn hop_over(handed: bool, made: bool, from: &Arrived, span: &Span) -> Option<Onward>
    ensures { result ≡ hop_over handed made from.now span.now }
{
    let moment = later(from.moment, span.from);
    if !stands_for(handed, from) || (handed && !made) || moment >= span.until {
        return None;
    }
    let index = span.index;
    Some(if handed {
        Onward {
            hop: Hop::Handed { index, moment },
            to: arrived_whole(moment, span.cap),
        }
    } else {
        Onward {
            hop: Hop::Entry { index, moment },
            to: arrived_by(moment, span.cap),
        }
    })
}

/// Whether hops come before those of another way with a last hop behind them, or are the same. They are as many.
fn are_at_most(hops: &[Hop], others: &[Hop], last: &Hop) -> bool
    requires { length hops.now ≡ length others.now + 1 }
    ensures { result ≡ true → is_at_most (flat_map hop_key hops.now) (flat_map hop_key (others.now ++ last.now ∷ [])) ≡ true }
{
    for (place, other) in others.iter().enumerate() {
        if comes_before(&hops[place], other) {
            return true;
        }
        if comes_before(other, &hops[place]) {
            return false;
        }
    }
    !comes_before(last, &hops[others.len()])
}

impl Way {
    /// Whether the way comes before the one from this parameter with these hops and one more, or is the same.
    pub(crate) fn is_at_most_longer(&self, arg: u8, hops: &[Hop], last: &Hop) -> bool
        ensures { result ≡ true → is_at_most (way_key self.now) (reach_key arg (hops.now ++ last.now ∷ [])) ≡ true }
    {
        let count = self.hops.len();
        if count <= hops.len() {
            return true;
        }
        if count - 1 > hops.len() {
            return false;
        }
        if self.arg != arg {
            return self.arg < arg;
        }
        are_at_most(self.hops.as_slice(), hops, last)
    }

    /// Whether the way comes before one of no hop from a parameter, or is the same.
    pub(crate) fn is_at_most_start(&self, arg: u8) -> bool
        ensures { result ≡ true → is_at_most (way_key self.now) (reach_key arg []) ≡ true }
    {
        self.hops.len() == 0 && self.arg <= arg
    }

    /// Whether the way comes before another one, or is the same.
    pub(crate) fn is_at_most(&self, other: &Way) -> bool
        ensures { result ≡ true → comes_by self.now other.now ≡ true }
    {
        match other.hops.as_slice().split_last() {
            Some((last, hops)) => self.is_at_most_longer(other.arg, hops, last),
            None => self.is_at_most_start(other.arg),
        }
    }

    /// Whether the way has come to its object by a moment, where that stands good for hops of a kind.
    pub(crate) fn is_there(&self, handed: bool, moment: u32) -> bool
        ensures { result ≡ is_there handed moment self.now }
    {
        stands_for(handed, &self.to) && self.to.moment <= moment
    }

    /// The way with one hop more. NoMemory is want of memory.
    pub(crate) fn longer(&self, alloc: Global, onward: Onward) -> Result<Way, NoMemory>
        ensures { IfOk result (λ way. way ≡ longer self.now onward) }
    {
        let mut hops = self.hops.copy(alloc)?;
        hops.push(onward.hop)?;
        Ok(Way {
            arg: self.arg,
            hops,
            to: onward.to,
        })
    }
}

/// The first of some ways that has come to the object by a moment, where that stands good for hops of a kind.
pub(crate) fn first_there(ways: &[Way], handed: bool, moment: u32) -> Option<&Way>
    ensures { option_copied result ≡ first_there handed moment ways.now }
{
    for way in ways {
        if way.is_there(handed, moment) {
            return Some(way);
        }
    }
    None
}
