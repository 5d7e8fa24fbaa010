//! When ways from parameters can be at objects (`docs/RULES.md`, "Reaches").
//!
//! No way goes over what stood in a list before one could be there, so no search has to.

ghost use Rattle.std.specs.Prelude.{◌≡◌, ℕ, ◌∷◌, [], Some, None, replicate, IfOk, OnOk};
ghost use Rattle.std.specs.List.{AllByRecursion};
ghost use Rattle.hk_model.specs.declared.names.Name.{Name};
ghost use Rattle.hk_report.specs.Histories.{history_of};
ghost use Rattle.hk_report.specs.Moments.{IsEarlier, IsUnderway, told_by};
ghost use Rattle.hk_report.specs.Reachable.{moment_at, from_end, begins_at, goes_on, is_by, IsBy, AreGoneOver, AreHeldBy, IsClosed, AreReachable};
ghost use Rattle.hk_report.specs.declared.reachable.Side.TheVariants.{Last};
ghost use Rattle.hk_report.specs.Reasons.{params_at};

use crate::families::{Begun, KeptChange};
use crate::histories::{History, Span};
use crate::holders::Stretch;
use crate::hops::later;
use crate::lists::Lists;
use crate::params::{GivenParam, GivenParams};
use crate::runs::spans_at;
use hk_model::{Items, Name, NoMemory};
use std::alloc::Global;
use std::cmp::Reverse;
use std::collections::BinaryHeap;

/// What is told of each object.
#[derive(Clone, Copy)]
pub enum Side {
    /// The first moment at which a way can be at it.
    First,
    /// The last moment at which a call can begin that comes to it, counted back from the last that there can be.
    Last,
}

/// An object whose list is to be gone over, and what was told of it.
#[derive(Clone, Copy, PartialEq, Eq, PartialOrd, Ord)]
pub struct Due {
    pub moment: u32,
    pub name: Name,
}

/// What is told of objects, as far as it is found.
#[derive(Drop)]
pub struct Moments {
    /// What is told of each object that ways can come to, by its name.
    pub told: Vec<Option<u32>>,
    /// The objects whose lists are to be gone over: what is told of the first is the least.
    pub due: BinaryHeap<Reverse<Due>>,
}

/// A moment, counted back from the last that there can be.
pub(crate) fn from_end(moment: u32) -> u32
    ensures { result ≡ from_end moment }
{
    u32::MAX - moment
}

impl Side {
    /// What is told at the latest of the object of a parameter of a call that begins at a moment.
    fn begins_at(self, moment: u32) -> u32
        ensures { result ≡ begins_at self moment }
    {
        match self {
            Side::First => moment,
            Side::Last => from_end(moment),
        }
    }

    /// What is told at the latest of the object of a span, where this is told of its list.
    fn goes_on(self, moment: u32, span: &Span) -> Option<u32>
        ensures { result ≡ goes_on self (Some moment) span.now }
    {
        match self {
            Side::First if moment < span.until => Some(later(moment, span.from)),
            Side::First => None,
            Side::Last => Some(later(moment, from_end(span.until))),
        }
    }
}

/// What is told of an object, if ways can come to it. Of what has no place 0 is told.
pub(crate) fn moment_at(told: &[Option<u32>], name: Name) -> Option<u32>
    ensures { result ≡ moment_at told.now name }
{
    match told.get(name.0 as usize) {
        Some(moment) => *moment,
        None => Some(0),
    }
}

/// Nothing is told of so many objects.
fn nothing_told(alloc: Global, count: usize) -> Result<Vec<Option<u32>>, NoMemory>
    ensures { IfOk result (λ told. told.items ≡ replicate count None) }
{
    let mut told = Vec::with_capacity(alloc, count)?;
    for _ in 0..count {
        told.push(None)?;
    }
    Ok(told)
}

/// Whether a moment is told, and not after this one.
pub(crate) fn is_by(told: Option<u32>, moment: u32) -> bool
    ensures { result ≡ is_by told moment }
{
    match told {
        Some(told) => told <= moment,
        None => false,
    }
}

impl Moments {
    /// Nothing is told of the objects of these lists.
    #[tactic(auto, using(crate::proofs::MomentLemmas::underway_none))]
    fn none(alloc: Global, side: Side, histories: &[History]) -> Result<Moments, NoMemory>
        ensures { IfOk result (λ moments. IsUnderway side histories.now moments) }
    {
        Ok(Moments {
            told: nothing_told(alloc, histories.len())?,
            due: BinaryHeap::new(alloc),
        })
    }

    /// Whether what is told of an object is not after a moment.
    fn is_by(&self, name: Name, moment: u32) -> bool
        ensures { result ≡ is_by (told_by self.now name) moment }
    {
        is_by(moment_at(self.told.as_slice(), name), moment)
    }

    /// This is told at the latest of an object.
    fn tell(&mut self, name: Name, moment: u32) -> Result<(), NoMemory>
        ensures earlier { OnOk result (IsEarlier self.old self.new) }
        ensures told { OnOk result (IsBy (told_by self.new name) moment) }
    {
        if self.is_by(name, moment) {
            return Ok(());
        }
        self.told[name.0 as usize] = Some(moment);
        self.due.push(Reverse(Due { moment, name }))?;
        Ok(())
    }

    /// What follows for the objects of these spans from what is told of their list.
    fn go_over(&mut self, side: Side, moment: u32, spans: &[Span]) -> Result<(), NoMemory>
        ensures earlier { OnOk result (IsEarlier self.old self.new) }
        ensures told { OnOk result (AreGoneOver side (told_by self.new) (Some moment) spans.now) }
    {
        for span in spans {
            if let Some(next) = side.goes_on(moment, span) {
                self.tell(span.cap.name, next)?;
            }
        }
        Ok(())
    }

    /// This is told at the latest of the object of a parameter, if it holds a capability.
    fn tell_param(&mut self, param: &GivenParam, moment: u32) -> Result<(), NoMemory>
        ensures earlier { OnOk result (IsEarlier self.old self.new) }
        ensures told { OnOk result (AreHeldBy (told_by self.new) moment (param.now ∷ [])) }
    {
        match param.cap() {
            Some(cap) => self.tell(cap.name, moment),
            None => Ok(()),
        }
    }

    /// It is told at the latest of the objects of these parameters.
    fn tell_params(&mut self, params: &[GivenParam], moment: u32) -> Result<(), NoMemory>
        ensures earlier { OnOk result (IsEarlier self.old self.new) }
        ensures told { OnOk result (AreHeldBy (told_by self.new) moment params.now) }
    {
        for param in params {
            self.tell_param(param, moment)?;
        }
        Ok(())
    }

    /// What is told of the objects of the parameters of the calls under which there were these changes.
    fn begin(
        &mut self,
        side: Side,
        families: &Lists<Begun>,
        params: &GivenParams,
        changes: &[KeptChange],
    ) -> Result<(), NoMemory>
        ensures earlier { OnOk result (IsEarlier self.old self.new) }
        ensures told { OnOk result (AllByRecursion (λ bare. AreHeldBy (told_by self.new) (begins_at side bare.under.moment) (params_at families.now params.now bare.under.call)) changes.now) }
    {
        for bare in changes {
            let begun = bare.under();
            let moment = side.begins_at(begun.moment);
            self.tell_params(params.of(families, begun.call), moment)?;
        }
        Ok(())
    }

    /// What follows for the objects in the list of one that is due. Of an object of which less was told since, the list is
    /// due by that.
    fn go_on(&mut self, side: Side, histories: &[History], due: Due) -> Result<(), NoMemory>
        ensures earlier { OnOk result (IsEarlier self.old self.new) }
        ensures told { OnOk result (told_by self.new due.name ≡ Some due.moment → AreGoneOver side (told_by self.new) (Some due.moment) (history_of histories.now due.name).spans) }
    {
        match moment_at(self.told.as_slice(), due.name) {
            Some(moment) if moment == due.moment => {
                self.go_over(side, due.moment, spans_at(histories, due.name))
            }
            _ => Ok(()),
        }
    }

    /// What follows for all that stood in the lists of those of which something is told, and in the lists of these, and so on.
    fn spread(&mut self, side: Side, histories: &[History]) -> Result<(), NoMemory>
        requires { IsUnderway side histories.now self.old }
        ensures closed { OnOk result (IsClosed side histories.now (told_by self.new)) }
        ensures earlier { OnOk result ((name : Name) → (bound : ℕ) → IsBy (told_by self.old name) bound → IsBy (told_by self.new name) bound) }
    {
        for _ in 0..usize::MAX {
            let Some(Reverse(due)) = self.due.pop() else {
                return Ok(());
            };
            self.go_on(side, histories, due)?;
        }
        Err(NoMemory)
    }
}

/// When ways can be at objects, from the parameters of the calls under which there were these changes, by name. NoMemory
/// is want of memory.
pub(crate) fn reachable(
    alloc: Global,
    side: Side,
    histories: &[History],
    families: &Lists<Begun>,
    params: &GivenParams,
    changes: &[KeptChange],
) -> Result<Vec<Option<u32>>, NoMemory>
    ensures { IfOk result (λ told. AreReachable side families.now params.now changes.now histories.now (moment_at told.items)) }
{
    let mut moments = Moments::none(alloc, side, histories)?;
    moments.begin(side, families, params, changes)?;
    moments.spread(side, histories)?;
    Ok(moments.told)
}

/// An object has to be held by so many runs before it pays to know the last moments at which calls can begin that come to
/// objects.
const MANY: usize = 256;

/// Whether an object is held by many runs. The reasons that are found are the same whatever this says: it tells whether to ask pays.
fn are_many(holders: &[Items<Stretch>]) -> bool {
    holders.iter().any(|held| held.len() >= MANY)
}

/// The last moments at which calls can begin that come to objects, counted back, by name; where no object is held by many
/// runs, nothing is asked, and each call passes for one that can come to all. NoMemory is want of memory.
pub(crate) fn lasts(
    alloc: Global,
    histories: &[History],
    families: &Lists<Begun>,
    params: &GivenParams,
    changes: &[KeptChange],
    holders: &[Items<Stretch>],
) -> Result<Vec<Option<u32>>, NoMemory>
    ensures { IfOk result (λ told. AreReachable Last families.now params.now changes.now histories.now (moment_at told.items)) }
{
    if !are_many(holders) {
        return Ok(Vec::new(alloc));
    }
    reachable(alloc, Side::Last, histories, families, params, changes)
}
