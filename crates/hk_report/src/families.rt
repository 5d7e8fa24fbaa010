//! The confined calls that each incarnation is under, and what is changed under them
//! (`docs/RULES.md`, "Changes and their reasons").

ghost use Rattle.std.specs.Prelude.{◌≡◌, ◌+◌, ◌<◌, ◌^◌, ◌++◌, [], map, replicate, slice_index_or, IfOk, OnOk};
ghost use Rattle.hk_report.specs.Families.{families_by, change_under, changes_by};

use crate::doings::Doing;
use crate::lists::Lists;
use hk_model::{Inc, Name, NoMemory};
use std::alloc::Global;
use std::marker::Model;

/// A confined call, and when it began.
#[derive(Clone, Copy, PartialEq, Eq, Debug)]
pub struct Begun {
    /// The incarnation that the call made.
    pub call: Inc,
    /// The number of lines up to and with the one that made it.
    pub moment: u32,
}

/// A line that changed an object under a confined call.
#[derive(Clone, Copy, PartialEq, Eq, Debug)]
pub struct BareChange {
    /// The number of lines before the line.
    pub moment: u32,
    /// The confined call that its incarnation is under.
    pub under: Begun,
    /// What it changed.
    pub object: Name,
}

/// A change as it is kept: in three words of memory, where a `BareChange` takes four. Contracts see the change.
#[derive(Clone, Copy)]
pub struct KeptChange {
    moment: u32,
    /// When the call began that it was under.
    began: u32,
    call: Inc,
    object: Name,
}

const _: () = prove!(size_of::<KeptChange>() == 24);

impl Model for KeptChange {
    ghost use Rattle.hk_report.specs.declared.families.BareChange.{BareChange};

    ghost Value = { BareChange };

    ghost view = { λ c. record { moment = c.moment; under = record { call = c.call; moment = c.began }; object = c.object } };

    ghost inverse = { λ b. record { moment = b.moment; began = b.under.moment; call = b.under.call; object = b.object } };
}

impl KeptChange {
    /// The confined call that the change was under.
    pub(crate) fn under(&self) -> Begun
        ensures { result ≡ self.now.under }
    {
        Begun {
            call: self.call,
            moment: self.began,
        }
    }

    /// The change.
    pub(crate) fn whole(&self) -> BareChange
        ensures { result ≡ self.now }
    {
        BareChange {
            moment: self.moment,
            under: self.under(),
            object: self.object,
        }
    }
}

/// These changes, as they are handed out. NoMemory is want of memory.
pub(crate) fn whole_changes(alloc: Global, kept: &[KeptChange]) -> Result<Vec<BareChange>, NoMemory>
    ensures { IfOk result (λ changes. changes.items ≡ kept.now) }
{
    let mut changes = Vec::with_capacity(alloc, kept.len())?;
    for change in kept {
        changes.push(change.whole())?;
    }
    Ok(changes)
}

/// The calls that an incarnation of this number is under.
pub(crate) fn calls_over(families: &Lists<Begun>, inc: Inc) -> &[Begun]
    ensures { result.now ≡ slice_index_or families.now inc.0 [] }
{
    families.get(inc.0 as usize)
}

/// One family more, where the line has entered a procedure: the new incarnation is under the calls that its caller is
/// under, and under its own where that is confined.
fn add_family(families: &mut Lists<Begun>, moment: u32, doing: &Doing) -> Result<(), NoMemory>
    requires { moment + 1 < 2 ^ 32 }
    ensures { OnOk result (families.new ≡ families_by moment doing.now families.old) }
{
    let caller = doing.inc.0 as usize;
    match doing.entered {
        Some(new) => {
            if new.confined {
                let call = new.inc;
                let moment = moment + 1;
                families.push_longer(caller, Begun { call, moment })
            } else {
                families.push_again(caller)
            }
        }
        None => Ok(()),
    }
}

/// The change of an object, under each of these calls.
fn add_each(
    changes: &mut Vec<KeptChange>,
    moment: u32,
    object: Name,
    calls: &[Begun],
) -> Result<(), NoMemory>
    ensures { OnOk result (changes.new.items ≡ changes.old.items ++ map (change_under moment object) calls.now) }
{
    for call in calls {
        changes.push(KeptChange {
            moment,
            began: call.moment,
            call: call.call,
            object,
        })?;
    }
    Ok(())
}

/// What a line changes, under each of the calls that its incarnation is under.
fn add_changes(
    changes: &mut Vec<KeptChange>,
    families: &Lists<Begun>,
    moment: u32,
    doing: &Doing,
) -> Result<(), NoMemory>
    ensures { OnOk result (changes.new.items ≡ changes.old.items ++ changes_by moment doing.now.changed (slice_index_or families.now doing.now.inc.0 [])) }
{
    match doing.changed {
        Some(object) => add_each(changes, moment, object, calls_over(families, doing.inc)),
        None => Ok(()),
    }
}

/// The changes under confined calls, and the calls that each incarnation is under.
#[derive(Drop)]
pub struct Families {
    /// The calls that each incarnation is under, by its number.
    pub calls: Lists<Begun>,
    pub changes: Vec<KeptChange>,
}

impl Families {
    /// No line has come yet, and the incarnations of the opening are those below `first`. NoMemory is want of memory.
    pub(crate) fn begin(alloc: Global, first: Inc) -> Result<Families, NoMemory>
        ensures calls { IfOk result (λ f. f.calls ≡ replicate first.0 []) }
        ensures changes { IfOk result (λ f. f.changes.items ≡ []) }
    {
        Ok(Families {
            calls: Lists::empty(alloc, first.0 as usize)?,
            changes: Vec::new(alloc),
        })
    }

    /// One line more, which did this, behind so many. NoMemory is want of memory.
    pub(crate) fn add(&mut self, moment: u32, doing: &Doing) -> Result<(), NoMemory>
        requires { moment + 1 < 2 ^ 32 }
        ensures changes { OnOk result (self.new.changes.items ≡ self.old.changes.items ++ changes_by moment doing.now.changed (slice_index_or self.old.calls doing.now.inc.0 [])) }
        ensures calls { OnOk result (self.new.calls ≡ families_by moment doing.now self.old.calls) }
    {
        add_changes(&mut self.changes, &self.calls, moment, doing)?;
        add_family(&mut self.calls, moment, doing)
    }
}
