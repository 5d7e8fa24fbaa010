//! What a line did that the changes under confined calls are told by (`docs/RULES.md`, "Under a
//! call").

ghost use Rattle.std.specs.Prelude.{◌≡◌, true, [], None, Some, is_some, option_copied, option_map, slice_index_or};
ghost use Rattle.hk_model.specs.Control.{is_refusal};
ghost use Rattle.hk_model.specs.Lines.{changes_path, done_call};
ghost use Rattle.hk_model.specs.Places.{named_by};
ghost use Rattle.hk_report.specs.Named.{lists_path, named_list};
ghost use Rattle.hk_report.specs.Doings.{asked_change, before_by, before_call, before_none, doing_behind};

use crate::families::{Begun, calls_over};
use crate::lists::Lists;
use crate::naming::named_by;
use crate::shows::is_confined;
use hk_model::{Call, Cpu, Inc, Line, Name, Path, Reply, What};
use hk_plain::Plain;
use hk_program::Watch;

/// An incarnation that an Enter has made.
#[derive(Clone, Copy)]
pub struct Entered {
    pub inc: Inc,
    /// Whether the call is confined.
    pub confined: bool,
}

/// What a line did.
#[derive(Clone, Copy)]
pub struct Doing {
    /// The incarnation of the line.
    pub inc: Inc,
    /// The object that it changed.
    pub changed: Option<Name>,
    /// The object whose list it changed.
    pub listed: Option<Name>,
    /// The object that it made.
    pub made: Option<Name>,
    /// The incarnation that it made.
    pub entered: Option<Entered>,
}

/// What is known of a line before its step.
#[derive(Clone, Copy)]
pub struct Before {
    /// The incarnation of the line.
    pub inc: Inc,
    /// The object that it changes; None also where that was not asked (`Known`).
    pub changed: Option<Name>,
    /// The object whose list it changes.
    pub listed: Option<Name>,
    /// The object that it makes.
    pub made: Option<Name>,
    /// The number of the incarnation that it makes.
    pub enters: Option<Inc>,
}

/// The path to the object that a call changes where it is done.
pub(crate) fn changed_path(call: &Call) -> Option<&Path>
    ensures { option_copied result ≡ changes_path (Some call.now) }
{
    match call {
        Call::Put { of, .. } => Some(of),
        Call::Add { of, .. } => Some(of),
        Call::Store { list, .. } => Some(list),
        Call::Append { list, .. } => Some(list),
        Call::Erase { list, .. } => Some(list),
        Call::P { of } => Some(of),
        Call::V { of } => Some(of),
        _ => None,
    }
}

/// The path to the object whose list a call changes where it is done.
fn listed_path(call: &Call) -> Option<&Path>
    ensures { option_copied result ≡ lists_path (Some call.now) }
{
    match call {
        Call::Store { list, .. } => Some(list),
        Call::Append { list, .. } => Some(list),
        Call::Erase { list, .. } => Some(list),
        _ => None,
    }
}

/// What is known of a call that is done, before it, where it changes this object and this object's list.
fn before_call(
    kernel: &Plain,
    inc: Inc,
    changed: Option<Name>,
    listed: Option<Name>,
    call: &Call,
) -> Before
    requires { listed ≡ named_list kernel.now inc (Some call.now) }
    ensures { result ≡ record (before_call kernel.now inc (Some call.now)) { changed = changed } }
{
    let made = match call {
        Call::Create { .. } => Some(kernel.next_name()),
        Call::Copy { .. } => Some(kernel.next_name()),
        _ => None,
    };
    let enters = match call {
        Call::Enter { .. } => Some(kernel.next_inc()),
        _ => None,
    };
    Before {
        inc,
        changed,
        listed,
        made,
        enters,
    }
}

/// The object that an incarnation's path names, if there is a path.
fn named(kernel: &Plain, inc: Inc, path: Option<&Path>) -> Option<Name>
    ensures { result ≡ option_map (named_by kernel.now inc) (option_copied path.entry) }
{
    match path {
        Some(path) => Some(named_by(kernel, inc, path)),
        None => None,
    }
}

/// What is known before a line that does no call.
fn before_none(inc: Inc) -> Before
    ensures { result ≡ before_none inc }
{
    Before {
        inc,
        changed: None,
        listed: None,
        made: None,
        enters: None,
    }
}

/// Whether an event with this reply is a call that was refused.
fn is_refusal(reply: &Reply) -> bool
    ensures { result ≡ is_refusal reply.now }
{
    match reply {
        Reply::No(_) => true,
        _ => false,
    }
}

/// What is known of the call that a step makes, if it makes one. Of an incarnation that is under no confined call it is not
/// asked which object it changes, unless it changes the object's list.
#[derive(Drop)]
pub(crate) struct Known<'a> {
    pub before: Option<Before>,
    /// The confined calls that each incarnation is under, by its number.
    pub calls: &'a Lists<Begun>,
}

impl<'a> Known<'a> {
    /// The object that an incarnation's call changes, where it changes this object's list.
    fn asked(&self, kernel: &Plain, inc: Inc, call: &Call, listed: Option<Name>) -> Option<Name>
        requires { listed ≡ named_list kernel.now inc (Some call.now) }
        ensures { result ≡ asked_change (slice_index_or self.now.calls.now inc.0 []) kernel.now inc call.now }
    {
        if listed.is_some() {
            return listed;
        }
        let path = changed_path(call)?;
        if calls_over(self.calls, inc).is_empty() {
            return None;
        }
        named(kernel, inc, Some(path))
    }
}

impl<'a> Watch<Plain> for Known<'a> {
    ghost use Rattle.hk_report.specs.Doings.{known_of};

    ghost seen = { λ known s inc call. known_of known s inc call };

    fn see(&mut self, kernel: &Plain, _cpu: Cpu, inc: Inc, call: &Call) {
        let listed = named(kernel, inc, listed_path(call));
        let changed = self.asked(kernel, inc, call, listed);
        self.before = Some(before_call(kernel, inc, changed, listed, call));
    }
}

/// Whether a line has done a call.
fn does_call(line: &Line) -> bool
    ensures { result ≡ is_some (done_call line.now) }
{
    match &line.what {
        What::Call(_) => !is_refusal(&line.reply),
        _ => false,
    }
}

/// What is known of a line, where this was known of its processor's next call before it.
pub(crate) fn before_by(next: Option<Before>, line: &Line) -> Before
    ensures { result ≡ before_by next line.now }
{
    if !does_call(line) {
        return before_none(line.inc);
    }
    match next {
        Some(before) => before,
        None => before_none(line.inc),
    }
}

/// Whether nothing is known of a line that is to be told: no object that it changes or makes, and no procedure that it enters.
pub(crate) fn does_nothing(before: &Before) -> bool
    ensures { result ≡ true → (before.now.changed ≡ None) × (before.now.listed ≡ None) × (before.now.made ≡ None) × (before.now.enters ≡ None) }
{
    before.changed.is_none()
        && before.listed.is_none()
        && before.made.is_none()
        && before.enters.is_none()
}

/// What a line did, by a kernel in the state behind it.
pub(crate) fn doing_behind(before: Before, kernel: &Plain) -> Doing
    ensures { result ≡ doing_behind before kernel.now }
{
    let entered = match before.enters {
        Some(inc) => Some(Entered {
            inc,
            confined: is_confined(kernel, inc),
        }),
        None => None,
    };
    Doing {
        inc: before.inc,
        changed: before.changed,
        listed: before.listed,
        made: before.made,
        entered,
    }
}
