//! What has stood in the list of each object, from which moment to which, and who made the object
//! (`docs/RULES.md`, "Reaches").

ghost use Rattle.std.specs.Prelude.{◌≡◌, ◌-◌, ◌++◌, ◌<◌, ◌≤◌, true, None, length, replicate, slice_get, slice_set, slice_index_or, IfOk, OnOk};
ghost use Rattle.std.specs.Option.{option_and_then};
ghost use Rattle.hk_model.specs.Limits.{entry_limit};
ghost use Rattle.hk_model.specs.Places.{cap_of};
ghost use Rattle.hk_report.specs.Histories.{StaysListed, same_at, same_cap, stays, since_by, ended_by, added, padded, relisted, no_history, touched, touched_name, maker_of, noted, opened_below, finished_below};

use crate::doings::Doing;
use crate::lists::add_one;
use crate::shows::entries_of;
use hk_model::lists::Limited;
use hk_model::{Cap, Entry, Inc, Items, Name, NoMemory, Template};
use hk_plain::Plain;
use std::alloc::Global;
use std::marker::PhantomData;
use std::mem;

/// A capability that stands at an index of a list.
#[derive(Clone, Copy)]
pub struct Since {
    pub cap: Cap,
    /// The first moment at which it stood there.
    pub from: u32,
}

/// A capability that stood at an index of a list up to a moment.
#[derive(Clone, Copy)]
pub struct Span {
    pub index: u16,
    pub cap: Cap,
    /// The first moment at which it stood there.
    pub from: u32,
    /// The first moment after that at which it did not.
    pub until: u32,
}

/// The history of an object: who made it, and what stood in its list.
#[derive(Drop)]
pub struct History {
    /// The incarnation that made it, none of an object of the opening.
    pub maker: Option<Inc>,
    /// What stands at each index of its list.
    pub now: Limited<Option<Since>, 256>,
    /// What stood there before.
    pub spans: Items<Span>,
}

/// The capability at an index of a list.
fn cap_at(entries: &[Entry], index: usize) -> Option<Cap>
    ensures { result ≡ option_and_then cap_of (slice_get entries.now index) }
{
    let _ = PhantomData::<Template>; // Rattle is to know what an Entry holds
    match entries.get(index) {
        Some(Entry::Held(cap)) => Some(*cap),
        _ => None,
    }
}

/// Whether two capabilities are the same.
pub(crate) fn same_cap(a: Cap, b: Cap) -> bool
    ensures { result ≡ same_cap a b }
{
    a.name.0 == b.name.0 && a.rights.bits() == b.rights.bits()
}

/// Whether what stood at an index stands there still.
fn stays(old: &Option<Since>, new: &Option<Cap>) -> bool
    ensures { result ≡ stays old.now new.now }
{
    match old {
        Some(since) => match new {
            Some(cap) => same_cap(since.cap, *cap),
            None => false,
        },
        None => false,
    }
}

/// Whether the same stands at an index as before: a capability, or none.
fn same_at(old: &Option<Since>, new: &Option<Cap>) -> bool
    ensures { result ≡ same_at old.now new.now }
{
    match old {
        Some(_) => stays(old, new),
        None => new.is_none(),
    }
}

/// Whether the same stands in a list as before.
fn stays_listed(now: &[Option<Since>], entries: &[Entry]) -> bool
    ensures { result ≡ true → StaysListed now.now entries.now }
{
    if now.len() < entries.len() {
        return false;
    }
    for (index, old) in now.iter().enumerate() {
        if !same_at(old, &cap_at(entries, index)) {
            return false;
        }
    }
    true
}

/// What stands at an index from a moment on, where this stood there before.
fn since_by(moment: u32, old: &Option<Since>, new: &Option<Cap>) -> Option<Since>
    ensures { result ≡ since_by moment old.now new.now }
{
    if stays(old, new) {
        return *old;
    }
    match new {
        Some(cap) => Some(Since {
            cap: *cap,
            from: moment,
        }),
        None => None,
    }
}

/// What stood at an index up to a moment.
fn ended_by(moment: u32, index: u16, old: &Option<Since>, new: &Option<Cap>) -> Option<Span>
    ensures { result ≡ ended_by moment index old.now new.now }
{
    if stays(old, new) {
        return None;
    }
    match old {
        Some(since) => Some(Span {
            index,
            cap: since.cap,
            from: since.from,
            until: moment,
        }),
        None => None,
    }
}

/// One span more, if there is one.
fn add(alloc: Global, spans: &mut Items<Span>, span: Option<Span>) -> Result<(), NoMemory>
    ensures { OnOk result (spans.new ≡ spans.old ++ added span) }
{
    if let Some(span) = span {
        add_one(alloc, spans, span)?;
    }
    Ok(())
}

/// What stands at each index of a list, at as many as this at least.
fn padded(now: Vec<Option<Since>>, count: usize) -> Result<Vec<Option<Since>>, NoMemory>
    requires now { length now.items ≤ entry_limit }
    requires count { count ≤ entry_limit }
    ensures all { IfOk result (λ all. all.items ≡ padded now.items count) }
    ensures few { IfOk result (λ all. length all.items ≤ entry_limit) }
{
    let missing = count.saturating_sub(now.len());
    let mut all = now;
    all.reserve_exact(missing)?;
    for _ in 0..missing {
        all.push(None)?;
    }
    Ok(all)
}

/// Writes what stands at an index from a moment on over what stood there, which ends.
fn relist_at(
    alloc: Global,
    spans: &mut Items<Span>,
    now: &mut [Option<Since>],
    moment: u32,
    index: usize,
    new: &Option<Cap>,
) -> Result<(), NoMemory>
    requires within { index < length now.old }
    requires few { length now.old ≤ entry_limit }
    ensures now { OnOk result (now.new ≡ slice_set now.old index (since_by moment (slice_index_or now.old index None) new.now)) }
    ensures spans { OnOk result (spans.new ≡ spans.old ++ added (ended_by moment index (slice_index_or now.old index None) new.now)) }
{
    let old = now[index];
    add(alloc, spans, ended_by(moment, index as u16, &old, new))?;
    now[index] = since_by(moment, &old, new);
    Ok(())
}

/// A list has these entries from a moment on.
fn relist(
    alloc: Global,
    history: &mut History,
    moment: u32,
    maker: Option<Inc>,
    entries: &[Entry],
) -> Result<(), NoMemory>
    requires { length entries.now ≤ entry_limit }
    ensures { OnOk result (history.new ≡ relisted moment maker entries.now history.old) }
{
    if maker.is_none() && stays_listed(history.now.as_slice(), entries) {
        return Ok(());
    }
    let before = mem::replace(&mut history.now, Limited::new(alloc)).into_vec();
    let mut now = padded(before, entries.len())?;
    for index in 0..now.len() {
        let new = cap_at(entries, index);
        relist_at(alloc, &mut history.spans, &mut now, moment, index, &new)?;
    }
    history.now = Limited::from_vec(now);
    if maker.is_some() {
        history.maker = maker;
    }
    Ok(())
}

/// A history of nothing.
fn no_history(alloc: Global) -> History
    ensures { result ≡ no_history }
{
    History {
        maker: None,
        now: Limited::new(alloc),
        spans: Items::new(alloc),
    }
}

/// Histories of nothing behind these, up to a name.
fn reach_up(alloc: Global, histories: &mut Vec<History>, name: Name) -> Result<(), NoMemory>
    ensures { OnOk result (histories.new.items ≡ histories.old.items ++ replicate (name.0 - length histories.old.items) no_history) }
{
    let missing = (name.0 as usize).saturating_sub(histories.len());
    for _ in 0..missing {
        histories.push(no_history(alloc))?;
    }
    Ok(())
}

/// The list of the object of this name has these entries from a moment on.
fn touch(
    alloc: Global,
    histories: &mut Vec<History>,
    name: Name,
    moment: u32,
    maker: Option<Inc>,
    entries: &[Entry],
) -> Result<(), NoMemory>
    requires { length entries.now ≤ entry_limit }
    ensures { OnOk result (histories.new.items ≡ touched moment maker entries.now name histories.old.items) }
{
    match histories.get_mut(name.0 as usize) {
        Some(history) => relist(alloc, history, moment, maker, entries),
        None => {
            reach_up(alloc, histories, name)?;
            let mut history = no_history(alloc);
            relist(alloc, &mut history, moment, maker, entries)?;
            histories.push(history)?;
            Ok(())
        }
    }
}

/// The histories at the opening of a world, by a kernel in that state. NoMemory is want of memory.
pub(crate) fn opened_histories(alloc: Global, kernel: &Plain) -> Result<Vec<History>, NoMemory>
    ensures { IfOk result (λ all. all.items ≡ opened_below kernel.now kernel.now.next_name.0) }
{
    let mut all = Vec::new(alloc);
    for number in 0..kernel.next_name().0 {
        let name = Name(number);
        touch(alloc, &mut all, name, 0, None, entries_of(kernel, name))?;
    }
    Ok(all)
}

/// The object whose list a line has changed or made.
fn touched_name(doing: &Doing) -> Option<Name>
    ensures { result ≡ touched_name doing.now }
{
    match doing.listed {
        Some(name) => Some(name),
        None => doing.made,
    }
}

/// Who has made the object, where a line has made one.
fn maker_of(doing: &Doing) -> Option<Inc>
    ensures { result ≡ maker_of doing.now }
{
    match doing.made {
        Some(_) => Some(doing.inc),
        None => None,
    }
}

/// The histories after one line more, by a kernel in the state behind it. `moment` is the number of
/// lines up to and with it. NoMemory is want of memory.
pub(crate) fn note(
    alloc: Global,
    histories: &mut Vec<History>,
    kernel: &Plain,
    moment: u32,
    doing: &Doing,
) -> Result<(), NoMemory>
    ensures { OnOk result (histories.new.items ≡ noted moment doing.now kernel.now histories.old.items) }
{
    match touched_name(doing) {
        Some(name) => {
            let maker = maker_of(doing);
            touch(
                alloc,
                histories,
                name,
                moment,
                maker,
                entries_of(kernel, name),
            )
        }
        None => Ok(()),
    }
}

/// The histories where all that stands ends at a moment. NoMemory is want of memory.
pub(crate) fn finish(
    alloc: Global,
    histories: &mut Vec<History>,
    moment: u32,
) -> Result<(), NoMemory>
    ensures { OnOk result (histories.new.items ≡ finished_below moment (length histories.old.items) histories.old.items) }
{
    let count = histories.len();
    for index in 0..count {
        touch(alloc, histories, Name(index as u64), moment, None, &[])?;
    }
    Ok(())
}
