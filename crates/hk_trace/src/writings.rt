//! What a line writes, and from where (`docs/RULES.md`, "Where entries come from").

ghost use Rattle.std.specs.Prelude.{◌≡◌, IfOk, length, slice_index_or};
ghost use Rattle.hk_model.specs.Control.{is_refusal};
ghost use Rattle.hk_model.specs.State.{object};
ghost use Rattle.hk_model.specs.Lines.{done_call};
ghost use Rattle.hk_trace.specs.Writings.{moving_writing, writing_by, writing_of, came, source_in};

use crate::chains::{Place, Standing};
use crate::standing::{add_list, at_end, at_slot, held_slots, named_by};
use hk_model::{Args, Call, Inc, Items, Line, Name, NoMemory, Path, Reply, Slot, What};
use hk_plain::Plain;
use std::alloc::Global;

/// Where an entry that a line wrote came from.
#[derive(Clone, Copy)]
pub enum CameFrom {
    /// None: the line wrote nothing there.
    Nowhere,
    /// A place, with what stood there before the line.
    Came(Standing),
    /// The call of the line made it.
    Made,
}

/// What is kept of a line: the places that it wrote, with what stood where their entries came from.
#[derive(Drop)]
pub enum Writing {
    /// It wrote no capability and no template.
    Nothing,
    /// A slot, with an entry from a place.
    InSlot {
        inc: Inc,
        into: Slot,
        from: Option<Standing>,
    },
    /// A slot, with an entry that the call made.
    NewInSlot {
        inc: Inc,
        into: Slot,
    },
    /// An index of a list.
    InList {
        name: Name,
        at: u32,
        from: Option<Standing>,
    },
    /// A slot, with a capability for a copy, and the list of the copy.
    InCopy {
        inc: Inc,
        into: Slot,
        name: Name,
        held: Items<Option<Standing>>,
    },
    /// The slots of a new incarnation.
    InSpace {
        inc: Inc,
        held: Items<Option<Standing>>,
    },
}

/// What a return hands to the slot of its caller.
fn leave_writing(kernel: &Plain, inc: Inc, give: Option<Slot>) -> Writing
    ensures { result ≡ writing_by kernel.now inc (Call.Leave give) }
{
    let Some(slot) = give else {
        return Writing::Nothing;
    };
    let Some(incarnation) = kernel.incarnation(inc) else {
        return Writing::Nothing;
    };
    let Some(caller) = incarnation.caller else {
        return Writing::Nothing;
    };
    Writing::InSlot {
        inc: caller,
        into: incarnation.into,
        from: at_slot(kernel, inc, slot.0 as u16),
    }
}

/// What a Copy writes: the slot, and the list of the new object.
fn copy_writing(
    alloc: Global,
    kernel: &Plain,
    inc: Inc,
    of: &Path,
    into: Slot,
) -> Result<Writing, NoMemory>
    ensures { IfOk result (λ writing. writing ≡ writing_by kernel.now inc (Call.Copy of.now into)) }
{
    let copied = named_by(kernel, inc, of);
    let mut held = Vec::new(alloc);
    if let Some(object) = kernel.object(copied) {
        add_list(&mut held, copied, object.entries.as_slice())?;
    }
    Ok(Writing::InCopy {
        inc,
        into,
        name: kernel.next_name(),
        held: Items::from_vec(held),
    })
}

/// What an Enter writes: the slots of the new incarnation.
fn enter_writing(
    alloc: Global,
    kernel: &Plain,
    inc: Inc,
    proc: &Path,
    args: &Args,
    into: Slot,
) -> Result<Writing, NoMemory>
    ensures { IfOk result (λ writing. writing ≡ writing_by kernel.now inc (Call.Enter proc.now args.now into)) }
{
    let _ = into; // the new incarnation is told it, and no slot of the caller's is written yet
    let name = named_by(kernel, inc, proc);
    let mut held = Vec::new(alloc);
    if let Some(object) = kernel.object(name) {
        let count = std::cmp::min(args.len(), object.params.len());
        held = held_slots(alloc, kernel, inc, &args.as_slice()[..count])?;
        add_list(&mut held, name, object.entries.as_slice())?;
    }
    Ok(Writing::InSpace {
        inc: kernel.next_inc(),
        held: Items::from_vec(held),
    })
}

/// The index behind the last of an object's list.
fn list_end(kernel: &Plain, name: Name) -> u32
    ensures { result ≡ length (object kernel.now name).entries }
{
    match kernel.object(name) {
        Some(object) => object.entries.len() as u32,
        None => 0,
    }
}

/// What a call that moves one entry writes.
fn moving_writing(kernel: &Plain, inc: Inc, call: &Call) -> Writing
    ensures { result ≡ moving_writing kernel.now inc call.now }
{
    match call {
        Call::Load { from, into } => Writing::InSlot {
            inc,
            into: *into,
            from: at_end(kernel, inc, from),
        },
        Call::Store { list, at, from } => Writing::InList {
            name: named_by(kernel, inc, list),
            at: *at,
            from: at_slot(kernel, inc, from.0 as u16),
        },
        Call::Append { list, from } => {
            let name = named_by(kernel, inc, list);
            Writing::InList {
                name,
                at: list_end(kernel, name),
                from: at_slot(kernel, inc, from.0 as u16),
            }
        }
        Call::Restrict { slot, .. } => Writing::InSlot {
            inc,
            into: *slot,
            from: at_slot(kernel, inc, slot.0 as u16),
        },
        Call::Merge { cap, into, .. } => Writing::InSlot {
            inc,
            into: *into,
            from: at_slot(kernel, inc, cap.0 as u16),
        },
        _ => Writing::Nothing,
    }
}

/// What a call that is done writes, and from where.
fn writing_by(alloc: Global, kernel: &Plain, inc: Inc, call: &Call) -> Result<Writing, NoMemory>
    ensures { IfOk result (λ writing. writing ≡ writing_by kernel.now inc call.now) }
{
    match call {
        Call::MakeTemplate { into, .. } => Ok(Writing::NewInSlot { inc, into: *into }),
        Call::Create { into, .. } => Ok(Writing::NewInSlot { inc, into: *into }),
        Call::Copy { of, into } => copy_writing(alloc, kernel, inc, of, *into),
        Call::Enter { proc, args, into } => enter_writing(alloc, kernel, inc, proc, args, *into),
        Call::Leave { give } => Ok(leave_writing(kernel, inc, *give)),
        _ => Ok(moving_writing(kernel, inc, call)),
    }
}

/// Whether a reply is a refusal.
fn is_refusal(reply: &Reply) -> bool
    ensures { result ≡ is_refusal reply.now }
{
    match reply {
        Reply::No(_) => true,
        _ => false,
    }
}

/// What a line writes, and from where, by a kernel in the state before it. NoMemory is want of
/// memory.
pub(crate) fn writing_of(alloc: Global, kernel: &Plain, line: &Line) -> Result<Writing, NoMemory>
    ensures { IfOk result (λ writing. writing ≡ writing_of kernel.now line.now.inc (done_call line.now)) }
{
    match &line.what {
        What::Dispatch => Ok(Writing::Nothing),
        What::Halt => Ok(Writing::Nothing),
        What::Call(call) => {
            if is_refusal(&line.reply) {
                Ok(Writing::Nothing)
            } else {
                writing_by(alloc, kernel, line.inc, call)
            }
        }
    }
}

/// A standing as a source.
fn came(held: Option<Standing>) -> CameFrom
    ensures { result ≡ came held }
{
    match held {
        Some(from) => CameFrom::Came(from),
        None => CameFrom::Nowhere,
    }
}

/// One of several, if it is there and something stood there.
fn came_at(held: &[Option<Standing>], at: usize) -> CameFrom
    ensures { result ≡ came (slice_index_or held.now at None) }
{
    match held.get(at) {
        Some(held) => came(*held),
        None => CameFrom::Nowhere,
    }
}

/// Where a writing has what it wrote at a place from; from nowhere where it wrote nothing there.
pub(crate) fn source_in(writing: &Writing, place: Place) -> CameFrom
    ensures { result ≡ source_in writing.now place }
{
    match place {
        Place::SlotOf { inc, slot } => source_in_slot(writing, inc, slot),
        Place::EntryOf { name, index } => source_in_list(writing, name, index),
    }
}

/// Where a writing has what it wrote in a slot from.
fn source_in_slot(writing: &Writing, at: Inc, slot: Slot) -> CameFrom
    ensures { result ≡ source_in writing.now (Place.SlotOf at slot) }
{
    match writing {
        Writing::InSlot { inc, into, from } if at == *inc && slot.0 == into.0 => came(*from),
        Writing::NewInSlot { inc, into } if at == *inc && slot.0 == into.0 => CameFrom::Made,
        Writing::InCopy { inc, into, .. } if at == *inc && slot.0 == into.0 => CameFrom::Made,
        Writing::InSpace { inc, held } if at == *inc => came_at(held.as_slice(), slot.0 as usize),
        _ => CameFrom::Nowhere,
    }
}

/// Where a writing has what it wrote in a list from.
fn source_in_list(writing: &Writing, of: Name, index: u16) -> CameFrom
    ensures { result ≡ source_in writing.now (Place.EntryOf of index) }
{
    match writing {
        Writing::InList { name, at, from } if of == *name && index as u32 == *at => came(*from),
        Writing::InCopy { name, held, .. } if of == *name => came_at(
            held.as_slice(),
            index as usize,
        ),
        _ => CameFrom::Nowhere,
    }
}
