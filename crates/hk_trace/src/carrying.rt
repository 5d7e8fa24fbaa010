//! The operands of a call by their steps (`docs/RULES.md`, "Step numbers").

ghost use Rattle.std.specs.Prelude.{◌≡◌, ◌≤◌, ◌+◌, [], ◌∷◌, length, MatchOption};
ghost use Rattle.hk_model.specs.Limits.{path_limit};
ghost use Rattle.hk_trace.specs.Carried.{call_path, has_at, carried_slots, carried_step};

use hk_model::{Args, Call, Path, Slot};

/// The path of a call. None of a call without one.
pub(crate) fn call_path(call: &Call) -> Option<&Path>
    ensures { MatchOption result (call_path call.now ≡ []) (λ path. call_path call.now ≡ path.now) }
{
    match call {
        Call::Get { of, .. } => Some(of),
        Call::Put { of, .. } => Some(of),
        Call::Add { of, .. } => Some(of),
        Call::Length { of } => Some(of),
        Call::Load { from, .. } => Some(from),
        Call::Store { list, .. } => Some(list),
        Call::Append { list, .. } => Some(list),
        Call::Erase { list, .. } => Some(list),
        Call::Look { of } => Some(of),
        Call::MakeTemplate { of, .. } => Some(of),
        Call::Create { by, .. } => Some(by),
        Call::Merge { with, .. } => Some(with),
        Call::Copy { of, .. } => Some(of),
        Call::Enter { proc, .. } => Some(proc),
        Call::P { of } => Some(of),
        Call::V { of } => Some(of),
        Call::Drop { .. } | Call::Restrict { .. } | Call::Leave { .. } | Call::Yield => None,
    }
}

/// The number of indices of a call's path, 0 to 8: 0 of a call without one.
pub(crate) fn path_len(call: &Call) -> u8
    ensures value { result ≡ length (call_path call.now) }
    ensures few { result ≤ path_limit }
{
    match call_path(call) {
        Some(path) => path.len() as u8,
        None => 0,
    }
}

/// Whether a call has an index `at`, whose step is the next behind its path.
pub(crate) fn has_at(call: &Call) -> bool
    ensures { result ≡ has_at call.now }
{
    match call {
        Call::Get { .. } | Call::Put { .. } | Call::Store { .. } | Call::Erase { .. } => true,
        _ => false,
    }
}

/// One slot.
fn one_slot(slot: Slot) -> Args
    ensures { result ≡ slot.0 ∷ [] }
{
    match Args::new(&[slot]) {
        Some(args) => args,
        None => unreachable!(),
    }
}

/// No slot.
fn no_slot() -> Args
    ensures { result ≡ [] }
{
    match Args::new(&[]) {
        Some(args) => args,
        None => unreachable!(),
    }
}

/// The slots that a call carries: FROM, CAP, each ARG, and the slot of a Restrict and of a return.
pub(crate) fn carried_slots(call: &Call) -> Args
    ensures { result ≡ carried_slots call.now }
{
    match call {
        Call::Store { from, .. } => one_slot(*from),
        Call::Append { from, .. } => one_slot(*from),
        Call::Restrict { slot, .. } => one_slot(*slot),
        Call::Merge { cap, .. } => one_slot(*cap),
        Call::Enter { args, .. } => *args,
        Call::Leave { give: Some(slot) } => one_slot(*slot),
        _ => no_slot(),
    }
}

/// The step of the first slot that a call carries, 0 to 9.
pub(crate) fn carried_step(call: &Call) -> u8
    ensures value { result ≡ carried_step call.now }
    ensures few { result ≤ path_limit + 1 }
{
    let len = path_len(call);
    if has_at(call) { len + 1 } else { len }
}
