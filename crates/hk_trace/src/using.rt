//! Which places a line used (`docs/RULES.md`, "Traced descent" and "The order of refusals").

ghost use Rattle.std.specs.Prelude.{◌≡◌, ◌+◌, ◌<◌, ◌++◌, length, map, IfOk, OnOk};
ghost use Rattle.hk_model.specs.declared.lines.What.TheVariants as what;
ghost use Rattle.hk_model.specs.Limits.{step_bound};
ghost use Rattle.hk_trace.specs.Used.{is_below, step_of, on_path, behind_path, rights_place, order_of, is_refused_before, used_by, used};
ghost use Rattle.hk_model.specs.Places.{passed};
ghost use Rattle.hk_trace.specs.Carried.{call_path};
ghost use Rattle.hk_trace.specs.Held.{held_at};
ghost use Rattle.hk_trace.specs.Uses.{told_use, uses_of};

use crate::carrying::{call_path, carried_slots, carried_step, has_at, path_len};
use crate::chains::Standing;
use crate::standing::{along, held_slots};
use hk_model::{Call, Inc, Line, NoMemory, Refusal, Reply, What};
use hk_plain::Plain;
use std::alloc::Global;

/// A place that a line used, with what stood there before it.
#[derive(Clone, Copy)]
pub struct UsedPlace {
    /// The step of the call.
    pub step: u8,
    /// The place, with what stood there.
    pub at: Standing,
}

/// The places of the order of refusals.
const SLOTS_TESTED: u8 = 1;

const PATH_WALKED: u8 = 2;

const TYPE_TESTED: u8 = 3;

const RIGHTS_TESTED: u8 = 4;

const AT_TESTED: u8 = 5;

const ARGUMENTS_COUNTED: u8 = 6;

const CARRIED_TESTED: u8 = 7;

const LIMITS_TESTED: u8 = 8;

/// The step of a refusal, if it tells one.
fn step_of(refusal: &Refusal) -> Option<u8>
    ensures { result ≡ step_of refusal.now }
{
    match refusal {
        Refusal::Range { step } => Some(*step),
        Refusal::Empty { step } => Some(*step),
        Refusal::NotCap { step } => Some(*step),
        Refusal::Denied { step, .. } => Some(*step),
        Refusal::WrongType { step } => Some(*step),
        Refusal::BadTemplate { step } => Some(*step),
        Refusal::Count => None,
        Refusal::Full { .. } => None,
        Refusal::Deep => None,
    }
}

/// A place of the order for a step of the path, and another for a step behind it.
fn on_path(call: &Call, step: u8, walked: u8, behind: u8) -> u8
    ensures { result ≡ on_path call.now step walked behind }
{
    if step < path_len(call) {
        walked
    } else {
        behind
    }
}

/// Of a step behind the path: the test of `at`, or of a slot's number.
fn behind_path(call: &Call, step: u8) -> u8
    ensures { result ≡ behind_path call.now step }
{
    if has_at(call) && step == path_len(call) {
        AT_TESTED
    } else {
        SLOTS_TESTED
    }
}

/// Of a step of the path: the walk, or at the last step the rights of the target.
fn rights_place(call: &Call, step: u8) -> u8
    ensures { result ≡ rights_place call.now step }
{
    if step as u32 + 1 == path_len(call) as u32 {
        RIGHTS_TESTED
    } else {
        PATH_WALKED
    }
}

/// The place of a refusal of a call in the order of refusals, 1 to 8.
fn order_of(call: &Call, refusal: &Refusal) -> u8
    ensures { result ≡ order_of call.now refusal.now }
{
    match refusal {
        Refusal::Range { step } => on_path(call, *step, PATH_WALKED, behind_path(call, *step)),
        Refusal::Empty { step } => on_path(call, *step, PATH_WALKED, CARRIED_TESTED),
        Refusal::NotCap { step } => on_path(call, *step, PATH_WALKED, CARRIED_TESTED),
        Refusal::Denied { step, .. } => on_path(
            call,
            *step,
            rights_place(call, *step),
            CARRIED_TESTED,
        ),
        Refusal::WrongType { step } => on_path(call, *step, TYPE_TESTED, CARRIED_TESTED),
        Refusal::BadTemplate { .. } => PATH_WALKED,
        Refusal::Count => ARGUMENTS_COUNTED,
        Refusal::Full { .. } => LIMITS_TESTED,
        Refusal::Deep => LIMITS_TESTED,
    }
}

/// Whether a step that is told is below this one.
fn is_below(told: Option<u8>, step: u8) -> bool
    ensures { result ≡ is_below told step }
{
    match told {
        Some(told) => told < step,
        None => false,
    }
}

/// Whether a call was refused at an earlier step than this, or in an earlier place of the order.
fn is_refused_before(call: &Call, reply: &Reply, order: u8, step: u8) -> bool
    ensures { result ≡ is_refused_before call.now reply.now order step }
{
    match reply {
        Reply::No(refusal) => is_below(step_of(refusal), step) || order_of(call, refusal) < order,
        Reply::Done => false,
        Reply::Word(_) => false,
        Reply::Waits => false,
    }
}

/// The uses of what stands at steps that count on from this one.
fn add_uses(
    all: &mut Vec<UsedPlace>,
    call: &Call,
    reply: &Reply,
    order: u8,
    first: u8,
    held: &[Option<Standing>],
) -> Result<(), NoMemory>
    requires { first + length held.now < step_bound }
    ensures { OnOk result (all.new.items ≡ all.old.items ++ uses_of call.now reply.now order first held.now) }
{
    for (index, one) in held.iter().enumerate() {
        let step = first + index as u8;
        let refused = is_refused_before(call, reply, order, step);
        if let Some(at) = one
            && !refused
        {
            all.push(UsedPlace { step, at: *at })?;
        }
    }
    Ok(())
}

/// What stands at each step of a call's path.
fn walked(
    alloc: Global,
    kernel: &Plain,
    inc: Inc,
    call: &Call,
) -> Result<Vec<Option<Standing>>, NoMemory>
    ensures { IfOk result (λ all. all.items ≡ map (held_at kernel.now) (passed kernel.now inc (call_path call.now))) }
{
    match call_path(call) {
        Some(path) => Ok(along(alloc, kernel, inc, path)?),
        None => Ok(Vec::new(alloc)),
    }
}

/// The places that a call used.
#[tactic(auto, using(crate::proofs::Uses::used_is, crate::proofs::Uses::walked_few, crate::proofs::Uses::slots_few))]
fn used_by(
    alloc: Global,
    kernel: &Plain,
    inc: Inc,
    call: &Call,
    reply: &Reply,
) -> Result<Vec<UsedPlace>, NoMemory>
    ensures { IfOk result (λ all. all.items ≡ map (told_use kernel.now) (used_by kernel.now inc (what.Call call.now) reply.now)) }
{
    let slots = carried_slots(call);
    let count = path_len(call) as usize + slots.len();
    let mut all = Vec::with_capacity(alloc, count)?;
    let walked = walked(alloc, kernel, inc, call)?;
    add_uses(&mut all, call, reply, PATH_WALKED, 0, walked.as_slice())?;
    let held = held_slots(alloc, kernel, inc, slots.as_slice())?;
    add_uses(
        &mut all,
        call,
        reply,
        CARRIED_TESTED,
        carried_step(call),
        held.as_slice(),
    )?;
    Ok(all)
}

/// The places that a line used, by a kernel in the state before it. NoMemory is want of memory.
pub(crate) fn used(alloc: Global, kernel: &Plain, line: &Line) -> Result<Vec<UsedPlace>, NoMemory>
    ensures { IfOk result (λ all. all.items ≡ map (told_use kernel.now) (used kernel.now line.now)) }
{
    match &line.what {
        What::Call(call) => used_by(alloc, kernel, line.inc, call, &line.reply),
        What::Dispatch => Ok(Vec::new(alloc)),
        What::Halt => Ok(Vec::new(alloc)),
    }
}
