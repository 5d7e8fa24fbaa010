//! The name space of a call.

ghost use Rattle.std.specs.Prelude.{◌≡◌, ◌≤◌, ◌<◌, ◌+◌, true, length, map, IfOk, IfErr, OnOk, Ok, Err};
ghost use Rattle.hk_model.specs.Merging.{inherited, merged_arg, merged_all, name_space};
ghost use Rattle.hk_spaces.specs.Spaces.{empty_slots};
ghost use Rattle.hk_merge.specs.NameSpaces.{overwritten, with_caps};

use crate::merging::merged;
use crate::refusing::{confined_rights, held};
use hk_model::limits::SLOT_LIMIT;
use hk_model::{Arg, Cap, Entry, Param, Refusal, Slot, What8};
use hk_spaces::Space;

/// The name space that a call gives (`docs/RULES.md`, "Calls of procedures"): the merged
/// arguments, then what the procedure holds, for a confined call without MODIFY and UNCONF, then
/// nothing.
///
/// Argument i has the step `first_step + i`. `Count` where the arguments are not as many as the
/// parameters. Then, for each argument in order, `Empty`, `NotCap`, `WrongType` and `Denied` where
/// it does not merge with its parameter. Then `Full` for slots where the parameters and what the
/// procedure holds are together more than 64.
pub fn build_space(
    args: &[Arg],
    params: &[Param],
    inherited: &[Entry],
    confined: bool,
    first_step: u8,
) -> Result<Space, Refusal>
    requires args { length args.now ≤ 8 }
    requires params { length params.now ≤ 8 }
    requires first_step { first_step ≤ 8 }
    ensures { result ≡ name_space args.now params.now inherited.now confined first_step }
{
    let mut space = Space::empty();
    fill_space(&mut space, args, params, inherited, confined, first_step)?;
    Ok(space)
}

/// Writes the name space that a call gives into one in which nothing stands. Refused as
/// `build_space` is; some slots may be written then.
#[tactic(auto, using(crate::proofs::Filling::name_space_built, crate::proofs::Filling::name_space_full))]
pub fn fill_space(
    space: &mut Space,
    args: &[Arg],
    params: &[Param],
    inherited: &[Entry],
    confined: bool,
    first_step: u8,
) -> Result<(), Refusal>
    requires space { space.old ≡ empty_slots }
    requires args { length args.now ≤ 8 }
    requires params { length params.now ≤ 8 }
    requires first_step { first_step ≤ 8 }
    ensures ok { OnOk result (name_space args.now params.now inherited.now confined first_step ≡ Ok space.new) }
    ensures refused { IfErr result (λ refusal. name_space args.now params.now inherited.now confined first_step ≡ Err refusal) }
{
    if args.len() != params.len() {
        return Err(Refusal::Count);
    }
    set_params(space, args, params, first_step)?;
    if args.len() + inherited.len() > SLOT_LIMIT {
        return Err(Refusal::Full { what: What8::Slots });
    }
    set_inherited(space, args.len() as u8, inherited, confined);
    Ok(())
}

/// Writes the merged arguments into the first slots.
fn set_params(
    space: &mut Space,
    args: &[Arg],
    params: &[Param],
    first_step: u8,
) -> Result<(), Refusal>
    requires same { length args.now ≡ length params.now }
    requires few { length args.now ≤ 8 }
    requires first_step { first_step ≤ 8 }
    ensures ok { IfOk result (λ _. with_caps space.old 0 (merged_all args.now params.now first_step) ≡ Ok space.new) }
    ensures refused { IfErr result (λ refusal. merged_all args.now params.now first_step ≡ Err refusal) }
{
    for (i, arg) in args.iter().enumerate() {
        let cap = merged_arg(arg, &params[i], first_step + i as u8)?;
        space.set(Slot(i as u8), Entry::Held(cap));
    }
    Ok(())
}

/// An argument merged with its parameter.
#[inline(always)]
fn merged_arg(arg: &Arg, param: &Param, step: u8) -> Result<Cap, Refusal>
    ensures { result ≡ merged_arg arg.now param.now step }
{
    let cap = held(arg.entry, step)?;
    merged(cap, arg.of, param, step)
}

/// Writes what the procedure holds into the slots from `start` on.
#[tactic(auto, using(crate::proofs::Inheriting::all_inherited))]
fn set_inherited(space: &mut Space, start: u8, entries: &[Entry], confined: bool)
    requires { start + length entries.now ≤ 64 }
    ensures { space.new ≡ overwritten space.old start (map (inherited confined) entries.now) }
{
    if confined {
        set_confined(space, start, entries);
    } else {
        space.write(Slot(start), entries);
    }
}

/// Writes what a confined call inherits of these entries into the slots from `start` on.
fn set_confined(space: &mut Space, start: u8, entries: &[Entry])
    requires { start + length entries.now ≤ 64 }
    ensures { space.new ≡ overwritten space.old start (map (inherited true) entries.now) }
{
    for (i, entry) in entries.iter().enumerate() {
        space.set(Slot(start + i as u8), confined(entry));
    }
}

/// What a confined call inherits of an entry.
#[inline(always)]
fn confined(entry: &Entry) -> Entry
    ensures { result ≡ inherited true entry.now }
{
    match entry {
        Entry::Held(cap) => Entry::Held(Cap {
            name: cap.name,
            rights: confined_rights(cap.rights),
        }),
        other => *other,
    }
}
