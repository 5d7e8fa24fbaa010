//! The moments of a history, on the way forward and on the way back.

use crate::steps::some_step;
use hk_model::{Call, Line, Making, NoMemory, Refusal, Reply, Text, What, What8, World};
use hk_rights::Right;
use hk_undo::{Past, state_text};
use std::alloc::Global;
use std::marker::PhantomData;

/// How many lines are made at most.
const LINES: usize = 2000;

/// A moment: its state as text, and the line that led on from it.
#[derive(Drop)]
struct Moment {
    state: Text,
    line: Line,
}

/// What is found: how many lines were made and taken back, or the moment at which something differs.
#[derive(Clone, Copy)]
pub(crate) enum Told {
    Same(usize),
    Differs(usize),
}

/// The state after the lines, as text.
fn state_now(alloc: Global, past: &Past) -> Result<Text, NoMemory> {
    let snapshot = past.snapshot(alloc)?;
    state_text(alloc, &snapshot, 0)
}

/// Whether two texts are the same.
fn same_text(one: &Text, other: &Text) -> bool {
    one.as_bytes() == other.as_bytes()
}

/// Makes lines while some processor has a step, and keeps each moment before one.
fn make_lines(alloc: Global, past: &mut Past) -> Result<Vec<Moment>, NoMemory> {
    let mut moments = Vec::new(alloc);
    let mut seed = 1;
    for _ in 0..LINES {
        let state = state_now(alloc, past)?;
        let Some(line) = some_step(alloc, past, &mut seed)? else {
            break;
        };
        moments.push(Moment { state, line })?;
    }
    Ok(moments)
}

/// The last line taken back. Where memory is wanted once, the state is to be as it was, and it is asked
/// for again; None where it is not.
fn line_back(alloc: Global, past: &mut Past, behind: &Text) -> Result<Option<Line>, NoMemory> {
    if let Ok(line) = past.back(alloc) {
        return Ok(line);
    }
    if !same_text(&state_now(alloc, past)?, behind) {
        return Ok(None);
    }
    past.back(alloc)
}

/// Whether the line and the state are those of a moment.
fn is_at(moment: &Moment, line: Line, state: &Text) -> bool {
    let _ = PhantomData::<(Making, Call, What, Reply, Refusal, What8, Right)>; // Rattle is to know what a Line holds
    moment.line == line && same_text(&moment.state, state)
}

/// Makes lines of a world, takes all of them back, and compares.
pub(crate) fn retrace(alloc: Global, world: World) -> Result<Told, NoMemory> {
    let mut past = Past::begin(alloc, world)?;
    let mut moments = make_lines(alloc, &mut past)?;
    let count = past.len();
    let mut behind = state_now(alloc, &past)?;
    for _ in 0..LINES {
        let Some(moment) = moments.pop() else {
            break;
        };
        let Some(line) = line_back(alloc, &mut past, &behind)? else {
            return Ok(Told::Differs(past.len()));
        };
        behind = state_now(alloc, &past)?;
        if !is_at(&moment, line, &behind) {
            return Ok(Told::Differs(past.len()));
        }
    }
    Ok(Told::Same(count))
}
