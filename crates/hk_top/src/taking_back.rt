//! The last lines of a record taken back (`docs/RULES.md`, "Lines taken back").

ghost use Rattle.std.specs.Prelude.{◌≡◌, ◌-◌, ◌<◌, ◌≤◌, ◌^◌, ◌&&◌, [], true, Decides, IfOk, OnOk, Some, length, take};
ghost use Rattle.hk_model.specs.Legal.{IsLegal, end_word};
ghost use Rattle.hk_model.specs.Running.{line_of};
ghost use Rattle.hk_undo.specs.Pasts.{machine_after, with_line};
ghost use Rattle.hk_top.specs.Outputs.{moment_text};

use hk_model::{Call, End, Line, Making, NoMemory, Refusal, Reply, Template, Text, What};
use hk_undo::{Past, state_text};
use std::alloc::Global;
use std::marker::PhantomData;

/// Makes these lines, each by the step of its processor, in a past that has none. True exactly where they and the end word are
/// a legal history: then the past has them all. NoMemory is want of memory.
pub(crate) fn makes_again(
    alloc: Global,
    past: &mut Past,
    lines: &[Line],
    end: End,
) -> Result<bool, NoMemory>
    requires { past.old.lines ≡ [] }
    ensures legal { IfOk result (λ legal. Decides legal (IsLegal past.old.world lines.now end)) }
    ensures made { IfOk result (λ legal. legal ≡ true → past.new ≡ record { world = past.old.world; lines = lines.now }) }
{
    for line in lines {
        if !makes(alloc, past, line)? {
            return Ok(false);
        }
    }
    let _count = past.len(); // so that the check knows that its lines are steps
    let legal = ends_with(alloc, past, end)?;
    Ok(legal)
}

/// Makes the step of a line's processor. True exactly where it is the line. NoMemory is want of memory.
fn makes(alloc: Global, past: &mut Past, line: &Line) -> Result<bool, NoMemory>
    ensures same { IfOk result (λ same. Decides same (line_of past.old.world (machine_after past.old) line.now.cpu ≡ Some line.now)) }
    ensures made { IfOk result (λ same. same ≡ true → past.new ≡ with_line past.old line.now) }
{
    let _ = PhantomData::<(Call, Making, Refusal, Reply, Template, What)>; // Rattle is to know what a Line holds
    match past.forward(alloc, line.cpu)? {
        Some(made) => Ok(is_same(&made, line)),
        None => Ok(false),
    }
}

/// Whether two lines are the same.
fn is_same(made: &Line, line: &Line) -> bool
    ensures { Decides result (made.now ≡ line.now) }
{
    let by = is_by_same(made, line);
    let event = is_same_event(made, line);
    let reply = is_same_reply(made, line);
    all_three(by, event, reply)
}

/// Whether all three hold.
fn all_three(a: bool, b: bool, c: bool) -> bool
    ensures { result ≡ (a && b && c) }
{
    a && b && c
}

/// Whether the same processor, process and incarnation make both.
fn is_by_same(made: &Line, line: &Line) -> bool
    ensures { Decides result ((made.now.cpu ≡ line.now.cpu) × (made.now.proc ≡ line.now.proc) × (made.now.inc ≡ line.now.inc)) }
{
    made.cpu == line.cpu && made.proc == line.proc && made.inc == line.inc
}

/// Whether the event is the same.
fn is_same_event(made: &Line, line: &Line) -> bool
    ensures { Decides result (made.now.what ≡ line.now.what) }
{
    made.what == line.what
}

/// Whether the reply is the same.
fn is_same_reply(made: &Line, line: &Line) -> bool
    ensures { Decides result (made.now.reply ≡ line.now.reply) }
{
    made.reply == line.reply
}

/// Whether the state after the lines of a past has this end word. NoMemory is want of memory.
fn ends_with(alloc: Global, past: &Past, end: End) -> Result<bool, NoMemory>
    ensures { IfOk result (λ same. Decides same (end_word (machine_after past.now).state ≡ Some end)) }
{
    match past.end(alloc)? {
        Some(word) => Ok(word == end),
        None => Ok(false),
    }
}

/// The state before the last lines of a past, so many, as a text: the opening where it has no more. They are taken back, the
/// last first. NoMemory is want of memory.
pub(crate) fn text_before(alloc: Global, past: &mut Past, count: u32) -> Result<Text, NoMemory>
    requires { length past.old.lines < 2 ^ 32 }
    ensures { IfOk result (λ text. text ≡ moment_text past.old.world past.old.lines (length past.old.lines - count)) }
{
    let moment = past.len().saturating_sub(count as usize);
    take_back(alloc, past, moment)?;
    let state = past.snapshot(alloc)?;
    Ok(state_text(alloc, &state, moment as u32)?)
}

/// Takes the lines of a past back up to a moment, which is after so many lines. NoMemory is want of memory.
fn take_back(alloc: Global, past: &mut Past, moment: usize) -> Result<(), NoMemory>
    requires { moment ≤ length past.old.lines }
    ensures world { OnOk result (past.new.world ≡ past.old.world) }
    ensures lines { OnOk result (past.new.lines ≡ take moment past.old.lines) }
{
    let _ = PhantomData::<(Call, Making, Refusal, Reply, Template, What)>; // Rattle is to know what a Line holds
    for _ in moment..past.len() {
        let _line = past.back(alloc)?;
    }
    Ok(())
}
