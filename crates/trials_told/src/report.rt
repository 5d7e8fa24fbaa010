// A process calls a confined procedure that counts a word up.

use crate::generated::generated;
use crate::histories::first_steps;
use hk_model::{Change, Text};
use hk_report::{BareChange, changes_text, changes_under, report, report_text};
use std::alloc::Global;
use std::test::Fail;

/// The changes of the first lines, without reasons.
fn bare_changes(alloc: Global) -> Result<Vec<BareChange>, Fail> {
    let world = generated(alloc, 1)?;
    let lines = first_steps(alloc, &world)?;
    match changes_under(alloc, &world, lines.as_slice()) {
        Ok(changes) => Ok(changes),
        Err(_) => Err("changes".into()),
    }
}

/// The changes of the first lines.
fn changes(alloc: Global) -> Result<Vec<Change>, Fail> {
    let world = generated(alloc, 1)?;
    let lines = first_steps(alloc, &world)?;
    match report(alloc, &world, lines.as_slice()) {
        Ok(changes) => Ok(changes),
        Err(_) => Err("a report".into()),
    }
}

/// Their text.
fn text(alloc: Global) -> Result<Text, Fail> {
    let changes = changes(alloc)?;
    match changes_text(alloc, changes.as_slice()) {
        Ok(text) => Ok(text),
        Err(_) => Err("a text".into()),
    }
}

/// The same, without the list of them.
fn text_at_once(alloc: Global) -> Result<Text, Fail> {
    let world = generated(alloc, 1)?;
    let lines = first_steps(alloc, &world)?;
    match report_text(alloc, &world, lines.as_slice()) {
        Ok(text) => Ok(text),
        Err(_) => Err("a text".into()),
    }
}

#[test]
fn the_word_is_changed_under_the_call(rt: HostRuntime) -> Result<(), Fail> {
    let changes = bare_changes(rt.alloc())?;
    assert_eq!(rt; changes.len(), 1);
    assert_eq!(rt; changes[0].moment, 4);
    assert_eq!(rt; changes[0].under.call.0, 1);
    assert_eq!(rt; changes[0].under.moment, 3);
    Ok(())
}

#[test]
fn the_change_is_by_the_first_parameter(rt: HostRuntime) -> Result<(), Fail> {
    let due = "5 1 7 param 0\nchanges 1\n";
    assert_eq!(rt; text(rt.alloc())?.as_str(), due);
    assert_eq!(rt; text_at_once(rt.alloc())?.as_str(), due);
    Ok(())
}
