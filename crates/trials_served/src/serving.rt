// The call without streams.

use crate::commands::{Answered, OF_THREE_EVENTS, Open, RECORD, SCRIPT, events_of, words};
use hk_model::Text;
use hk_top::{Maker, Maps, Slots, rules_agree, serve, status};
use std::alloc::Global;
use std::sync::Wait;
use std::test::Fail;
use std::thread::Threads;

/// How the call came out for these words and bytes, over kernels of this maker, and its text.
fn served<M: Maker, R: Threads + Wait + Sync>(
    rt: &R,
    alloc: Global,
    spelled: &[&str],
    bytes: &[u8],
    kernels: &M,
) -> Result<(Answered, Text), Fail> {
    let asked = words(alloc, spelled)?;
    let Ok(served) = serve(rt, alloc, &asked, bytes, &Open, kernels) else {
        return Err("want of memory".into());
    };
    let events = events_of(alloc, served.kernel);
    let status = served.due.status;
    Ok((Answered { status, events }, served.due.text))
}

/// No kernel was run.
fn alone(status: u8) -> Answered {
    Answered {
        status,
        events: None,
    }
}

#[test]
fn a_script_has_its_record(rt: HostRuntime) -> Result<(), Fail> {
    rules_agree();
    let (one, record) = served(&rt, rt.alloc(), &["run"], SCRIPT, &Slots)?;
    assert_eq!(rt; one, OF_THREE_EVENTS);
    assert_eq!(rt; record.as_bytes(), &RECORD[..]);
    let (two, _record) = served(&rt, rt.alloc(), &["run", "2"], SCRIPT, &Maps)?;
    assert_eq!(rt; two, OF_THREE_EVENTS);
    Ok(())
}

#[test]
fn a_record_has_its_verdict(rt: HostRuntime) -> Result<(), Fail> {
    let (answered, verdict) = served(&rt, rt.alloc(), &["check"], RECORD, &Maps)?;
    assert_eq!(rt; answered, alone(status::DONE));
    assert_eq!(rt; verdict.as_bytes(), &b"legal\n"[..]);
    Ok(())
}

#[test]
fn a_generated_world_has_its_summary_whatever_the_bytes_are(rt: HostRuntime) -> Result<(), Fail> {
    let (answered, summary) = served(&rt, rt.alloc(), &["gen", "1"], RECORD, &Maps)?;
    assert_eq!(rt; answered.status, status::DONE);
    assert!(rt; answered.events.is_some());
    assert!(rt; summary.as_bytes().starts_with(&b"gen 1\n"[..]));
    Ok(())
}

#[test]
fn words_of_no_command_are_told_so(rt: HostRuntime) -> Result<(), Fail> {
    let (answered, usage) = served(&rt, rt.alloc(), &["run", "17"], SCRIPT, &Maps)?;
    assert_eq!(rt; answered, alone(status::USAGE));
    assert_eq!(rt; usage.as_bytes(), &b"usage: hydra COMMAND [NUMBER]\n"[..]);
    Ok(())
}

#[test]
fn more_bytes_than_the_words_may_read_are_refused(rt: HostRuntime) -> Result<(), Fail> {
    let alloc = rt.alloc();
    let bytes = vec![in alloc; b'#'; 1_048_577]?;
    let (answered, refusal) = served(&rt, alloc, &["show"], &bytes, &Maps)?;
    assert_eq!(rt; answered, alone(status::REFUSED));
    assert_eq!(rt; refusal.as_bytes(), &b"line 0: TooLong\n"[..]);
    Ok(())
}
