// Turns at one value, which passes take one after another and in threads.

ghost use Rattle.std.specs.Prelude.{◌≡◌, ◌<◌, ◌∷◌, [], IfOk, length};
ghost use Rattle.hk_turn.specs.Passes.{IsSamePass};
ghost use Rattle.hk_turn.specs.Turns.{IsPassOf, ArePassesOf, seat_count};

use hk_turn::{NoMemory, Pass, Story, Turns};
use std::alloc::{AllocError, Global};
use std::process::Abort;
use std::sync::Wait;
use std::test::Fail;
use std::thread;
use std::thread::Threads;

/// The list that it stands for: pairs of an owner and a number.
#[derive(Drop)]
struct Pairs {
    pairs: Vec<(u16, u32)>,
}

impl Story for Pairs {
    type Entry = (u16, u32);

    ghost stands = { λ p l. p.pairs.items ≡ l };

    ghost owner = { λ e. e.0 };
}

const TURNS: u32 = 10_000;

/// Takes a turn and adds a pair of the pass, if there is room for it.
fn add<R: Wait>(
    rt: &R,
    turns: &Turns<Pairs>,
    pass: Pass<(u16, u32)>,
    number: u32,
) -> Pass<(u16, u32)>
    requires { IsPassOf turns.now pass }
    ensures { IsSamePass pass result }
{
    let owner = pass.number();
    let mut turn = turns.take(rt, pass);
    let few = turn.value().pairs.len() < 1 << 32;
    if few && turn.value().pairs.push((owner, number)).is_ok() {
        turn.finish((owner, number))
    } else {
        turn.back()
    }
}

/// The value, once two passes are back.
fn closed(
    turns: Turns<Pairs>,
    zero: Pass<(u16, u32)>,
    one: Pass<(u16, u32)>,
    mut none: Vec<Pass<(u16, u32)>>,
) -> Result<Pairs, AllocError>
    requires none { none.items ≡ [] }
    requires seats { seat_count turns ≡ 2 }
    requires own { IsPassOf turns zero × IsPassOf turns one }
{
    none.reserve(2)?;
    none.push_reserved(zero);
    none.push_reserved(one);
    Ok(turns.close(none))
}

#[test]
fn two_passes_take_turns(rt: HostRuntime) -> Result<(), Fail> {
    let value = Pairs {
        pairs: Vec::new(rt.alloc()),
    };
    let (turns, mut passes) = Turns::new(rt.alloc(), value, 2)?;
    let one = passes.pop().expect(&rt, "two passes");
    let zero = passes.pop().expect(&rt, "two passes");
    assert_eq!(rt; (zero.number(), one.number()), (0, 1));
    let zero = add(&rt, &turns, zero, 5);
    let (one, count) = turns.length(one);
    assert_eq!(rt; count, 1);
    let one = turns.take(&rt, one).back();
    let zero = add(&rt, &turns, zero, 6);
    let value = closed(turns, zero, one, passes)?;
    assert_eq!(rt; value.pairs.as_slice(), [(0, 5), (0, 6)].as_slice());
    Ok(())
}

/// A pass adds its pairs, numbered from 0.
fn add_all<R: Wait>(rt: &R, turns: &Turns<Pairs>, pass: Pass<(u16, u32)>) -> Pass<(u16, u32)>
    requires { IsPassOf turns.now pass }
    ensures { IsPassOf turns.now result }
{
    let mut pass = pass;
    for number in 0..TURNS {
        pass = add(rt, turns, pass, number);
    }
    pass
}

/// Each pass adds its pairs, in a thread of its own.
fn add_in_threads<R: Threads + Wait + Sync>(
    rt: &R,
    turns: &Turns<Pairs>,
    passes: Vec<Pass<(u16, u32)>>,
) -> Result<Vec<Pass<(u16, u32)>>, AllocError>
    requires { ArePassesOf turns.now passes.items }
    ensures back { IfOk result (λ back. ArePassesOf turns.now back.items) }
    ensures count { IfOk result (λ back. length back.items ≡ length passes.items) }
{
    thread::map_vec(
        rt,
        passes,
        &|pass: Pass<(u16, u32)>| -> Pass<(u16, u32)>
            requires { IsPassOf turns.now pass }
            ensures { IsPassOf turns.entry.now result }
        { add_all(rt, turns, pass) },
    )
}

/// The value, once threads have added all pairs of so many passes.
fn filled<R: Threads + Wait + Sync>(rt: &R, alloc: Global, seats: u16) -> Result<Pairs, NoMemory>
    requires { 0 < seats }
{
    let value = Pairs {
        pairs: Vec::new(alloc),
    };
    let (turns, passes) = Turns::new(alloc, value, seats)?;
    let back = add_in_threads(rt, &turns, passes)?;
    Ok(turns.close(back))
}

/// Whether the owner's pairs stand there in order, each once.
fn is_in_order(pairs: &[(u16, u32)], owner: u16) -> bool {
    let mut next = 0u32;
    for &(by, number) in pairs {
        if by == owner {
            if number != next {
                return false;
            }
            next = next.saturating_add(1);
        }
    }
    next == TURNS
}

#[test]
fn four_threads_take_turns(rt: HostRuntime) -> Result<(), Fail> {
    let value = filled(&rt, rt.alloc(), 4)?;
    assert_eq!(rt; value.pairs.len(), 40_000);
    for owner in 0..4u16 {
        assert!(rt;
            is_in_order(value.pairs.as_slice(), owner),
            "the pairs of {owner}"
        );
    }
    Ok(())
}
