// What stands in the kernel that a run gives back.

use crate::commands::run_word;
use hk_io::{SureBytes, SureOut};
use hk_model::{Kernel, Seen, Snapshot};
use hk_top::{Maker, Maps, Slots, answer};
use std::alloc::Global;
use std::test::Fail;

/// A process whose objects, each with the one before in its list, fill the table, until it returns.
const CHAIN: &[u8] =
    b"hydra 1\nlimit 200000\ncode main\nlabel l0\ncreate 0 1\nifdenied l5\nappend 1 2\nload 1 2\ngoto l0\nlabel l5\nend\nprocess a main\ncreate UNIVERSAL LOAD+APPEND+MODIFY+ENV+UNCONF\nend\n";

/// A process that makes 65,530 objects, each of which names itself alone, so that the full table is collected.
const CYCLES: &[u8] =
    b"hydra 1\nlimit 200000\ncode main\nlabel l0\ncreate 0 1\nappend 1 1\nadd r0 1\niflt r0 65530 l0\nend\nprocess a main\ncreate UNIVERSAL APPEND+MODIFY+ENV\nend\n";

/// A confined call whose own object is given a way to `y`, by which it writes a word there.
const WORD: &[u8] =
    b"hydra 1\nobject hub UNIVERSAL\nempty\nend\nobject y DATA\nwords 1\nend\nprocedure p cp\nparam UNIVERSAL STORE STORE+MODIFY\ncreate UNIVERSAL LOAD+STORE+APPEND+MODIFY+ENV+UNCONF\nend\ncode cp\ncreate 1 2\nstore 0 0 2\nyield\nputdata 2.0 0 5\nend\ncode main\ncall 1 0 2\nend\ncode other\nappend 0.0 1\nend\nprocess a main\ncap hub STORE+MODIFY+ENV\ncap p A0\nend\nprocess b other\ncap hub LOAD+ENV+UNCONF\ncap y PUTDATA+MODIFY+ENV+UNCONF\nend\n";

/// The state of a kernel, where there is one, and memory to show it.
fn state_of<K: Kernel>(alloc: Global, kernel: Option<K>) -> Option<Snapshot> {
    match kernel?.snapshot(alloc) {
        Ok(shown) => Some(shown),
        Err(_) => None,
    }
}

/// The state of the kernel that the run of a script gives back.
fn left_by<M: Maker>(alloc: Global, script: &[u8], kernels: &M) -> Result<Snapshot, Fail> {
    let run = run_word(alloc)?;
    let mut input = SureBytes::new(script.to_vec(alloc)?);
    let mut output = SureOut::new();
    let (_status, kernel) = answer(alloc, &run, &mut input, &mut output, kernels);
    Ok(state_of(alloc, kernel).ok_or("a kernel")?)
}

/// Whether the objects of these names stand, and no others.
fn stand(objects: &[Seen], names: &[u64]) -> bool {
    if objects.len() != names.len() {
        return false;
    }
    for (object, name) in objects.iter().zip(names) {
        if object.name.0 != *name {
            return false;
        }
    }
    true
}

/// Whether an object of this name stands with these words.
fn stands_with(objects: &[Seen], name: u64, words: &[u32]) -> bool {
    for object in objects {
        if object.name.0 == name {
            return object.words.as_slice() == words;
        }
    }
    false
}

#[test]
fn a_chain_that_fills_the_table_goes_with_its_last_name(rt: HostRuntime) -> Result<(), Fail> {
    let left = left_by(rt.alloc(), CHAIN, &Slots)?;
    assert!(rt; stand(left.objects.as_slice(), &[0, 1, 2, 3, 4, 5, 6]));
    Ok(())
}

#[test]
fn cycles_that_nothing_reaches_are_collected(rt: HostRuntime) -> Result<(), Fail> {
    let left = left_by(rt.alloc(), CYCLES, &Slots)?;
    let names = [0, 1, 2, 3, 4, 5, 6, 65535, 65536];
    assert!(rt; stand(left.objects.as_slice(), &names));
    Ok(())
}

#[test]
fn a_confined_call_has_written_where_it_was_given_a_way(rt: HostRuntime) -> Result<(), Fail> {
    let by_maps = left_by(rt.alloc(), WORD, &Maps)?;
    let by_slots = left_by(rt.alloc(), WORD, &Slots)?;
    assert!(rt; stands_with(by_maps.objects.as_slice(), 8, &[5]));
    assert!(rt; stands_with(by_slots.objects.as_slice(), 8, &[5]));
    Ok(())
}
