// Runs call by call, each by both kernels. A kernel is handed to functions over any kernel as it is made, which let it go: who lets go
// of one by its type has to prove anew how each of its parts is let go, which takes long.

use crate::worlds::world;
use hk_model::{Call, Cpu, Inc, Kernel, Name, Path, Proc, Refusal, Reply, Slot, Snapshot, World};
use hk_plain::Plain;
use hk_rights::Right;
use hk_table::Table;
use std::alloc::Global;
use std::test::Fail;

/// One DATA object with the word 7, and a process that may read it and make lists.
const SCRIPT: &[u8] =
    b"hydra 1\nobject d DATA\nwords 7\nend\ncode main\nend\nprocess a main\ncap d GETDATA\ncreate UNIVERSAL APPEND+MODIFY+ENV\nend\n";

/// The plain kernel in which a world opens.
fn plain(alloc: Global, world: &World) -> Result<Plain, Fail> {
    match Plain::new(alloc, world) {
        Ok(kernel) => Ok(kernel),
        Err(_) => Err("a plain kernel".into()),
    }
}

/// The table in which a world opens.
fn table(alloc: Global, world: &World) -> Result<Table, Fail> {
    match Table::new(alloc, world) {
        Ok(kernel) => Ok(kernel),
        Err(_) => Err("a table".into()),
    }
}

/// How many objects stand, where there is memory to show them.
fn objects<K: Kernel>(alloc: Global, kernel: &K) -> Option<usize> {
    match kernel.snapshot(alloc) {
        Ok(shown) => Some(shown.objects.len()),
        Err(_) => None,
    }
}

/// The process that processor 0 is given, if it runs none.
fn dispatched<K: Kernel>(kernel: &mut K) -> Option<Proc> {
    if kernel.current(Cpu(0)).is_some() || kernel.limit_reached() {
        return None;
    }
    kernel.dispatch(Cpu(0))
}

/// The reply to a call of the process that processor 0 runs.
fn reply_to<K: Kernel>(alloc: Global, kernel: &mut K, call: Call) -> Option<Reply> {
    if kernel.current(Cpu(0)).is_none() || kernel.limit_reached() {
        return None;
    }
    match kernel.act(alloc, Cpu(0), call) {
        Ok(acted) => Some(acted.reply),
        Err(_) => None,
    }
}

/// The process that processor 0 runs, and its incarnation.
fn current<K: Kernel>(kernel: &K) -> Option<(Proc, Inc)> {
    kernel.current(Cpu(0))
}

/// Whether nothing is left to run.
fn over<K: Kernel>(kernel: &K) -> bool {
    kernel.over()
}

/// Halts the process that processor 0 runs.
fn halt<K: Kernel>(kernel: &mut K) {
    if kernel.current(Cpu(0)).is_some() && !kernel.limit_reached() {
        kernel.halt(Cpu(0));
    }
}

/// What an opening shows: how many objects, whether the last of them is the script's, how many slots the first base has, and whether
/// the process is the first that is ready and the next name is the one behind the object's.
#[derive(Clone, Copy)]
struct Shown {
    objects: usize,
    is_last: bool,
    slots: usize,
    is_ready: bool,
    is_next: bool,
}

/// Whether the last object is the script's, by its name, its type and its word.
fn is_last(shown: &Snapshot) -> bool {
    match shown.objects.as_slice().last() {
        Some(last) => {
            last.name == Name(7) && last.of == Name(1) && last.words.as_slice() == [7].as_slice()
        }
        None => false,
    }
}

/// How many slots the first base has.
fn first_slots(shown: &Snapshot) -> usize {
    match shown.incarnations.as_slice().first() {
        Some(base) => base.slots.len(),
        None => 0,
    }
}

/// Whether the process is the first that is ready.
fn is_ready(shown: &Snapshot) -> bool {
    match shown.ready.as_slice().first() {
        Some(first) => *first == Proc(0),
        None => false,
    }
}

/// What a state shows.
fn told(shown: &Snapshot) -> Shown {
    Shown {
        objects: shown.objects.len(),
        is_last: is_last(shown),
        slots: first_slots(shown),
        is_ready: is_ready(shown),
        is_next: shown.next_name == Name(8),
    }
}

/// What the state in which a kernel opened shows, where there is memory to show it.
fn opening<K: Kernel>(alloc: Global, kernel: K) -> Option<Shown> {
    match kernel.snapshot(alloc) {
        Ok(shown) => Some(told(&shown)),
        Err(_) => None,
    }
}

/// What the opening shows, by each kernel.
fn openings(alloc: Global) -> Result<[Option<Shown>; 2], Fail> {
    let world = world(alloc, SCRIPT)?;
    let by_plain = opening(alloc, plain(alloc, &world)?);
    let by_table = opening(alloc, table(alloc, &world)?);
    Ok([by_plain, by_table])
}

#[test]
fn the_opening_shows_the_object(rt: HostRuntime) -> Result<(), Fail> {
    for opening in openings(rt.alloc())? {
        let shown = opening.ok_or("a snapshot")?;
        assert_eq!(rt; shown.objects, 8);
        assert!(rt; shown.is_last);
        assert_eq!(rt; shown.slots, 64);
        assert!(rt; shown.is_ready);
        assert!(rt; shown.is_next);
    }
    Ok(())
}

/// Whether the process is given to processor 0, with its base incarnation.
fn is_given<K: Kernel>(kernel: &mut K) -> bool {
    dispatched(kernel) == Some(Proc(0)) && current(kernel) == Some((Proc(0), Inc(0)))
}

/// Whether the word of the object is read.
fn is_read<K: Kernel>(alloc: Global, kernel: &mut K) -> bool {
    match Path::new(&[0]) {
        Some(of) => reply_to(alloc, kernel, Call::Get { of, at: 0 }) == Some(Reply::Word(7)),
        None => false,
    }
}

/// Whether no word may be added to the object.
fn is_kept<K: Kernel>(alloc: Global, kernel: &mut K) -> bool {
    let denied = Refusal::Denied {
        step: 0,
        right: Right::ADDDATA,
    };
    match Path::new(&[0]) {
        Some(of) => {
            reply_to(alloc, kernel, Call::Add { of, word: 8 }) == Some(Reply::No(denied))
        }
        None => false,
    }
}

/// Whether the process is all that there is to run.
fn is_halted<K: Kernel>(kernel: &mut K) -> bool {
    let before = over(kernel);
    halt(kernel);
    !before && over(kernel)
}

/// How the smallest run goes.
#[derive(Clone, Copy)]
struct Run {
    given: bool,
    read: bool,
    kept: bool,
    halted: bool,
}

/// The smallest run.
fn smallest_run<K: Kernel>(alloc: Global, kernel: K) -> Run {
    let mut kernel = kernel;
    Run {
        given: is_given(&mut kernel),
        read: is_read(alloc, &mut kernel),
        kept: is_kept(alloc, &mut kernel),
        halted: is_halted(&mut kernel),
    }
}

/// The smallest run, by each kernel.
fn smallest_runs(alloc: Global) -> Result<[Run; 2], Fail> {
    let world = world(alloc, SCRIPT)?;
    let by_plain = smallest_run(alloc, plain(alloc, &world)?);
    let by_table = smallest_run(alloc, table(alloc, &world)?);
    Ok([by_plain, by_table])
}

#[test]
fn a_process_reads_and_is_halted(rt: HostRuntime) -> Result<(), Fail> {
    for run in smallest_runs(rt.alloc())? {
        assert!(rt; run.given);
        assert!(rt; run.read);
        assert!(rt; run.kept);
        assert!(rt; run.halted);
    }
    Ok(())
}

/// Makes a list in slot 2.
fn make_list<K: Kernel>(alloc: Global, kernel: &mut K) {
    let _given = dispatched(kernel);
    if let Some(by) = Path::new(&[1]) {
        let into = Slot(2);
        let _made = reply_to(alloc, kernel, Call::Create { by, into });
    }
}

/// The list names itself.
fn name_itself<K: Kernel>(alloc: Global, kernel: &mut K) {
    if let Some(list) = Path::new(&[2]) {
        let from = Slot(2);
        let _named = reply_to(alloc, kernel, Call::Append { list, from });
    }
}

/// How many objects stand with a new list, which may name itself.
fn with_list<K: Kernel>(alloc: Global, kernel: &mut K, naming_itself: bool) -> Option<usize> {
    make_list(alloc, kernel);
    if naming_itself {
        name_itself(alloc, kernel);
    }
    objects(alloc, kernel)
}

/// How many objects stand once the slot with the list is empty.
fn without_slot<K: Kernel>(alloc: Global, kernel: &mut K) -> Option<usize> {
    let slot = Slot(2);
    let _dropped = reply_to(alloc, kernel, Call::Drop { slot });
    objects(alloc, kernel)
}

/// How many objects stand before and after the last name of a list outside it is gone.
#[derive(Clone, Copy)]
struct ListCounts {
    with: Option<usize>,
    without: Option<usize>,
}

/// How many stand before and after.
fn list_counts<K: Kernel>(alloc: Global, kernel: K, naming_itself: bool) -> ListCounts {
    let mut kernel = kernel;
    ListCounts {
        with: with_list(alloc, &mut kernel, naming_itself),
        without: without_slot(alloc, &mut kernel),
    }
}

/// The same, by each kernel.
fn by_each(alloc: Global, naming_itself: bool) -> Result<[ListCounts; 2], Fail> {
    let world = world(alloc, SCRIPT)?;
    let by_plain = list_counts(alloc, plain(alloc, &world)?, naming_itself);
    let by_table = list_counts(alloc, table(alloc, &world)?, naming_itself);
    Ok([by_plain, by_table])
}

#[test]
fn an_object_vanishes_with_its_last_name(rt: HostRuntime) -> Result<(), Fail> {
    for counts in by_each(rt.alloc(), false)? {
        assert!(rt; counts.with == Some(9));
        assert!(rt; counts.without == Some(8));
    }
    Ok(())
}

#[test]
fn an_object_that_names_itself_stays(rt: HostRuntime) -> Result<(), Fail> {
    for counts in by_each(rt.alloc(), true)? {
        assert!(rt; counts.with == Some(9));
        assert!(rt; counts.without == Some(9));
    }
    Ok(())
}
