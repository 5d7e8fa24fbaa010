//! The state in which a world opens.

ghost use Rattle.std.specs.Prelude.{◌≡◌, ◌≤◌, ◌+◌, ◌-◌, ◌++◌, [], false, IfOk, length, map, replicate};
ghost use Rattle.std.specs.List.{list_any};
ghost use Rattle.hk_model.specs.declared.entries.Entry.TheVariants.{Empty};
ghost use Rattle.hk_model.specs.declared.objects.Process.{Process};
ghost use Rattle.hk_model.specs.declared.world.Born.{Born};
ghost use Rattle.hk_model.specs.State.{no_object};
ghost use Rattle.hk_model.specs.Processors.{is_running};
ghost use Rattle.hk_model.specs.Opening.{object_of, base_of, bases, all_ready, proc_numbers, opening};
ghost use Rattle.hk_plain.specs.Opening.{with_names};
ghost use Rattle.hk_plain.specs.Numbers.{FewNumbers};
ghost use Rattle.hk_plain.specs.Counts.{Moved, inner_names, slot_names};

use crate::counted::insert;
use crate::counts::Counts;
use crate::incarnations::Incarnations;
use crate::objects::plain_object;
use crate::tables::Tables;
use hk_model::{
    Born, Entries, Entry, Inc, Incarnation, Kind, Name, NoMemory, Object, Proc, Process,
    ProcessState, Slot, Task, Words, World,
};
use hk_running::Processes;
use std::alloc::{AllocError, Global};
use std::collections::{BTreeMap, VecDeque};

/// A type: an object of type TYPE, with nothing in it.
fn type_object(alloc: Global) -> Object
    ensures { result ≡ no_object }
{
    plain_object(alloc, Name(0), Words::new(alloc), Entries::new(alloc))
}

/// An object as it opens.
fn object_of(alloc: Global, kind: &Kind) -> Result<Object, AllocError>
    ensures { IfOk result (λ o. o ≡ object_of kind.now) }
{
    let mut object = type_object(alloc);
    match kind {
        Kind::TypeObject => {}
        Kind::Plain { of, words, entries } => {
            object.of = *of;
            object.words = words.copy(alloc)?;
            object.entries = entries.copy(alloc)?;
        }
        Kind::Semaphore { count } => {
            object.of = Name(3);
            object.count = *count;
        }
        Kind::Procedure {
            code,
            params,
            entries,
        } => {
            object.of = Name(4);
            object.code = Some(*code);
            object.params = params.copy(alloc)?;
            object.entries = entries.copy(alloc)?;
        }
    }
    Ok(object)
}

/// The kernel types, which have the names 0 to 6.
fn kernel_types(alloc: Global, counts: &mut Counts) -> Result<BTreeMap<Name, Object>, NoMemory>
    ensures objects { IfOk result (λ objects. objects.entries ≡ with_names (replicate 7 no_object)) }
    ensures counted { IfOk result (λ objects. Moved counts.old counts.new (inner_names objects.entries) []) }
{
    let mut objects = BTreeMap::new(alloc);
    for n in 0..7u64 {
        insert(&mut objects, Name(n), type_object(alloc), counts)?;
    }
    Ok(objects)
}

/// All objects, those of the script behind the kernel types.
fn objects_of(
    alloc: Global,
    born: &[Born],
    counts: &mut Counts,
) -> Result<BTreeMap<Name, Object>, NoMemory>
    ensures counted { IfOk result (λ objects. Moved counts.old counts.new (inner_names objects.entries) []) }
    ensures objects { IfOk result (λ objects. objects.entries ≡ with_names (replicate 7 no_object ++ map (λ (b : Born). object_of b.kind) born.now)) }
{
    let mut objects = kernel_types(alloc, counts)?;
    for (i, object) in born.iter().enumerate() {
        let object = object_of(alloc, &object.kind)?;
        insert(&mut objects, Name(7 + i as u64), object, counts)?;
    }
    Ok(objects)
}

/// The 64 slots of a base incarnation: the entries of its process, and then nothing.
fn base_slots(alloc: Global, entries: &Entries) -> Result<Entries, AllocError>
    ensures { IfOk result (λ slots. slots ≡ entries.now ++ replicate (64 - length entries.now) Empty) }
{
    let mut slots = entries.copy(alloc)?;
    let free = 64usize.saturating_sub(entries.len());
    for _ in 0..free {
        slots.push(Entry::Empty)?;
    }
    Ok(slots)
}

/// The base incarnation of a process.
fn base_of(alloc: Global, proc: Proc, task: &Task) -> Result<Incarnation, AllocError>
    ensures { IfOk result (λ base. base ≡ base_of proc task.now.slots) }
{
    let slots = base_slots(alloc, &task.slots)?;
    Ok(Incarnation {
        proc,
        procedure: None,
        caller: None,
        into: Slot(0),
        confined: false,
        slots,
    })
}

/// The base incarnations of all processes.
fn bases(alloc: Global, tasks: &[Task], counts: &mut Counts) -> Result<Incarnations, NoMemory>
    requires { length tasks.now ≤ 256 }
    ensures counted { IfOk result (λ all. Moved counts.old counts.new (slot_names all.live) []) }
    ensures incarnations { IfOk result (λ all. all ≡ record { live = bases 0 tasks.now; next = record { 0 = length tasks.now } }) }
{
    let mut all = Incarnations::new(alloc);
    for (n, task) in tasks.iter().enumerate() {
        let base = base_of(alloc, Proc(n as u16), task)?;
        all.add(alloc, base, counts)?;
    }
    Ok(all)
}

/// So many processes, all ready.
#[tactic(auto, using(crate::proofs::Numbered::next_ready))]
fn all_ready(alloc: Global, tasks: &[Task]) -> Result<Vec<Process>, NoMemory>
    ensures state { IfOk result (λ processes. processes.items ≡ all_ready 0 tasks.now) }
    ensures many { IfOk result (λ processes. length processes.items ≡ length tasks.now) }
    ensures rest { IfOk result (λ processes. list_any (λ (p : Process). is_running p.run) processes.items ≡ false) }
{
    let mut processes = Vec::new(alloc);
    for (n, _task) in tasks.iter().enumerate() {
        processes.push(Process {
            run: ProcessState::Ready,
            current: Inc(n as u64),
        })?;
    }
    Ok(processes)
}

/// The numbers of so many processes.
#[tactic(auto, using(crate::proofs::Numbered::next_number))]
fn proc_numbers(alloc: Global, tasks: &[Task]) -> Result<VecDeque<Proc>, NoMemory>
    requires { length tasks.now ≤ 256 }
    ensures { IfOk result (λ ready. ready.items ≡ proc_numbers 0 tasks.now) }
{
    let mut ready = VecDeque::new(alloc);
    for (n, _task) in tasks.iter().enumerate() {
        ready.push_back(Proc(n as u16))?;
    }
    Ok(ready)
}

/// The objects of a world.
fn born_of(world: &World) -> &[Born]
    ensures value { result.now ≡ world.now.objects }
    ensures few { length result.now ≤ 65529 }
{
    world.objects()
}

/// The processes of a world.
fn tasks_of(world: &World) -> &[Task]
    ensures value { result.now ≡ world.now.tasks }
    ensures few { length result.now ≤ 256 }
{
    world.tasks()
}

impl Tables {
    /// The state in which a world opens.
    #[tactic(auto, unfolding(hk_model::specs::Opening::opening))]
    pub(crate) fn open(alloc: Global, world: &World) -> Result<Tables, NoMemory>
        ensures state { IfOk result (λ tables. tables ≡ opening world.now) }
        ensures numbers { IfOk result (λ tables. FewNumbers tables) }
    {
        let born = born_of(world);
        let tasks = tasks_of(world);
        let mut counts = Counts::new(alloc, Name(7 + born.len() as u64));
        let objects = objects_of(alloc, born, &mut counts)?;
        let incarnations = bases(alloc, tasks, &mut counts)?;
        let processes = all_ready(alloc, tasks)?;
        let ready = proc_numbers(alloc, tasks)?;
        Ok(Tables {
            objects,
            incarnations,
            processes: Processes::new(processes),
            ready,
            next_name: Name(7 + born.len() as u64),
            counts,
            events: 0,
            limit: world.limit(),
        })
    }
}
