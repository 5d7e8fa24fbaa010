//! The processes of a generated world (`docs/FORMATS.md`, "Generated worlds").

ghost use Rattle.std.specs.Prelude.{◌≡◌, IfOk};
ghost use Rattle.hk_model.specs.Generated.{capability, main_slots, process_numbered, processes_from, MODIFY+A0+A1};

use crate::contents::changing;
use hk_model::{Cap, Entries, Entry, Items, Name, Task, Text};
use hk_rights::Rights;
use std::alloc::{AllocError, Global};

/// MODIFY, A0 and A1, to take and give the tokens of a semaphore.
fn taking_and_giving() -> Rights
    ensures { result ≡ MODIFY+A0+A1 }
{
    Rights::MODIFY_A0.union(Rights::A1)
}

/// A capability.
fn capability(object: u64, rights: Rights) -> Entry
    ensures { result ≡ capability object rights }
{
    Entry::Held(Cap {
        name: Name(object),
        rights,
    })
}

/// What each process holds: the procedure, the word and the lock.
fn slots(alloc: Global) -> Result<Entries, AllocError>
    ensures { IfOk result (λ slots. slots ≡ main_slots) }
{
    let mut slots = Entries::new(alloc);
    slots.push(capability(9, Rights::A0))?;
    slots.push(capability(7, changing()))?;
    slots.push(capability(8, taking_and_giving()))?;
    Ok(slots)
}

/// The process of this number, whose label is `w` with the number.
fn process(alloc: Global, number: u32) -> Result<Task, AllocError>
    ensures { IfOk result (λ task. task ≡ process_numbered number) }
{
    Ok(Task {
        label: Text::from_string(format!(in alloc; "w{number}")?)?,
        code: 1,
        slots: slots(alloc)?,
    })
}

/// So many processes, numbered from 0.
pub(crate) fn processes(alloc: Global, count: u32) -> Result<Items<Task>, AllocError>
    ensures { IfOk result (λ tasks. tasks ≡ processes_from 0 count) }
{
    let mut tasks = Items::new(alloc);
    for number in 0..count {
        tasks.push(process(alloc, number)?)?;
    }
    Ok(tasks)
}
