//! A state as text (`docs/FORMATS.md`, "The text of a state").

ghost use Rattle.std.specs.Prelude.{◌≡◌, IfOk};
ghost use Rattle.hk_undo.specs.StateTexts.{state_text};

use crate::objects::write_objects;
use crate::places::write_queue;
use crate::processes::{write_incarnations, write_processes};
use hk_model::{NoMemory, Snapshot, Text};
use std::alloc::Global;

/// The text of the state after so many lines: `moment M`; the lines of each object but the kernel
/// types; those of each live incarnation; a line for each process; `ready P ..` where some process is
/// ready; and last `next NAME INC`. Names are numbers. NoMemory is want of memory.
pub fn state_text(alloc: Global, snapshot: &Snapshot, moment: u32) -> Result<Text, NoMemory>
    ensures { IfOk result (λ text. text ≡ state_text snapshot.now moment) }
{
    let mut out = String::new(alloc);
    write!(&mut out, "moment {moment}\n")?;
    write_objects(&mut out, snapshot.objects.as_slice())?;
    write_incarnations(&mut out, snapshot.incarnations.as_slice())?;
    write_processes(&mut out, snapshot.processes.as_slice())?;
    write_queue(&mut out, "ready", snapshot.ready.as_slice())?;
    let (name, inc) = (snapshot.next_name.0, snapshot.next_inc.0);
    write!(&mut out, "next {name} {inc}\n")?;
    Ok(Text::from_string(out)?)
}
