//! The items of processes (`docs/FORMATS.md`, "Canonical script").

ghost use Rattle.std.specs.Prelude.{◌≡◌, ◌++◌, OnOk, string_bytes};
ghost use Rattle.std.specs.List.{flat_map};
ghost use Rattle.hk_model.specs.declared.world.Task.{Task};
ghost use Rattle.hk_model.specs.WorldValue.{IsTask};
ghost use Rattle.hk_format.specs.Names.{spoken};
ghost use Rattle.hk_format.specs.Canonical.{task_item};
ghost use Rattle.hk_print.specs.ItemTexts.{item_text};

use crate::entries::write_entries;
use crate::heads::write_head;
use crate::labels::code_label;
use hk_model::{NoMemory, Task, World};

/// Writes the items of all processes of a world.
pub(crate) fn write_processes(out: &mut String, world: &World) -> Result<(), NoMemory>
    ensures { OnOk result (string_bytes out.new ≡ string_bytes out.old ++ flat_map (λ (t : Task). item_text (task_item (spoken world.now) t)) world.now.tasks) }
{
    for process in world.tasks() {
        write_process(out, world, process)?;
    }
    Ok(())
}

/// Writes the item of a process.
fn write_process(out: &mut String, world: &World, process: &Task) -> Result<(), NoMemory>
    requires { IsTask world.now process.now }
    ensures { OnOk result (string_bytes out.new ≡ string_bytes out.old ++ item_text (task_item (spoken world.now) process.now)) }
{
    let label = process.label.as_str();
    let code = code_label(world, process.code);
    write_head(out, "process ", label, code)?;
    write_entries(out, world, process.slots.as_slice())?;
    out.push_str("end\n")?;
    Ok(())
}
