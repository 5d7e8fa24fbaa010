//! The canonical script of a world (`docs/FORMATS.md`, "Canonical script").

ghost use Rattle.std.specs.Prelude.{◌≡◌, ◌++◌, OnOk, IfOk, string_bytes};
ghost use Rattle.std.specs.List.{flat_map};
ghost use Rattle.hk_format.specs.Canonical.{canon, limit_items};
ghost use Rattle.hk_print.specs.ItemTexts.{item_text};

use crate::codes::write_codes;
use crate::numbers::write_number;
use crate::objects::write_objects;
use crate::processes::write_processes;
use hk_model::limits::USUAL_LIMIT;
use hk_model::{NoMemory, Text, World};
use std::alloc::Global;

/// The canonical script of a world: the one script in the canonical form that declares this world.
/// The only error is want of memory.
#[tactic(auto, using(crate::proofs::ItemByItem::canon_is))]
pub fn script_text(alloc: Global, world: &World) -> Result<Text, NoMemory>
    ensures { IfOk result (λ text. text ≡ canon world.now) }
{
    let mut out = String::from_str(alloc, "hydra 1\n")?;
    write_limit(&mut out, world.limit())?;
    write_objects(&mut out, world)?;
    write_codes(alloc, &mut out, world)?;
    write_processes(&mut out, world)?;
    Ok(Text::from_string(out)?)
}

/// Writes the limit, where it is not the usual one.
fn write_limit(out: &mut String, limit: u32) -> Result<(), NoMemory>
    ensures { OnOk result (string_bytes out.new ≡ string_bytes out.old ++ flat_map item_text (limit_items limit)) }
{
    if limit != USUAL_LIMIT {
        out.push_str("limit ")?;
        write_number(out, limit as u64)?;
        out.push('\n')?;
    }
    Ok(())
}
