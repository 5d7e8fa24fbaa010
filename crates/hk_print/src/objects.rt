//! The items of objects (`docs/FORMATS.md`, "Canonical script").

ghost use Rattle.std.specs.Prelude.{◌≡◌, ◌++◌, ◌∷◌, [], OnOk, codes, string_bytes};
ghost use Rattle.std.specs.Fmt.{decimal};
ghost use Rattle.std.specs.List.{AllByRecursion, flat_map};
ghost use Rattle.hk_model.specs.declared.world.Born.{Born};
ghost use Rattle.hk_model.specs.declared.world.Kind.TheVariants as kind;
ghost use Rattle.hk_model.specs.WorldValue.{IsKind};
ghost use Rattle.hk_format.specs.Names.{spoken};
ghost use Rattle.hk_format.specs.Canonical.{object_item, kind_item};
ghost use Rattle.hk_print.specs.ItemTexts.{item_text};

use crate::entries::{write_entries, write_params};
use crate::heads::{write_head, write_name};
use crate::labels::{code_label, object_label};
use crate::numbers::write_next_number;
use crate::words::write_words;
use hk_model::{Born, Entries, Kind, Name, NoMemory, Params, Words, World};

/// Writes the items of all objects of a world.
pub(crate) fn write_objects(out: &mut String, world: &World) -> Result<(), NoMemory>
    ensures { OnOk result (string_bytes out.new ≡ string_bytes out.old ++ flat_map (λ (b : Born). item_text (object_item (spoken world.now) b)) world.now.objects) }
{
    for object in world.objects() {
        write_object(out, world, object)?;
    }
    Ok(())
}

/// Writes the item of an object.
fn write_object(out: &mut String, world: &World, object: &Born) -> Result<(), NoMemory>
    requires { IsKind world.now object.now.kind }
    ensures { OnOk result (string_bytes out.new ≡ string_bytes out.old ++ item_text (object_item (spoken world.now) object.now)) }
{
    let label = object.label.as_str();
    match &object.kind {
        Kind::TypeObject => write_name(out, "type ", label)?,
        Kind::Plain { of, words, entries } => write_plain(out, world, label, *of, words, entries)?,
        Kind::Semaphore { count } => write_semaphore(out, label, *count)?,
        Kind::Procedure {
            code,
            params,
            entries,
        } => write_procedure(out, world, label, *code, params, entries)?,
    }
    Ok(())
}

/// Writes a semaphore with its count.
fn write_semaphore(out: &mut String, label: &str, count: u32) -> Result<(), NoMemory>
    ensures { OnOk result (string_bytes out.new ≡ string_bytes out.old ++ codes "semaphore " ++ (label.now ++ 32 ∷ (decimal count ++ 10 ∷ []))) }
{
    out.push_str("semaphore ")?;
    out.push_str(label)?;
    write_next_number(out, count as u64)?;
    out.push('\n')?;
    Ok(())
}

/// Writes an object of DATA, of UNIVERSAL or of a type of the script: its words stand before its
/// entries.
fn write_plain(
    out: &mut String,
    world: &World,
    label: &str,
    of: Name,
    words: &Words,
    entries: &Entries,
) -> Result<(), NoMemory>
    requires { IsKind world.now (kind.Plain of words.now entries.now) }
    ensures { OnOk result (string_bytes out.new ≡ string_bytes out.old ++ item_text (kind_item (spoken world.now) label.now (kind.Plain of words.now entries.now))) }
{
    let of = object_label(world, of);
    write_head(out, "object ", label, of)?;
    write_words(out, words.as_slice())?;
    write_entries(out, world, entries.as_slice())?;
    out.push_str("end\n")?;
    Ok(())
}

/// Writes a procedure: its parameters stand before its entries.
fn write_procedure(
    out: &mut String,
    world: &World,
    label: &str,
    code: u16,
    params: &Params,
    entries: &Entries,
) -> Result<(), NoMemory>
    requires { IsKind world.now (kind.Procedure code params.now entries.now) }
    ensures { OnOk result (string_bytes out.new ≡ string_bytes out.old ++ item_text (kind_item (spoken world.now) label.now (kind.Procedure code params.now entries.now))) }
{
    let code = code_label(world, code);
    write_head(out, "procedure ", label, code)?;
    write_params(out, world, params.as_slice())?;
    write_entries(out, world, entries.as_slice())?;
    out.push_str("end\n")?;
    Ok(())
}
