//! The texts of entries and parameters, and their lines in a script (`docs/FORMATS.md`, "Grammar").

ghost use Rattle.std.specs.Prelude.{◌≡◌, ◌++◌, OnOk, string_bytes};
ghost use Rattle.std.specs.List.{AllByRecursion, flat_map};
ghost use Rattle.hk_model.specs.WorldValue.{IsEntry, IsParam};
ghost use Rattle.hk_model.specs.declared.entries.Entry.TheVariants.{Form};
ghost use Rattle.hk_format.specs.EntryTexts.{entry_text, param_text, AreSpelledIn, IsSpelledOrAny};
ghost use Rattle.hk_format.specs.Names.{spoken};
ghost use Rattle.hk_print.specs.ItemTexts.{entry_line, param_line};

use crate::rights::{write_both, write_rights};
use crate::spellers::{Speller, write_kind};
use hk_model::{Entry, NoMemory, Param, Template, World};

/// Writes a line for each entry.
pub(crate) fn write_entries(
    out: &mut String,
    world: &World,
    entries: &[Entry],
) -> Result<(), NoMemory>
    requires { AllByRecursion (IsEntry world.now) entries.now }
    ensures { OnOk result (string_bytes out.new ≡ string_bytes out.old ++ flat_map (entry_line (spoken world.now)) entries.now) }
{
    for entry in entries {
        write_entry_line(out, world, *entry)?;
    }
    Ok(())
}

/// Writes the line of an entry.
#[tactic(auto, using(crate::proofs::Spelled::entry_names))]
fn write_entry_line(out: &mut String, world: &World, entry: Entry) -> Result<(), NoMemory>
    requires { IsEntry world.now entry }
    ensures { OnOk result (string_bytes out.new ≡ string_bytes out.old ++ entry_line (spoken world.now) entry) }
{
    write_entry(out, world, entry)?;
    out.push('\n')?;
    Ok(())
}

/// Writes the text of an entry, without a line feed: `empty`, a capability or a template, in which
/// names are as the speller has them. The only error is want of memory.
pub fn write_entry<S: Speller>(out: &mut String, speller: &S, entry: Entry) -> Result<(), NoMemory>
    requires { AreSpelledIn (S.spells speller.now) entry }
    ensures { OnOk result (string_bytes out.new ≡ string_bytes out.old ++ entry_text (S.name_text speller.now) entry) }
{
    match entry {
        Entry::Empty => out.push_str("empty")?,
        Entry::Held(cap) => {
            out.push_str("cap ")?;
            speller.spell(out, cap.name)?;
            out.push(' ')?;
            write_rights(out, cap.rights)?;
        }
        Entry::Form(template) => write_template(out, speller, template)?,
    }
    Ok(())
}

/// Writes the text of a template.
fn write_template<S: Speller>(
    out: &mut String,
    speller: &S,
    template: Template,
) -> Result<(), NoMemory>
    requires { AreSpelledIn (S.spells speller.now) (Form template) }
    ensures { OnOk result (string_bytes out.new ≡ string_bytes out.old ++ entry_text (S.name_text speller.now) (Form template)) }
{
    match template {
        Template::Amplify { of, check, give } => {
            out.push_str("amplify ")?;
            write_kind(out, speller, of)?;
            write_both(out, check, give)?;
        }
        Template::Create { of, give } => {
            out.push_str("create ")?;
            speller.spell(out, of)?;
            out.push(' ')?;
            write_rights(out, give)?;
        }
    }
    Ok(())
}

/// Writes a line for each parameter.
pub(crate) fn write_params(
    out: &mut String,
    world: &World,
    params: &[Param],
) -> Result<(), NoMemory>
    requires { AllByRecursion (IsParam world.now) params.now }
    ensures { OnOk result (string_bytes out.new ≡ string_bytes out.old ++ flat_map (param_line (spoken world.now)) params.now) }
{
    for param in params {
        write_param_line(out, world, *param)?;
    }
    Ok(())
}

/// Writes the line of a parameter.
#[tactic(auto, using(crate::proofs::Spelled::kind_names))]
fn write_param_line(out: &mut String, world: &World, param: Param) -> Result<(), NoMemory>
    requires { IsParam world.now param }
    ensures { OnOk result (string_bytes out.new ≡ string_bytes out.old ++ param_line (spoken world.now) param) }
{
    write_param(out, world, param)?;
    out.push('\n')?;
    Ok(())
}

/// Writes the text of a parameter, without a line feed, in which names are as the speller has them.
/// The only error is want of memory.
pub fn write_param<S: Speller>(out: &mut String, speller: &S, param: Param) -> Result<(), NoMemory>
    requires { IsSpelledOrAny (S.spells speller.now) param.of }
    ensures { OnOk result (string_bytes out.new ≡ string_bytes out.old ++ param_text (S.name_text speller.now) param) }
{
    out.push_str("param ")?;
    write_kind(out, speller, param.of)?;
    write_both(out, param.check, param.give)?;
    Ok(())
}
