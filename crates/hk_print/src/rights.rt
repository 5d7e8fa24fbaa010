//! How a set of rights is spelled (`docs/FORMATS.md`, "Rights").

ghost use Rattle.std.specs.Prelude.{◌≡◌, ◌++◌, ◌∷◌, IfOk, OnOk, string_bytes, Some, None, map, if◌then◌else◌};
ghost use Rattle.std.specs.List.{filter, join_with_byte};
ghost use Rattle.hk_rights.specs.Rights.{has, IsRightsWord, name_of, right_numbers};
ghost use Rattle.hk_format.specs.RightsTexts.{rights_text};

use hk_model::NoMemory;
use hk_rights::{Right, Rights};
use std::alloc::Global;

/// The canonical spelling of a set: `-` for none, `ALL` for all 19, else each name once by rising
/// number, joined by `+`. The only error is want of memory.
pub fn rights_text(alloc: Global, rights: Rights) -> Result<String, NoMemory>
    ensures { IfOk result (λ t. string_bytes t ≡ rights_text rights) }
{
    let mut out = String::new(alloc);
    write_rights(&mut out, rights)?;
    Ok(out)
}

/// Writes the canonical spelling of a set. The only error is want of memory.
#[tactic(auto, unfolding(hk_format::specs::RightsTexts::rights_text))]
pub fn write_rights(out: &mut String, rights: Rights) -> Result<(), NoMemory>
    ensures { OnOk result (string_bytes out.new ≡ string_bytes out.old ++ rights_text rights) }
{
    if rights.bits() == 0 {
        out.push('-')?;
        return Ok(());
    }
    if rights == Rights::all() {
        out.push_str("ALL")?;
        return Ok(());
    }
    write_names(out, rights)
}

/// Writes a space and the canonical spelling of a set.
pub(crate) fn write_next_rights(out: &mut String, rights: Rights) -> Result<(), NoMemory>
    ensures { OnOk result (string_bytes out.new ≡ string_bytes out.old ++ 32 ∷ rights_text rights) }
{
    out.push(' ')?;
    write_rights(out, rights)
}

/// Writes what is checked and what is given, a space before each.
pub(crate) fn write_both(out: &mut String, check: Rights, give: Rights) -> Result<(), NoMemory>
    ensures { OnOk result (string_bytes out.new ≡ string_bytes out.old ++ 32 ∷ (rights_text check ++ 32 ∷ rights_text give)) }
{
    write_next_rights(out, check)?;
    write_next_rights(out, give)
}

/// Writes the names of the rights of a set, by rising number and joined by `+`.
#[tactic(auto, unfolding(hk_rights::specs::Rights::right_numbers, hk_rights::specs::Rights::right_table))]
fn write_names(out: &mut String, rights: Rights) -> Result<(), NoMemory>
    requires { IsRightsWord rights }
    ensures { OnOk result (string_bytes out.new ≡ string_bytes out.old ++ join_with_byte 43 (map name_of (filter (has rights) right_numbers))) }
{
    write_names_among(out, &RIGHT_NUMBERS, rights)
}

/// The numbers of the rights, rising (`docs/RULES.md`, "Rights").
pub const RIGHT_NUMBERS: [u8; 19] = [
    0, 1, 2, 3, 4, 5, 6, 7, 8, 9, 10, 16, 17, 18, 19, 20, 21, 22, 23,
];

/// Writes the names of those of these rights that a set has, joined by `+`.
fn write_names_among(out: &mut String, numbers: &[u8], rights: Rights) -> Result<(), NoMemory>
    requires { IsRightsWord rights }
    ensures { OnOk result (string_bytes out.new ≡ string_bytes out.old ++ join_with_byte 43 (map name_of (filter (has rights) numbers.now))) }
{
    let mut separator = "";
    for number in numbers {
        if let Some(right) = right_of(rights, *number) {
            push_name(out, separator, right)?;
            separator = "+";
        }
    }
    Ok(())
}

/// The right of this number, if a set has it.
pub fn right_of(rights: Rights, number: u8) -> Option<Right>
    requires { IsRightsWord rights }
    ensures { result ≡ (if has rights number then Some number else None) }
{
    match Right::new(number) {
        Some(right) => { if rights.has(right) { Some(right) } else { None } }
        None => None,
    }
}

/// Writes a separator and the name of a right.
fn push_name(out: &mut String, separator: &str, right: Right) -> Result<(), NoMemory>
    ensures { OnOk result (string_bytes out.new ≡ string_bytes out.old ++ (separator.now ++ name_of right)) }
{
    out.push_str(separator)?;
    out.push_str(right.name())?;
    Ok(())
}
