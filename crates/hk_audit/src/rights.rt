//! Sets of rights in their canonical spelling (`docs/FORMATS.md`, "Rights").

ghost use Rattle.std.specs.Prelude.{◌≡◌, ◌==◌, false, map};
ghost use Rattle.std.specs.List.{filter, join_with_byte, slice_split};
ghost use Rattle.hk_rights.specs.Rights.{has, IsRightsWord, name_of, number_named, right_numbers};
ghost use Rattle.hk_model.specs.Labels.{same_text};
ghost use Rattle.hk_format.specs.RightsTexts.{rights_spelled, rights_text};
ghost use Rattle.hk_audit.specs.TextPieces.{canonical_rights};
ghost use Rattle.hk_audit.specs.Names.{same_texts};

use crate::parts::Parts;
use hk_load::rights_spelled;
use hk_print::{RIGHT_NUMBERS, right_of};
use hk_rights::{Right, Rights};

/// The set of which the text is the canonical spelling, if there is one.
pub fn rights_in(text: &[u8]) -> Option<Rights>
    ensures { result ≡ canonical_rights text.now }
{
    let rights = rights_meant(text)?;
    if is_spelling(rights, text) {
        Some(rights)
    } else {
        None
    }
}

/// The set that the text means, in any spelling.
fn rights_meant(text: &[u8]) -> Option<Rights>
    ensures { result ≡ rights_spelled text.now }
{
    match std::str::from_utf8(text) {
        Ok(text) => rights_spelled(text),
        Err(_) => None,
    }
}

/// The right of this name.
pub fn right_in(name: &[u8]) -> Option<Right>
    ensures { result ≡ number_named name.now }
{
    match std::str::from_utf8(name) {
        Ok(name) => Right::by_name(name),
        Err(_) => None,
    }
}

/// Whether the text is the canonical spelling of the set.
#[tactic(auto, unfolding(hk_format::specs::RightsTexts::rights_text))]
fn is_spelling(rights: Rights, text: &[u8]) -> bool
    ensures { result ≡ same_text (rights_text rights) text.now }
{
    if rights.bits() == 0 {
        return b"-".as_slice() == text;
    }
    if rights == Rights::all() {
        return b"ALL".as_slice() == text;
    }
    are_names(rights, text)
}

/// Whether the text is the names of the rights of the set, by rising number and joined by `+`.
#[tactic(auto, unfolding(hk_rights::specs::Rights::right_numbers, hk_rights::specs::Rights::right_table))]
fn are_names(rights: Rights, text: &[u8]) -> bool
    requires set { IsRightsWord rights }
    requires some { (rights == 0) ≡ false }
    ensures { result ≡ same_text (join_with_byte 43 (map name_of (filter (has rights) right_numbers))) text.now }
{
    are_names_among(&RIGHT_NUMBERS, rights, text)
}

/// Whether the texts that `+` joins are the names of those of these rights that the set has.
fn are_names_among(numbers: &[u8], rights: Rights, text: &[u8]) -> bool
    requires { IsRightsWord rights }
    ensures { result ≡ same_texts (map name_of (filter (has rights) numbers.now)) (slice_split (λ b. b == 43) text.now) }
{
    let mut parts = Parts::new(text, b'+');
    for number in numbers {
        if let Some(right) = right_of(rights, *number) {
            match parts.next() {
                Ok(name) => {
                    if right.name().as_bytes() != name {
                        return false;
                    }
                }
                Err(_) => return false,
            }
        }
    }
    parts.is_read()
}
