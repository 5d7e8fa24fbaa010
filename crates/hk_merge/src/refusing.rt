//! What the calls share: tests of capabilities and rights, and the rights that confinement leaves.

ghost use Rattle.std.specs.Prelude.{◌≡◌};
ghost use Rattle.hk_model.specs.Refusing.{allowed};
ghost use Rattle.hk_model.specs.Walking.{held, confined_rights};

use hk_model::{Cap, Entry, Refusal};
use hk_rights::Rights;

/// Whether all rights that are needed are there (`docs/RULES.md`, "The order of refusals").
///
/// `Denied` names the lowest right that is missing.
pub fn allowed(rights: Rights, need: Rights, step: u8) -> Result<(), Refusal>
    ensures { result ≡ allowed rights need step }
{
    match rights.first_missing(need) {
        None => Ok(()),
        Some(right) => Err(Refusal::Denied { step, right }),
    }
}

/// The capability of an entry (`docs/RULES.md`, "The order of refusals").
///
/// `Empty` where nothing stands, `NotCap` where a template stands.
pub fn held(entry: Entry, step: u8) -> Result<Cap, Refusal>
    ensures { result ≡ held entry step }
{
    match entry {
        Entry::Empty => Err(Refusal::Empty { step }),
        Entry::Form(_form) => Err(Refusal::NotCap { step }),
        Entry::Held(cap) => Ok(cap),
    }
}

/// The rights of a set that are neither MODIFY nor UNCONF (`docs/RULES.md`, "Reduction").
pub fn confined_rights(rights: Rights) -> Rights
    ensures { result ≡ confined_rights rights }
{
    rights.without(Rights::MODIFY.union(Rights::UNCONF))
}
