//! Texts of rights (`docs/FORMATS.md`, "Rights").

ghost use Rattle.std.specs.Prelude.{◌≡◌};
ghost use Rattle.hk_format.specs.RightsTexts.{rights_spelled, union_of};
ghost use Rattle.hk_format.specs.Loading.{rights_named};
ghost use Rattle.hk_format.specs.Outcomes.{Gives};
ghost use Rattle.hk_load.specs.Texts.{names_in};

use crate::errors::LineError;
use hk_format::LoadCause;
use hk_model::Text;
use hk_rights::{Right, Rights};

/// The set of rights that the text means. BadRights where a name is no right's.
pub fn rights(text: &Text) -> Result<Rights, LineError>
    ensures { Gives (λ x. x) result (rights_named text.now) }
{
    rights_spelled(text.as_str()).ok_or(LineError::Bad(LoadCause::BadRights))
}

/// The set of rights that a text means (`docs/FORMATS.md`, "Rights"): none for a dash, all for `ALL`,
/// and else those of the names that `+` joins. None where a name is no right's.
#[tactic(auto, unfolding(hk_format::specs::RightsTexts::rights_spelled))]
pub fn rights_spelled(text: &str) -> Option<Rights>
    ensures { result ≡ rights_spelled text.now }
{
    let bytes = text.as_bytes();
    if bytes == b"-".as_slice() {
        return Some(Rights::none());
    }
    if bytes == b"ALL".as_slice() {
        return Some(Rights::all());
    }
    union_of(text)
}

/// The rights of the names that `+` joins. None where a name is no right's.
fn union_of(names: &str) -> Option<Rights>
    ensures { result ≡ union_of (names_in names.now) }
{
    let mut rights = Rights::none();
    for name in names.split('+') {
        rights = rights.union(Rights::one(Right::by_name(name)?));
    }
    Some(rights)
}
