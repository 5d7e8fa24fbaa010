//! Numbers without leading zeros (`docs/FORMATS.md`, "Audit lines and records" and "Statuses and
//! outputs").

ghost use Rattle.std.specs.Prelude.{◌≡◌, IsTrue, Some, None, nat_lt, if◌then◌else◌};
ghost use Rattle.hk_format.specs.Pieces.{is_number, value};
ghost use Rattle.hk_model.specs.Limits.{inc_bound};
ghost use Rattle.hk_text.specs.Numerals.{numeral_of};

use crate::bytes::are_digits;

/// The number that the text spells in digits without a leading zero. None where it spells none, or where 64 bits do not hold it.
pub fn numeral(text: &[u8]) -> Option<u64>
    ensures { result ≡ numeral_of text.now }
{
    if text.is_empty() || !are_digits(text) {
        return None;
    }
    if text[0] == b'0' && text.len() != 1 {
        return None;
    }
    number(text)
}

/// The number that digits stand for, if 64 bits hold it.
fn number(text: &[u8]) -> Option<u64>
    requires { IsTrue (is_number text.now) }
    ensures { result ≡ (if nat_lt (value text.now) inc_bound then Some (value text.now) else None) }
{
    match std::str::from_utf8(text) {
        Ok(digits) => match digits.parse::<u64>() {
            Ok(n) => Some(n),
            Err(_) => None,
        },
        Err(_) => None,
    }
}
