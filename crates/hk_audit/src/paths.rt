//! Paths of two to eight indices (`docs/FORMATS.md`, "Pieces").

ghost use Rattle.std.specs.Prelude.{◌≡◌, Some, None, if◌then◌else◌};
ghost use Rattle.hk_format.specs.Pieces.{value};
ghost use Rattle.hk_audit.specs.TextPieces.{is_index_numeral, indices_spelled};

use crate::parts::Parts;
use hk_model::Path;
use hk_model::limits::INDEX_BOUND;
use hk_text::numeral;

/// The path whose indices points join in the text. None where they are not two to eight numbers
/// below 65,536.
pub fn path_in(text: &[u8]) -> Option<Path>
    ensures { result ≡ indices_spelled text.now }
{
    let mut parts = Parts::new(text, b'.');
    let mut indices = [0; 8];
    let mut count = 0;
    while let Ok(part) = parts.next() {
        if count == 8 {
            return None;
        }
        indices[count] = index(part)?;
        count += 1;
    }
    if count < 2 {
        return None;
    }
    Path::new(&indices[..count])
}

/// The index that the text spells.
fn index(text: &[u8]) -> Option<u16>
    ensures { result ≡ (if is_index_numeral text.now then Some (value text.now) else None) }
{
    match numeral(text) {
        Some(n) => {
            if n < u64::from(INDEX_BOUND) {
                Some(n as u16)
            } else {
                None
            }
        }
        None => None,
    }
}
