//! A line of the audit record, from its text (`docs/FORMATS.md`, "Audit lines and records").

ghost use Rattle.std.specs.Prelude.{◌≡◌, ◌==◌, ◌∷◌, [], ◌++◌, ℕ, List, IfSome, IfNone};
ghost use Rattle.std.specs.List.{slice_split};
ghost use Rattle.hk_model.specs.declared.lines.Line.{Line};
ghost use Rattle.hk_format.specs.AuditLines.{line_body, line_text};
ghost use Rattle.hk_format.specs.LineRanges.{IsLine};
ghost use Rattle.hk_audit.specs.Halves.{halves_text, HasNoArrow};

use crate::parts::Parts;
use hk_model::Line;

/// The line of which the bytes are the text, its line feed included. None exactly where they are
/// the text of no line (`docs/FORMATS.md`, "Audit lines and records").
pub fn read_line(bytes: &[u8]) -> Option<Line>
    ensures some { IfSome result (λ line. IsLine line × (line_text line ≡ bytes.now)) }
    ensures none { IfNone result ((line : Line) → IsLine line → line_text line ≡ bytes.now → ⊥) }
{
    match before(bytes, b"\n") {
        Some(body) => read_body(body),
        None => None,
    }
}

/// The line that stands on these bytes, which its line feed follows. None exactly where no line
/// does.
pub fn read_body(body: &[u8]) -> Option<Line>
    ensures some { IfSome result (λ line. IsLine line × (line_body line ≡ body.now)) }
    ensures none { IfNone result ((line : Line) → IsLine line → line_body line ≡ body.now → ⊥) }
{
    match halves(body) {
        Some((event, reply)) => line_in(event, reply),
        None => None,
    }
}

/// The line of these two halves.
fn line_in(event: &[u8], reply: &[u8]) -> Option<Line>
    ensures some { IfSome result (λ line. IsLine line × (line_body line ≡ halves_text event.now reply.now)) }
    ensures none { IfNone result ((line : Line) → IsLine line → HasNoArrow event.now → HasNoArrow reply.now → line_body line ≡ halves_text event.now reply.now → ⊥) }
{
    let Ok(event) = Parts::new(event, b' ').event() else {
        return None;
    };
    let Ok(reply) = Parts::new(reply, b' ').reply() else {
        return None;
    };
    Some(event.with_reply(reply))
}

/// What stands before the arrow of a line, and behind it.
fn halves(body: &[u8]) -> Option<(&[u8], &[u8])>
    ensures some { IfSome result (λ found. halves_text found.0.now found.1.now ≡ body.now) }
    ensures only { IfSome result (λ found. (a b : List ℕ) → HasNoArrow a → HasNoArrow b → halves_text a b ≡ body.now → (a ≡ found.0.now) × (b ≡ found.1.now)) }
    ensures none { IfNone result ((a b : List ℕ) → HasNoArrow a → HasNoArrow b → halves_text a b ≡ body.now → ⊥) }
{
    match two_parts(body) {
        Some((first, second)) => stripped(first, second),
        None => None,
    }
}

/// The texts on both sides of a `>`, without the rest of the arrow and its spaces.
fn stripped<'a>(first: &'a [u8], second: &'a [u8]) -> Option<(&'a [u8], &'a [u8])>
    ensures some { IfSome result (λ found. (found.0.now ++ 32 ∷ 45 ∷ [] ≡ first.now) × (32 ∷ found.1.now ≡ second.now)) }
    ensures none { IfNone result ((a b : List ℕ) → a ++ 32 ∷ 45 ∷ [] ≡ first.now → 32 ∷ b ≡ second.now → ⊥) }
{
    match before(first, b" -") {
        Some(event) => match behind(second, b" ") {
            Some(reply) => Some((event, reply)),
            None => None,
        },
        None => None,
    }
}

/// The two texts that one `>` separates.
fn two_parts(text: &[u8]) -> Option<(&[u8], &[u8])>
    ensures some { IfSome result (λ found. slice_split (λ b. b == 62) text.now ≡ found.0.now ∷ found.1.now ∷ []) }
    ensures none { IfNone result ((x y : List ℕ) → slice_split (λ b. b == 62) text.now ≡ x ∷ y ∷ [] → ⊥) }
{
    let mut parts = Parts::new(text, b'>');
    let Ok(first) = parts.next() else {
        return None;
    };
    let Ok(second) = parts.next() else {
        return None;
    };
    if parts.is_read() {
        Some((first, second))
    } else {
        None
    }
}

/// The text before this end.
fn before<'a>(text: &'a [u8], end: &[u8]) -> Option<&'a [u8]>
    ensures some { IfSome result (λ t. t.now ++ end.now ≡ text.now) }
    ensures none { IfNone result ((t : List ℕ) → t ++ end.now ≡ text.now → ⊥) }
{
    text.strip_suffix(end)
}

/// The text behind this beginning.
pub(crate) fn behind<'a>(text: &'a [u8], start: &[u8]) -> Option<&'a [u8]>
    ensures some { IfSome result (λ t. start.now ++ t.now ≡ text.now) }
    ensures none { IfNone result ((t : List ℕ) → start.now ++ t ≡ text.now → ⊥) }
{
    text.strip_prefix(start)
}
