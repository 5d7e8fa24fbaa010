//! What the plain kernel shows of its state, by which changes are told (`docs/RULES.md`, "Changes and their reasons").

ghost use Rattle.std.specs.Prelude.{◌≡◌, ◌≤◌, length};
ghost use Rattle.hk_model.specs.Limits.{entry_limit};
ghost use Rattle.hk_model.specs.State.{incarnation, object};

use hk_model::{Entry, Inc, Name};
use hk_plain::Plain;

/// The list of the object of a name, of at most 256 entries (`docs/RULES.md`, "Limits"); an object that does not stand has none.
pub(crate) fn entries_of(kernel: &Plain, name: Name) -> &[Entry]
    ensures value { result.now ≡ (object kernel.now name).entries }
    ensures few { length result.now ≤ entry_limit }
{
    match kernel.object(name) {
        Some(object) => object.entries.as_slice(),
        None => &[],
    }
}

/// The slots of an incarnation; one that is not live has none.
pub(crate) fn slots_of(kernel: &Plain, inc: Inc) -> &[Entry]
    ensures { result.now ≡ (incarnation kernel.now inc).slots }
{
    match kernel.incarnation(inc) {
        Some(incarnation) => incarnation.slots.as_slice(),
        None => &[],
    }
}

/// Whether a live incarnation is confined.
pub(crate) fn is_confined(kernel: &Plain, inc: Inc) -> bool
    ensures { result ≡ (incarnation kernel.now inc).confined }
{
    match kernel.incarnation(inc) {
        Some(incarnation) => incarnation.confined,
        None => false,
    }
}
