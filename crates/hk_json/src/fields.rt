//! What stands at the keys of a value.

ghost use Rattle.std.specs.Prelude.{◌≡◌, map};
ghost use Rattle.serde_json.specs.View.{view};
ghost use Rattle.hk_json.specs.Scripts.{has, text_at, number_at, number_said, list_at, list_said, word_said, text_said};

use serde_json::Value;

/// Whether there is such a key.
pub(crate) fn has(value: &Value, key: &str) -> bool
    ensures { result ≡ has key.now (view value.now) }
{
    value.get(key).is_some()
}

/// The text at a key, or nothing.
pub(crate) fn text_at<'v>(value: &'v Value, key: &str) -> &'v str
    ensures { result.now ≡ text_at key.now (view value.now) }
{
    match value.get(key) {
        Some(member) => text_of(member),
        None => "",
    }
}

/// The text that a value is, or nothing.
pub(crate) fn text_of(value: &Value) -> &str
    ensures { result.now ≡ text_said (view value.now) }
{
    match value.as_str() {
        Some(text) => text,
        None => "",
    }
}

/// The number at a key, or 0.
pub(crate) fn number_at(value: &Value, key: &str) -> u64
    ensures { result ≡ number_at key.now (view value.now) }
{
    match value.get(key) {
        Some(member) => number_of(member),
        None => 0,
    }
}

/// The number that a value is, or 0.
fn number_of(value: &Value) -> u64
    ensures { result ≡ number_said (view value.now) }
{
    value.as_u64().unwrap_or(0)
}

/// The word that a value is, or 0.
pub(crate) fn word_of(value: &Value) -> u32
    ensures { result ≡ word_said (view value.now) }
{
    let number = number_of(value);
    if number <= u32::MAX as u64 {
        number as u32
    } else {
        0
    }
}

/// The list at a key, or none.
pub(crate) fn list_at<'v>(value: &'v Value, key: &str) -> &'v [Value]
    ensures { map view result.now ≡ list_at key.now (view value.now) }
{
    match value.get(key) {
        Some(member) => list_of(member),
        None => &[],
    }
}

/// The list that a value is, or none.
fn list_of(value: &Value) -> &[Value]
    ensures { map view result.now ≡ list_said (view value.now) }
{
    match value.as_array() {
        Some(list) => list.as_slice(),
        None => &[],
    }
}
