//! Why bytes are not the JSON of a world (`docs/FORMATS.md`, "Worlds as JSON").

ghost use Rattle.std.specs.Prelude.{◌≡◌};

use hk_model::NoMemory;
use std::alloc::AllocError;

/// Why bytes are not the JSON of a world.
#[derive(Clone, Copy, PartialEq, Eq, Debug)]
pub enum JsonError {
    /// The bytes have no reading, or one that is the value of no world.
    BadJson,
    /// Want of memory.
    NoMemory,
}

impl From<AllocError> for JsonError {
    ghost use Rattle.hk_json.specs.declared.errors.JsonError.TheVariants as json_error;

    ghost from_gives = { λ _ e. e ≡ json_error.NoMemory };

    fn from(_error: AllocError) -> JsonError {
        JsonError::NoMemory
    }
}

impl From<NoMemory> for JsonError {
    ghost use Rattle.hk_json.specs.declared.errors.JsonError.TheVariants as json_error;

    ghost from_gives = { λ _ e. e ≡ json_error.NoMemory };

    fn from(_error: NoMemory) -> JsonError {
        JsonError::NoMemory
    }
}
