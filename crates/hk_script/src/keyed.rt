//! How names are hashed (`docs/DECISIONS.md`, "Names of a script stand in the kit's `indexmap`").

ghost use Rattle.std.specs.Prelude.{◌≡◌};
ghost use Rattle.std.specs.Hash.DefaultHasher.{initial, write};

use std::hash::{BuildHasher, DefaultHasher, Hasher};

/// Makes hashers that have read all bytes of a script before the name. Which names come together in a table
/// then follows from the whole script, so that names that do are hard to choose.
#[derive(Clone, Copy)]
pub struct Keyed {
    begun: DefaultHasher,
}

impl Keyed {
    /// Hashers that have read these bytes.
    pub fn by(source: &[u8]) -> Keyed
        ensures { result.begun ≡ write initial source.now }
    {
        let mut begun = DefaultHasher::new();
        begun.write(source);
        Keyed { begun }
    }
}

impl BuildHasher for Keyed {
    type Hasher = DefaultHasher;

    ghost build_hasher = { λ keyed. keyed.begun };

    fn build_hasher(&self) -> DefaultHasher {
        self.begun
    }
}
