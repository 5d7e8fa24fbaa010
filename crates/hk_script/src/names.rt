//! Names that were given, in the order of their lines.

ghost use Rattle.std.specs.Prelude.{◌≡◌, ◌++◌, ◌∷◌, [], not, IfOk, OnErr, if◌then◌else◌};
ghost use Rattle.hk_format.specs.Grammar.{is_among};
ghost use Rattle.hk_format.specs.Loading.{place};

use crate::keyed::Keyed;
use indexmap::IndexSet;
use std::alloc::{AllocError, Global};
use std::marker::Model;

/// Names (`docs/FORMATS.md`, "Names"), each once, in the order in which they came. Contracts see the list
/// of their texts.
#[derive(Drop)]
pub struct Names {
    texts: IndexSet<String, Keyed>,
}

impl Model for Names {
    ghost use Rattle.std.specs.Prelude.{List, map, string_bytes, ℕ};

    ghost Value = { List (List ℕ) };

    ghost view = { λ names. map string_bytes names.texts.keys };
}

impl Names {
    /// No name yet. They are to be those of a script of these bytes, which have a part in how they are hashed.
    pub fn of_script(alloc: Global, source: &[u8]) -> Names
        ensures { result ≡ [] }
    {
        Names {
            texts: IndexSet::with_hasher(alloc, Keyed::by(source)),
        }
    }

    /// No name yet. They are to be more names of the script that has these.
    pub fn of_same_script(&self, alloc: Global) -> Names
        ensures { result ≡ [] }
    {
        Names {
            texts: IndexSet::with_hasher(alloc, *self.texts.hasher()),
        }
    }

    /// Puts a name at the end unless it is there already, and tells whether it is new. The only error is
    /// want of memory; then the names stay.
    pub fn add(&mut self, alloc: Global, name: &str) -> Result<bool, AllocError>
        ensures found { IfOk result (λ new. new ≡ not (is_among self.old name.now)) }
        ensures names { IfOk result (λ new. self.new ≡ (if new then self.old ++ name.now ∷ [] else self.old)) }
        ensures memory { OnErr result (self.new ≡ self.old) }
    {
        let name = String::from_str(alloc, name)?;
        let new = self.texts.insert(name)?;
        Ok(new)
    }

    /// The place of a name, from 0, if it is there.
    pub fn place(&self, name: &str) -> Option<usize>
        ensures { result ≡ place self.now name.now }
    {
        self.texts.get_index_of(name)
    }
}
