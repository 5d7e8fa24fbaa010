//! What stands in a slot beside a name.

ghost use Rattle.std.specs.Prelude.{◌≡◌};
ghost use Rattle.hk_objects.specs.Shelf.{new_body};

use hk_model::{Entries, Name, Params, Words};

/// What a procedure has besides its lists.
#[derive(Drop)]
pub struct Procedure {
    pub code: u16,
    pub params: Params,
}

/// An object beside its name and, for a semaphore, who waits there.
#[derive(Drop)]
pub struct Body {
    /// The name of its type.
    pub of: Name,
    pub words: Words,
    pub entries: Entries,
    /// The tokens of a semaphore.
    pub count: u32,
    /// The code and the parameter templates of a procedure.
    pub procedure: Option<Procedure>,
}

impl Body {
    /// An object of this type with these lists, with no tokens and no code.
    pub fn new(of: Name, words: Words, entries: Entries) -> Body
        ensures { result ≡ new_body of words entries }
    {
        Body {
            of,
            words,
            entries,
            count: 0,
            procedure: None,
        }
    }
}
