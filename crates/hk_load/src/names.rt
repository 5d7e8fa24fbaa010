//! The names that the heads of a script declare (`docs/FORMATS.md`, "Loading").

ghost use Rattle.std.specs.Prelude.{◌≡◌, [], IfOk, map};
ghost use Rattle.hk_format.specs.declared.syntax.Item.{Item};
ghost use Rattle.hk_format.specs.Syntax.{IsSyntax};
ghost use Rattle.hk_format.specs.Loading.{names_of, object_named, type_named, kind_named, code_named};
ghost use Rattle.hk_format.specs.Outcomes.{Gives};
ghost use Rattle.hk_script.specs.Given.{names_given};

use crate::errors::LineError;
use crate::meanings::{Meaning, code_number, meanings_of, object_number, type_number};
use hk_format::{Item, LoadCause};
use hk_model::limits::CODE_LIMIT;
use hk_model::{Name, Text};
use hk_script::Names;
use std::alloc::{AllocError, Global};
use std::marker::Model;

/// What the heads of a script declare, wherever they stand. A name's number is its place among the
/// objects, or among the codes. Contracts see the lists of the names.
#[derive(Drop)]
pub struct Declared<'a> {
    /// The names that the heads give.
    names: &'a Names,
    /// Of each, what it stands for.
    meanings: Vec<Meaning>,
}

impl<'a> Model for Declared<'a> {
    ghost use Rattle.hk_format.specs.Names.{Names};

    ghost Value = { Names };

    ghost use Rattle.hk_load.specs.Meanings.{names_meant, AreMeant};

    ghost view = { λ d. names_meant d.names.now d.meanings.items };

    ghost invariant = { λ d. AreMeant d.names.now d.meanings.items };
}

impl<'a> Declared<'a> {
    /// What the heads of these items declare, which give these names.
    pub fn of(alloc: Global, names: &'a Names, items: &[Item]) -> Result<Declared<'a>, AllocError>
        requires syntax { IsSyntax items.now }
        requires names { names.now ≡ names_given items.now }
        ensures { IfOk result (λ d. d ≡ names_of (map (λ (i : Item). i.head) items.now)) }
    {
        let meanings = meanings_of(alloc, items)?;
        Ok(Declared { names, meanings })
    }

    /// The labels of a code of the script, before the first.
    pub fn no_labels(&self, alloc: Global) -> Names
        ensures { result ≡ [] }
    {
        self.names.of_same_script(alloc)
    }

    /// The object of this name, of any kind. UnknownName where none is declared.
    pub fn object(&self, name: &Text) -> Result<Name, LineError>
        ensures { Gives (λ n. n.0) result (object_named self.now name.now) }
    {
        match object_number(self.names, self.meanings.as_slice(), name.as_str()) {
            Some(number) => Ok(Name(number)),
            None => Err(LineError::Bad(LoadCause::UnknownName)),
        }
    }

    /// The type of this name. UnknownName where none is declared, or what is declared is no type.
    pub fn type_named(&self, name: &Text) -> Result<Name, LineError>
        ensures { Gives (λ n. n.0) result (type_named self.now name.now) }
    {
        match type_number(self.names, self.meanings.as_slice(), name.as_str()) {
            Some(number) => Ok(Name(number)),
            None => Err(LineError::Bad(LoadCause::UnknownName)),
        }
    }

    /// The type of this name, or None for `any`.
    pub fn kind(&self, name: &Text) -> Result<Option<Name>, LineError>
        ensures { Gives (λ x. x) result (kind_named self.now name.now) }
    {
        if name.as_bytes() == b"any".as_slice() {
            return Ok(None);
        }
        let of = self.type_named(name)?;
        Ok(Some(of))
    }

    /// The number of the code of this name. UnknownName where none is declared. A number above 4,096
    /// is given as 4,096: a script with so many codes is refused at the line of one of them.
    pub fn code(&self, name: &Text) -> Result<u16, LineError>
        ensures { Gives (λ x. x) result (code_named self.now name.now) }
    {
        match code_number(self.names, self.meanings.as_slice(), name.as_str()) {
            Some(number) => Ok(number.min(CODE_LIMIT) as u16),
            None => Err(LineError::Bad(LoadCause::UnknownName)),
        }
    }
}
