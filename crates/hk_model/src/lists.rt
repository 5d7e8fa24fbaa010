//! Lists, as contracts see them.

ghost use Rattle.std.specs.Prelude.{◌≡◌, ◌<◌, ◌≤◌, ◌↔◌, length, slice_get, slice_set, ◌++◌, ◌∷◌, [], OnOk, OnErr, IfOk, IsTrue};

use crate::entries::{Entry, Param};
use std::alloc::{AllocError, Global};
use std::marker::Model;

/// A list of any length.
#[derive(Drop)]
pub struct Items<T: Drop> {
    items: Vec<T>,
}

impl<T: Drop> Model for Items<T> {
    ghost use Rattle.std.specs.Prelude.{List};

    ghost Value = { List T };

    ghost view = { λ a. a.items.items };
}

impl<T: Drop> Items<T> {
    /// The empty list.
    pub fn new(alloc: Global) -> Items<T>
        ensures { result ≡ [] }
    {
        Items {
            items: Vec::new(alloc),
        }
    }

    /// The list of these items.
    pub fn from_vec(items: Vec<T>) -> Items<T>
        ensures { result ≡ items.items }
    {
        Items { items }
    }

    /// The items of the list.
    pub fn into_vec(self) -> Vec<T>
        ensures { result.items ≡ self }
    {
        self.items
    }

    /// The items of the list.
    pub fn as_slice(&self) -> &[T]
        ensures { result.now ≡ self.now }
    {
        self.items.as_slice()
    }

    /// The number of items.
    pub fn len(&self) -> usize
        ensures { result ≡ length self.now }
    {
        self.items.len()
    }

    /// Adds an item at the end. The only error is want of memory.
    pub fn push(&mut self, item: T) -> Result<(), AllocError>
        ensures ok { OnOk result (self.new ≡ self.old ++ item ∷ []) }
        ensures err { OnErr result (self.new ≡ self.old) }
    {
        self.items.push(item)?;
        Ok(())
    }
}

impl<T: Drop + Copy> Items<T> {
    /// An equal list. The only error is want of memory.
    pub fn copy(&self, alloc: Global) -> Result<Items<T>, AllocError>
        ensures { IfOk result (λ v. v ≡ self.now) }
    {
        Ok(Items {
            items: Vec::from_slice(alloc, self.items.as_slice())?,
        })
    }

    /// Writes an item over the one at a place, if there is one.
    pub fn set(&mut self, at: usize, item: T)
        ensures { self.new ≡ slice_set self.old at item }
    {
        if let Some(place) = self.items.get_mut(at) {
            *place = item;
        }
    }
}

/// A list of at most `LIMIT` items.
#[derive(Drop)]
pub struct Limited<T: Drop + Copy, const LIMIT: usize> {
    items: Vec<T>,
}

impl<T: Drop + Copy, const LIMIT: usize> Model for Limited<T, LIMIT> {
    ghost use Rattle.std.specs.Prelude.{List, ◌≤◌, length};

    ghost Value = { List T };

    ghost view = { λ a. a.items.items };

    ghost invariant = { λ a. length a.items.items ≤ LIMIT };
}

/// The words of an object.
pub type Words = Limited<u32, 4096>;

/// The entries of an object, or the slots of an incarnation.
pub type Entries = Limited<Entry, 256>;

/// The parameter templates of a procedure.
pub type Params = Limited<Param, 8>;

impl<T: Drop + Copy, const LIMIT: usize> Limited<T, LIMIT> {
    /// The empty list.
    pub fn new(alloc: Global) -> Limited<T, LIMIT>
        ensures { result ≡ [] }
    {
        Limited {
            items: Vec::new(alloc),
        }
    }

    /// The list of these items.
    pub fn from_vec(items: Vec<T>) -> Limited<T, LIMIT>
        requires { length items.items ≤ LIMIT }
        ensures { result ≡ items.items }
    {
        Limited { items }
    }

    /// The items of the list.
    pub fn into_vec(self) -> Vec<T>
        ensures value { result.items ≡ self }
        ensures few { length result.items ≤ LIMIT }
    {
        self.items
    }

    /// The items of the list.
    pub fn as_slice(&self) -> &[T]
        ensures value { result.now ≡ self.now }
        ensures few { length result.now ≤ LIMIT }
    {
        self.items.as_slice()
    }

    /// The number of items.
    pub fn len(&self) -> usize
        ensures value { result ≡ length self.now }
        ensures few { result ≤ LIMIT }
    {
        self.items.len()
    }

    /// Whether there is no item.
    pub fn is_empty(&self) -> bool
        ensures { IsTrue result ↔ (self.now ≡ []) }
    {
        self.items.is_empty()
    }

    /// Adds an item at the end. The only error is want of memory.
    pub fn push(&mut self, item: T) -> Result<(), AllocError>
        requires { length self.old < LIMIT }
        ensures ok { OnOk result (self.new ≡ self.old ++ item ∷ []) }
        ensures err { OnErr result (self.new ≡ self.old) }
    {
        self.items.push(item)?;
        Ok(())
    }

    /// Writes an item over the one at a place, if there is one.
    pub fn set(&mut self, at: usize, item: T)
        ensures { self.new ≡ slice_set self.old at item }
    {
        if let Some(place) = self.items.get_mut(at) {
            *place = item;
        }
    }

    /// An equal list. The only error is want of memory.
    pub fn copy(&self, alloc: Global) -> Result<Limited<T, LIMIT>, AllocError>
        ensures { IfOk result (λ v. v ≡ self.now) }
    {
        Ok(Limited {
            items: Vec::from_slice(alloc, self.items.as_slice())?,
        })
    }
}
