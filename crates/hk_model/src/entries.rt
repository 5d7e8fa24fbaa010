//! What stands in slots and lists: capabilities and templates (`docs/RULES.md`, "Capabilities").

use crate::names::Name;
use hk_rights::Rights;

/// A capability: the name of an object, with rights for it.
#[derive(Clone, Copy, PartialEq, Eq, Debug)]
pub struct Cap {
    pub name: Name,
    pub rights: Rights,
}

/// A template (`docs/RULES.md`, "Merging").
#[derive(Clone, Copy, PartialEq, Eq, Debug)]
pub enum Template {
    /// Merges with a capability that has all of `check`, for an object of the type `of`, or of any
    /// type. Where a type is named, the rights become those of `give`, but for MODIFY, ENV and
    /// UNCONF, which stay only where they were; where none is named, they become those of `give`
    /// that were there.
    Amplify {
        of: Option<Name>,
        check: Rights,
        give: Rights,
    },
    /// Makes a new object of the type `of`, held with the rights `give`.
    Create {
        of: Name,
        give: Rights,
    },
}

/// A parameter template of a procedure: what an argument must be, and what it becomes.
#[derive(Clone, Copy, PartialEq, Eq, Debug)]
pub struct Param {
    pub of: Option<Name>,
    pub check: Rights,
    pub give: Rights,
}

/// An argument of a call: what stands in its slot, and for a capability the type of its object.
#[derive(Clone, Copy, PartialEq, Eq, Debug)]
pub struct Arg {
    pub entry: Entry,
    /// Read only where the entry is a capability.
    pub of: Name,
}

/// What stands in a slot of an incarnation, or at an index of an object's list.
#[derive(Clone, Copy, PartialEq, Eq, Debug)]
pub enum Entry {
    Empty,
    Held(Cap),
    Form(Template),
}

/// The kind of template that a program makes, with its rights.
#[derive(Clone, Copy, PartialEq, Eq, Debug)]
pub enum Making {
    Amplify { check: Rights, give: Rights },
    Create { give: Rights },
}
