//! Changes under confined calls, and the ways by which such a call may come to change an object
//! (`docs/RULES.md`, "Reaches" and "Changes and their reasons").

use crate::lists::Items;
use crate::names::{Inc, Name};

/// A hop from an object to one for which its list holds a capability, at an index and a moment
/// (`docs/RULES.md`, "Reaches"). A moment is the number of lines before it.
#[derive(Clone, Copy, PartialEq, Eq, Debug)]
pub enum Hop {
    /// By the entry, from an object that stands good for the unconfined reach.
    Entry { index: u16, moment: u32 },
    /// To an object that was made under the call, from one that stands good for the modifiable reach.
    Handed { index: u16, moment: u32 },
}

/// Why a call may change an object (`docs/RULES.md`, "Changes and their reasons").
#[derive(Drop)]
pub enum Reach {
    /// The object was made under the call.
    Made,
    /// The parameter of this number, counted from 0, and these hops from its object on lead there.
    Param { arg: u8, hops: Items<Hop> },
}

/// A line changes an object under a confined call (`docs/RULES.md`, "Changes and their reasons").
#[derive(Drop)]
pub struct Change {
    /// The number of the line, counted from 1.
    pub line: u32,
    /// The confined call that the line's incarnation is under.
    pub under: Inc,
    pub object: Name,
    /// Why the call may change it.
    pub reach: Reach,
}
