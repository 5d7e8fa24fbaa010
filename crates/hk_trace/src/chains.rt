//! What is told of the descent of an entry (`docs/RULES.md`, "Traced descent").

use hk_model::{Entry, Inc, Items, Name, Slot};

/// A place that can hold a capability or a template.
#[derive(Clone, Copy, PartialEq, Eq, Debug)]
pub enum Place {
    /// A slot, 0 to 63, of an incarnation.
    SlotOf { inc: Inc, slot: Slot },
    /// An index, 0 to 255, of the list of an object.
    EntryOf { name: Name, index: u16 },
}

/// A place, and the capability or template that stood there.
#[derive(Clone, Copy, PartialEq, Eq, Debug)]
pub struct Standing {
    /// Where it stood.
    pub place: Place,
    /// What stood there, which is not Empty.
    pub entry: Entry,
}

/// One link of a chain.
#[derive(Clone, Copy, PartialEq, Eq, Debug)]
pub struct Link {
    /// The line that wrote the place, counted from 1.
    pub line: u32,
    /// The place that its entry came from, with what stood there before that line.
    pub from: Standing,
}

/// Where a chain ends.
#[derive(Clone, Copy, PartialEq, Eq, Debug)]
pub enum Origin {
    /// What the last link tells, or the place itself where there is no link, stood so at the opening.
    Opening,
    /// The call of this line, counted from 1, made it.
    Made(u32),
}

/// The chain of a place that a line used.
#[derive(Drop)]
pub struct Chain {
    /// The step of the call that used the place, 0 to 15 (`docs/RULES.md`, "Step numbers").
    pub step: u8,
    /// The place, with what stood there before the line.
    pub at: Standing,
    /// The links, from the latest back.
    pub links: Items<Link>,
    /// Where the chain ends.
    pub origin: Origin,
}
