//! What an event changes (`docs/RULES.md`, "Lines taken back").

use hk_model::{Entry, Inc, Name, Proc, Process};

/// One part of an object that a call writes, with what stood there.
#[derive(Clone, Copy)]
pub enum Part {
    /// The word at an index.
    Word { at: u32, old: u32 },
    /// The entry at an index.
    Item { at: u32, old: Entry },
    /// A word after the last.
    NewWord,
    /// An entry after the last.
    NewItem,
    /// The tokens of a semaphore.
    Tokens { old: u32 },
    /// A process more that waits, behind the others.
    NewWaiter,
    /// The first that waited goes on.
    FirstWaiter { first: Proc },
}

/// What an event does to the ready list.
#[derive(Clone, Copy)]
pub enum Turn {
    /// Nothing.
    Same,
    /// One process more stands at its end.
    Joined,
    /// Its first process goes.
    Taken { first: Proc },
}

/// What an event writes over or adds, with what stood there. Objects and incarnations that go are
/// not in it.
#[derive(Clone, Copy)]
pub struct Saved {
    /// The part of an object.
    pub part: Option<(Name, Part)>,
    /// The slot of an incarnation.
    pub slot: Option<(Inc, u32, Entry)>,
    /// The process that does something else, or has another current incarnation.
    pub process: Option<(Proc, Process)>,
    /// What becomes of the ready list.
    pub turn: Turn,
    /// Whether an object is made.
    pub made: bool,
    /// Whether an incarnation is entered.
    pub entered: bool,
}
