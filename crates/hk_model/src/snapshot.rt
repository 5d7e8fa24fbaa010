//! The kernel's state as plain data (`docs/RULES.md`, "Objects, incarnations, processes").

use crate::lists::{Entries, Items, Params, Words};
use crate::names::{Inc, Name, Proc, Slot};
use crate::objects::ProcessState;

/// An object, with its name.
#[derive(Drop)]
pub struct Seen {
    pub name: Name,
    pub of: Name,
    pub words: Words,
    pub entries: Entries,
    pub count: u32,
    pub waiters: Items<Proc>,
    pub code: Option<u16>,
    pub params: Params,
}

/// A live incarnation, with its number.
#[derive(Drop)]
pub struct Live {
    pub inc: Inc,
    pub proc: Proc,
    pub procedure: Option<Name>,
    pub caller: Option<Inc>,
    pub into: Slot,
    pub confined: bool,
    pub slots: Entries,
}

/// The state, but for the current incarnations, which the callers show, and the first name that was
/// not given at the opening, which the world shows. Objects and incarnations stand by rising number,
/// processes by their number.
#[derive(Drop)]
pub struct Snapshot {
    pub objects: Items<Seen>,
    pub incarnations: Items<Live>,
    pub processes: Items<ProcessState>,
    /// The ready processes, the first to be dispatched first.
    pub ready: Items<Proc>,
    /// The name that the next object takes.
    pub next_name: Name,
    /// The number that the next incarnation takes.
    pub next_inc: Inc,
    /// How many events there were.
    pub events: u32,
    /// How many events there can be.
    pub limit: u32,
}
