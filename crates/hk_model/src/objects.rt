//! The parts of the kernel's state (`docs/RULES.md`, "Objects, incarnations, processes").

use crate::lists::{Entries, Items, Params, Words};
use crate::names::{Cpu, Inc, Name, Proc, Slot};

/// An object, beside its name. What its type does not have is empty, 0 or None.
#[derive(Drop)]
pub struct Object {
    /// The name of its type.
    pub of: Name,
    pub words: Words,
    pub entries: Entries,
    /// The tokens of a semaphore.
    pub count: u32,
    /// Who waits at a semaphore, the longest waiting first.
    pub waiters: Items<Proc>,
    /// The code of a procedure.
    pub code: Option<u16>,
    /// The parameter templates of a procedure.
    pub params: Params,
}

/// An incarnation, beside its number: the local name space of one call.
#[derive(Drop)]
pub struct Incarnation {
    pub proc: Proc,
    /// The procedure that was called, none for the base of a process.
    pub procedure: Option<Name>,
    /// The incarnation that called it, none for the base.
    pub caller: Option<Inc>,
    /// The slot of the caller that takes what is returned, 0 for the base.
    pub into: Slot,
    pub confined: bool,
    /// The 64 slots.
    pub slots: Entries,
}

/// What a process does.
#[derive(Clone, Copy, PartialEq, Eq)]
pub enum ProcessState {
    Ready,
    Running(Cpu),
    /// It waits at the semaphore of this name.
    Waiting(Name),
    Ended,
}

/// A process: what it does, and its current incarnation.
#[derive(Clone, Copy, PartialEq, Eq)]
pub struct Process {
    pub run: ProcessState,
    pub current: Inc,
}
