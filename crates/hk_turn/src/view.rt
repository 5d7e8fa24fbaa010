//! Views: what a seat knows.
use std::collections::LinkedList;

/// What a seat at the table of the turn knows. It is there for the proofs, and no value of it is made.
///
/// `docs/TURNS.md`, "Views".
pub struct View<E> {
    /// The number of its pass, from 0.
    pub number: u64,
    /// How many passes it has made, itself among them; 0 where another makes them.
    pub made: u64,
    /// The number of passes that it stands for. A view of weight 0 is spent.
    pub weight: u64,
    /// The number of passes in all. It never changes.
    pub seats: u64,
    /// A number of entries that the list has at least.
    pub known: u64,
    /// The list that its pass has seen.
    pub seen: LinkedList<E>,
    /// What the passes that were joined into it had seen.
    pub lists_told: LinkedList<LinkedList<E>>,
    /// Whether it holds the turn.
    pub holds: bool,
    /// The list that it found when it took the turn; empty where it holds none.
    pub found: LinkedList<E>,
}
