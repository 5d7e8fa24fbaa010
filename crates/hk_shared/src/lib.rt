//! A kernel that processors share: the desk at which they take turns.
//!
//! `docs/TURNS.md`, "The shared kernel", states what the contracts name.
#![tactic(auto)]

mod asking;
mod book;
mod boxed;
mod calling;
mod desk;
mod naming;
mod shared;

pub use book::Book;
pub use boxed::BoxedBook;
pub use naming::Naming;
pub use shared::Shared;
