//! The ready processes and the waiters of semaphores, over lists by index (`docs/RULES.md`, "Steps of processors").
#![tactic(auto)]

mod queues;

pub use queues::Queues;
