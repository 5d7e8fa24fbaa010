//! The plain kernel: the rule table over ordered maps (`docs/RULES.md`, "The table of the calls").
//!
//! Each call is one small function, whose contract is its row of the table. The files are by
//! subject: `tables` has the state, `incarnations` and `stacks` its parts with what is kept beside
//! them (the processes are those of `hk_running`), `opening` the state in which a world opens,
//! `activations` the incarnations that come and go, `processors` the dispatch, the halt and who runs
//! where, `walks` and `targets` the tests that the calls share, `counts` how many times each made
//! object is named, `counted` the writes that it follows, `keeping` which objects stay, `marks` and
//! `collecting` the room in a full table, `removed` what becomes of what goes, `changes` and `saving`
//! what an event writes over, `forwarding` an event that can be taken back, `inverse` what takes it
//! back, `undoing` and `restoring` the state before an event, `copies` what they copy, `shows` the
//! state as plain data, `plain` the kernel over them. The calls: `words`, `lists`, `slots`,
//! `templates`, `objects`, `procedures` and `semaphores`; `calls` hands each to its row.
//!
//! A step costs no more than the size of what it touches and the logarithm of the number of
//! objects, incarnations and processes. What it touches has the objects that vanish by it, with what
//! they name. One thing costs more: a Create or a Copy in a full table looks at each object and at
//! each slot once.
#![tactic(auto)]

mod activations;
mod calls;
mod changes;
mod collecting;
mod copies;
mod counted;
mod counts;
mod forwarding;
mod incarnations;
mod inverse;
mod keeping;
mod lists;
mod marks;
mod objects;
mod opening;
mod plain;
mod procedures;
mod processors;
mod removed;
mod restoring;
mod saving;
mod semaphores;
mod shows;
mod slots;
mod stacks;
mod tables;
mod targets;
mod templates;
mod undoing;
mod walks;
mod words;

pub use inverse::Inverse;
pub use plain::Plain;
