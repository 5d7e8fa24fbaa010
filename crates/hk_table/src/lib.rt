//! The table kernel: objects in slots, the stacks of the processes, and lists of processes by index
//! (`docs/RULES.md`, "The table of the calls").
//!
//! Its state is that of the rule table, told from its parts. The files are by subject: `stacks` has the name spaces of the
//! calls, `parts` these with the objects, the queues and the counts, `born`, `counted` and `opening` the state in which a world
//! opens, `processors` the dispatch, the halt and what a processor runs, `finding`
//! and `reads` the objects by name, `walks` and `targets` the tests that the calls share, `frames` the incarnations that come
//! and go, `draft` where a call is put together, `making` and `objects` what is made.
//! The calls: `words`, `lists`, `slots`, `templates`, `semaphores`, `procedures` and `creating`; `calls` hands each to its row.
//! The state as plain data: `queued`, `shown` and `shows`. `counting` raises and lowers the counts by what names come and go,
//! `settling` and `vanishing` take away what nothing names or reaches by them, and `laws` says what the counts from outside
//! are to be, and what each change of frames and processes is to them. `table` is the kernel over the parts.
//!
//! What is not in a list of objects or frames is found by its number: nothing here grows with the number of objects,
//! incarnations or processes but the opening, the state as plain data, and a Create or a Copy in a full table, which may look at
//! each slot from the first that is no opening object's; and what goes by an event is gone over.
#![tactic(auto)]

mod born;
mod calls;
mod counted;
mod counting;
mod creating;
mod draft;
mod finding;
mod frames;
mod laws;
mod lists;
mod making;
mod objects;
mod opening;
mod parts;
mod procedures;
mod processors;
mod queued;
mod reads;
mod semaphores;
mod settling;
mod shown;
mod shows;
mod slots;
mod stacks;
mod table;
mod targets;
mod templates;
mod vanishing;
mod walks;
mod words;

pub use table::Table;
