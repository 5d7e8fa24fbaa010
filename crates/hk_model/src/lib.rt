//! The data of the kernel, and what its calls and processors mean.
//!
//! `src` has the plain data and the trait `Kernel`; `specs` has the definitions that every contract
//! of the project cites. `docs/ARCHITECTURE.md` says which file answers which question.
#![tactic(auto)]

pub mod calls;
pub mod copying;
pub mod entries;
pub mod frames;
pub mod instructions;
pub mod kernel;
pub mod limits;
pub mod lines;
pub mod lists;
pub mod names;
pub mod objects;
pub mod paths;
pub mod permissions;
pub mod reaches;
pub mod snapshot;
pub mod texts;
pub mod vanishing;
pub mod verdicts;
pub mod world;

pub use calls::{Answer, Call, Refusal, Reply, What8};
pub use entries::{Arg, Cap, Entry, Making, Param, Template};
pub use frames::{Frame, Todo};
pub use instructions::{Index, Indices, Instr, Operand, Route};
pub use kernel::{Acted, Kernel, NoMemory};
pub use lines::{End, Line, What};
pub use lists::{Entries, Items, Params, Words};
pub use names::{Cpu, Inc, Name, Proc, Slot};
pub use objects::{Incarnation, Object, Process, ProcessState};
pub use paths::{Args, Path};
pub use permissions::{denial_law, permission_law, rules_inferred};
pub use reaches::{Change, Hop, Reach};
pub use snapshot::{Live, Seen, Snapshot};
pub use texts::{BoxedText, Text};
pub use vanishing::{kept_are_greatest_supported, rooted_are_least_closed};
pub use verdicts::{Misstep, Verdict};
pub use world::{Born, Code, Kind, Task, World};
