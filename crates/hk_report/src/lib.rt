//! The changes that were made under confined calls, and why they could be made (`docs/RULES.md`,
//! "Changes and their reasons").
//!
//! `changes_under` tells each change with the confined call that it was made under, by one run of
//! the history; `report` with its reason besides, `changes_text` is the list as text, `report_text` tells it as text
//! without the list, and a `Retelling`
//! writes that text without the list: it makes the steps of a history on a kernel of its own and tells
//! each as it is made. `counting` counts the changes as the lines of a run come. `shows` has what a
//! kernel has to show for that, `naming` what a path names, `doings` what each line did, `replay` the
//! lines of a history once more, `families` the confined calls that each incarnation is under, `params`
//! the merged parameters of each call, `lists` how both stand in memory, `histories` what has stood in
//! lists, `reachable` which lists ways can come to, `runs` how what stood in these is put in order, `blocks`
//! which runs are passed over together, `holders` which of them hold an object, `held_blocks` which of these are passed over
//! together, `hops` the hops over it, `first_hops` which of these comes first, `searching` the search for the least reach, `ways` the
//! order of ways, `spreading` how those of a call are found from the front, `fronts` whether those that are kept are all that matter,
//! `keeping` of which calls they are kept, `reasons` each change with its reason.
#![tactic(auto)]

mod blocks;
mod counting;
mod doings;
mod families;
mod first_hops;
mod fronts;
mod held_blocks;
mod histories;
mod holders;
mod hops;
mod keeping;
mod lists;
mod naming;
mod params;
mod reachable;
mod reasons;
mod replay;
mod reporting;
mod runs;
mod searching;
mod shows;
mod spreading;
mod texts;
mod ways;

pub use counting::Counting;
pub use families::{BareChange, Begun};
pub use hk_model::{Change, Hop, Line, NoMemory, Reach, World};
pub use replay::Retelling;
pub use reporting::{changes_under, report, report_text};
pub use texts::changes_text;
