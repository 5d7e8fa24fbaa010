//! Where the capabilities and templates that a line used came from (`docs/RULES.md`, "Traced
//! descent").
//!
//! `trace` gives for each place that a line used the chain of what stood there, link by link, back
//! to the opening or to the call that made it. `chains` has what is told, `standing` what stands at
//! a place and along a path, `writings` what a line writes and from where, `replay` the writings of a
//! history, `carrying` and `using` which places a line used, `following` the way back, `texts` the chains as
//! text.
#![tactic(auto)]

mod carrying;
mod chains;
mod following;
mod replay;
mod standing;
mod texts;
mod tracing;
mod using;
mod writings;

pub use chains::{Chain, Link, Origin, Place, Standing};
pub use hk_model::{Line, NoMemory, World};
pub use texts::chains_text;
pub use tracing::trace;
