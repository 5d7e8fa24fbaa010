//! Where a call of a procedure is put together, before a frame gets it (`docs/RULES.md`, "Calls of procedures").

use hk_model::{Arg, Entry, Name};
use hk_spaces::Space;

/// The arguments of a call, its name space, and the code of the procedure that is called. They stand in place for all calls of
/// a kernel, so none lays them out anew; what they hold between calls is free.
#[derive(Drop)]
pub(crate) struct Draft {
    pub(crate) args: [Arg; 8],
    pub(crate) space: Space,
    pub(crate) code: Option<u16>,
}

impl Draft {
    /// A draft of no call.
    pub(crate) fn new() -> Draft {
        let nothing = Arg {
            entry: Entry::Empty,
            of: Name(0),
        };
        Draft {
            args: [nothing; 8],
            space: Space::empty(),
            code: None,
        }
    }
}
