//! The statuses of the top calls (`docs/FORMATS.md`, "Statuses and outputs").

ghost use Rattle.std.specs.Prelude.{◌≡◌};
ghost use Rattle.hk_top.specs.Runs.{status_of};

use hk_model::End;

/// The text was written; of a run, every process had ended; of a record, it is legal.
pub const DONE: u8 = 0;

/// The record was written, of a run in which no process was ready or ran at the end, and some waited.
pub const STUCK: u8 = 1;

/// The words are no command.
pub const USAGE: u8 = 2;

/// The input was refused.
pub const REFUSED: u8 = 3;

/// A read failed.
pub const READ_FAULT: u8 = 4;

/// Memory was wanted and refused.
pub const NO_MEMORY: u8 = 5;

/// A write failed.
pub const WRITE_FAULT: u8 = 6;

/// The record was written, of a run whose events came to the limit before it was done or stuck.
pub const LIMIT: u8 = 7;

/// The verdict was written, on a record that is not legal.
pub const ILLEGAL: u8 = 8;

/// The status of a run that ended so.
pub(crate) fn of_run(end: End) -> u8
    ensures { result ≡ status_of end }
{
    match end {
        End::Done => DONE,
        End::Stuck => STUCK,
        End::Limit => LIMIT,
    }
}
