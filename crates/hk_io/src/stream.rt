//! What a source and a sink promise.

ghost use Rattle.std.specs.Prelude.{◌<◌, List, ℕ, IfOk, length};
ghost use Rattle.std.specs.declared.option.Option.{Option};
ghost use Rattle.std.specs.Io.{ReadsAtMost, WritesAtMost};
ghost use Rattle.std.specs.Io.KnownBytes.{ReadConsumes, WriteAppends};
ghost use Rattle.hk_io.specs.Causes.{HasCause};

use crate::fault::Failed;

/// Bytes that come in, in order, up to an end (`docs/STREAMS.md`, "Sources").
pub trait Source {
    // The bytes that are left, where the source tells them.
    ghost left: { Self → Option (List ℕ) };

    // The count of faults, which never falls.
    ghost faults: { Self → ℕ };

    /// Puts the next bytes into the front of `buf`, and returns their number, at most `buf.len()`.
    ///
    /// `Ok(0)` into a buffer that is not empty is the end of input. Where the source tells, the bytes are the first
    /// of those left, and the others stay left; at the end none is left.
    ///
    /// `Failed`: a fault of reading; the count of faults rose, and the bytes left are as before.
    fn read(&mut self, buf: &mut [u8]) -> Result<usize, Failed>
        ensures bound { ReadsAtMost result buf.new }
        ensures bytes { ReadConsumes (left self.old) (left self.new) result buf.new }
        ensures cause { HasCause (faults self.old) (faults self.new) result };
}

/// A place that bytes go to, in order (`docs/STREAMS.md`, "Sinks").
pub trait Sink {
    // The bytes taken, where the sink tells them.
    ghost taken: { Self → Option (List ℕ) };

    // The count of faults, which never falls.
    ghost faults: { Self → ℕ };

    /// Takes bytes from the front of `piece`, and returns their number: at most `piece.len()`, and at least 1
    /// where `piece` is not empty. Where the sink tells, they stand behind the bytes taken before.
    ///
    /// `Failed`: a fault of writing; the count of faults rose, and the bytes taken are as before.
    fn write(&mut self, piece: &[u8]) -> Result<usize, Failed>
        ensures bound { WritesAtMost result piece.now }
        ensures some { IfOk result (λ n. 0 < length piece.now → 0 < n) }
        ensures bytes { WriteAppends (taken self.old) (taken self.new) result piece.now }
        ensures cause { HasCause (faults self.old) (faults self.new) result };
}
