//! Std's readers and writers as sources and sinks.

ghost use Rattle.std.specs.Prelude.{◌≡◌, ◌<◌, length, IfOk, OnOk, OnErr};
ghost use Rattle.std.specs.Io.{ReadsAtMost, WritesAtMost};
ghost use Rattle.std.specs.Io.KnownBytes.{ReadConsumes, WriteAppends};
ghost use Rattle.hk_io.specs.Causes.{HasCause, next_count};

use crate::fault::Failed;
use crate::stream::{Sink, Source};
use std::io::{ErrorKind, Read, Write};
use std::marker::Model;

/// How many times in a row a call that the system interrupts is made.
const TRIES: u32 = 1_048_576;

/// A reader of std as a source (`docs/STREAMS.md`, "Adapters").
///
/// It tells the bytes left where its reader's contract does; over the process's standard input it tells none.
#[derive(Drop)]
pub struct StdIn<R: Read> {
    inner: R,
    faults: u64,
}

impl<R: Read> Model for StdIn<R> {
    ghost use Rattle.hk_io.specs.Streams.{Adapter};

    ghost Value = { Adapter R };

    ghost view = { λ s. record { inner = s.inner; faults = s.faults } };
}

impl<R: Read> StdIn<R> {
    /// A source over `inner`, with no fault yet.
    pub fn new(inner: R) -> StdIn<R>
        ensures inner { result.inner ≡ inner }
        ensures faults { result.faults ≡ 0 }
    {
        StdIn { inner, faults: 0 }
    }
}

impl<R: Read> Source for StdIn<R> {
    ghost left = { λ s. R.remaining s.inner };

    ghost faults = { λ s. s.faults };

    /// Reads once from the reader, and again where the system interrupted the call, up to 1,048,576 times in a row
    /// (tried, not proved).
    ///
    /// `Failed`: the reader answered another error, or that one each time.
    fn read(&mut self, buf: &mut [u8]) -> Result<usize, Failed>
        ensures bound { ReadsAtMost result buf.new }
        ensures bytes { ReadConsumes (R.remaining self.old.inner) (R.remaining self.new.inner) result buf.new }
        ensures cause { HasCause self.old.faults self.new.faults result }

        ensures ok { OnOk result (self.new.faults ≡ self.old.faults) }
        ensures err { OnErr result (self.new.faults ≡ next_count self.old.faults) }
    {
        let answer = read_uninterrupted(&mut self.inner, buf);
        if answer.is_err() {
            self.faults = self.faults.saturating_add(1);
        }
        answer
    }
}

/// A writer of std as a sink (`docs/STREAMS.md`, "Adapters").
///
/// It tells the bytes taken where its writer's contract does; over the process's standard output it tells none.
#[derive(Drop)]
pub struct StdOut<W: Write> {
    inner: W,
    faults: u64,
}

impl<W: Write> Model for StdOut<W> {
    ghost use Rattle.hk_io.specs.Streams.{Adapter};

    ghost Value = { Adapter W };

    ghost view = { λ s. record { inner = s.inner; faults = s.faults } };
}

impl<W: Write> StdOut<W> {
    /// A sink over `inner`, with no fault yet.
    pub fn new(inner: W) -> StdOut<W>
        ensures inner { result.inner ≡ inner }
        ensures faults { result.faults ≡ 0 }
    {
        StdOut { inner, faults: 0 }
    }
}

impl<W: Write> Sink for StdOut<W> {
    ghost taken = { λ s. W.contents s.inner };

    ghost faults = { λ s. s.faults };

    /// Writes once to the writer, and again where the system interrupted the call, up to 1,048,576 times in a row
    /// (tried, not proved).
    ///
    /// `Failed`: the writer answered another error, or that one each time, or took nothing of a piece that is not empty.
    fn write(&mut self, piece: &[u8]) -> Result<usize, Failed>
        ensures bound { WritesAtMost result piece.now }
        ensures some { IfOk result (λ n. 0 < length piece.now → 0 < n) }
        ensures bytes { WriteAppends (W.contents self.old.inner) (W.contents self.new.inner) result piece.now }
        ensures cause { HasCause self.old.faults self.new.faults result }

        ensures ok { OnOk result (self.new.faults ≡ self.old.faults) }
        ensures err { OnErr result (self.new.faults ≡ next_count self.old.faults) }
    {
        let answer = write_uninterrupted(&mut self.inner, piece);
        if answer.is_err() {
            self.faults = self.faults.saturating_add(1);
        }
        answer
    }
}

/// One read that the system did not interrupt.
fn read_uninterrupted<R: Read>(reader: &mut R, buf: &mut [u8]) -> Result<usize, Failed>
    ensures bound { ReadsAtMost result buf.new }
    ensures bytes { ReadConsumes (R.remaining reader.old) (R.remaining reader.new) result buf.new }
{
    for _try in 0..TRIES {
        match reader.read(buf) {
            Ok(count) => return Ok(count),
            Err(error) if error.kind() == ErrorKind::Interrupted => {}
            Err(_) => return Err(Failed),
        }
    }
    Err(Failed)
}

/// One write that the system did not interrupt. It takes something of a piece that is not empty.
fn write_uninterrupted<W: Write>(writer: &mut W, piece: &[u8]) -> Result<usize, Failed>
    ensures bound { WritesAtMost result piece.now }
    ensures some { IfOk result (λ n. 0 < length piece.now → 0 < n) }
    ensures bytes { WriteAppends (W.contents writer.old) (W.contents writer.new) result piece.now }
{
    for _try in 0..TRIES {
        match writer.write(piece) {
            Ok(count) if count > 0 || piece.is_empty() => return Ok(count),
            Err(error) if error.kind() == ErrorKind::Interrupted => {}
            _ => return Err(Failed),
        }
    }
    Err(Failed)
}
