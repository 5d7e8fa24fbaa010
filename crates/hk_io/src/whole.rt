//! A whole source read, and a whole text written.

ghost use Rattle.std.specs.Prelude.{◌≡◌, ◌≤◌, ◌<◌, ◌↔◌, take, length, IsErrOf, IfOk, IfErr, OnOk};
ghost use Rattle.std.specs.Io.KnownBytes.{Consumes, Appends, IsAtEnd};
ghost use Rattle.hk_io.specs.Causes.{Rose};
ghost use Rattle.hk_io.specs.Streams.{Took};

use crate::fault::Failed;
use crate::stream::{Sink, Source};
use std::alloc::{AllocError, Global};

/// How many bytes a read of `read_all` asks for.
const READ_SIZE: usize = 4096;

/// Why a source was not read to its end (`docs/STREAMS.md`, "Reading a whole source").
#[derive(Clone, Copy, Debug, PartialEq, Eq)]
pub enum ReadError {
    /// A read failed.
    ReadFault,
    /// More bytes than the limit were taken before an end and before a fault.
    TooLong,
    /// Memory was wanted and refused.
    NoMemory,
}

impl From<Failed> for ReadError {
    ghost use Rattle.std.specs.Prelude.{◌≡◌};
    ghost use Rattle.hk_io.specs.declared.whole.ReadError.{ReadError};

    ghost from_gives = { λ _ error. error ≡ ReadError.ReadFault };

    fn from(_error: Failed) -> ReadError {
        ReadError::ReadFault
    }
}

impl From<AllocError> for ReadError {
    ghost use Rattle.std.specs.Prelude.{◌≡◌};
    ghost use Rattle.hk_io.specs.declared.whole.ReadError.{ReadError};

    ghost from_gives = { λ _ error. error ≡ ReadError.NoMemory };

    fn from(_error: AllocError) -> ReadError {
        ReadError::NoMemory
    }
}

/// A write failed after the sink had taken the first `sent` bytes of the text
/// (`docs/STREAMS.md`, "Writing a whole text").
#[derive(Clone, Copy, Debug, PartialEq, Eq)]
pub struct WriteFault {
    /// How many bytes of the text the sink took, fewer than all.
    pub sent: usize,
}

/// Reads a source to its end, and returns all bytes that were taken, at most `limit`
/// (`docs/STREAMS.md`, "Reading a whole source").
///
/// Each turn reads once into a buffer of 4,096 bytes. Room is wanted as bytes come, never for the limit at once.
/// After an error the bytes taken stay taken.
///
/// - `ReadFault`: a read failed, and the source's count of faults rose.
/// - `TooLong`: exactly where more than `limit` bytes were taken before an end and before a fault. The rest is not read.
/// - `NoMemory`: memory was wanted and refused.
pub fn read_all<S: Source>(
    alloc: Global,
    source: &mut S,
    limit: usize,
) -> Result<Vec<u8>, ReadError>
    ensures bytes { IfOk result (λ bytes. Consumes (S.left source.old) (S.left source.new) bytes.items) }
    ensures end { OnOk result (IsAtEnd (S.left source.new)) }
    ensures within { IfOk result (λ bytes. length bytes.items ≤ limit) }

    ensures fault { IsErrOf result ReadError.ReadFault → Rose (S.faults source.old) (S.faults source.new) }
    ensures long { Took (S.left source.old) (S.left source.new)
        (λ bytes. IsErrOf result ReadError.TooLong ↔ (limit < length bytes)) }
    ensures later { S.faults source.old ≤ S.faults source.new }
{
    let mut bytes = Vec::new(alloc);
    let mut buf = [0u8; READ_SIZE];
    'turns: loop {
        let count = source.read(&mut buf)?;
        if count == 0 {
            return Ok(bytes);
        }
        if count > limit - bytes.len() {
            return Err(ReadError::TooLong);
        }
        bytes.extend_from_slice(&buf[..count])?;
    }
}

/// Writes a whole text to a sink (`docs/STREAMS.md`, "Writing a whole text").
///
/// Each write is handed all of the text that the sink has not taken yet. After `Ok` the sink took the text and nothing
/// else. It takes no memory.
///
/// `WriteFault`: a write failed, the sink's count of faults rose, and the sink took exactly the first `sent` bytes.
pub fn write_all<W: Sink>(sink: &mut W, text: &[u8]) -> Result<(), WriteFault>
    ensures ok { OnOk result (Appends (W.taken sink.old) (W.taken sink.new) text.now) }

    ensures fault { IfErr result (λ error. Rose (W.faults sink.old) (W.faults sink.new)) }
    ensures part { IfErr result (λ error. error.sent < length text.now) }
    ensures sent { IfErr result (λ error.
        Appends (W.taken sink.old) (W.taken sink.new) (take error.sent text.now)) }
    ensures later { W.faults sink.old ≤ W.faults sink.new }
{
    let mut sent = 0;
    'turns: while sent < text.len() {
        match sink.write(&text[sent..]) {
            Ok(count) => sent += count,
            Err(Failed) => return Err(WriteFault { sent }),
        }
    }
    Ok(())
}
