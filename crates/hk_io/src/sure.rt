//! A source and a sink that never fail.

ghost use Rattle.std.specs.Prelude.{◌≡◌, ◌<◌, ℕ, List, length, min, drop, Some, None, IfOk, IsOk, IsOkAnd};
ghost use Rattle.std.specs.Io.{ReadsAtMost, WritesAtMost};
ghost use Rattle.std.specs.Io.KnownBytes.{ReadConsumes, WriteAppends};
ghost use Rattle.hk_io.specs.Causes.{HasCause};

use crate::fault::Failed;
use crate::stream::{Sink, Source};
use std::marker::Model;

/// A source in memory that never fails (`docs/STREAMS.md`, "Sure streams").
///
/// It tells the bytes that are left, and contracts see it as these. Its count of faults is 0.
#[derive(Drop)]
pub struct SureBytes {
    bytes: Vec<u8>,
    at: usize,
}

impl Model for SureBytes {
    ghost use Rattle.std.specs.Prelude.{List, ℕ, drop, ◌≤◌, vec_len};

    ghost Value = { List ℕ };

    ghost view = { λ s. drop s.at s.bytes.items };

    ghost invariant = { λ s. s.at ≤ vec_len s.bytes };
}

impl SureBytes {
    /// A source of `bytes`.
    pub fn new(bytes: Vec<u8>) -> SureBytes
        ensures { result ≡ bytes.items }
    {
        SureBytes { bytes, at: 0 }
    }
}

impl Source for SureBytes {
    ghost left = { λ s. Some s };

    ghost faults = { λ _. 0 };

    /// Gives as many of the bytes left as `buf` holds. It never answers `Failed`.
    fn read(&mut self, buf: &mut [u8]) -> Result<usize, Failed>
        ensures bound { ReadsAtMost result buf.new }
        ensures bytes { ReadConsumes (Some self.old) (Some self.new) result buf.new }
        ensures cause { HasCause 0 0 result }

        ensures count { IsOkAnd result (λ n. n ≡ min (length buf.new) (length self.old)) }
        ensures ok { IfOk result (λ n. self.new ≡ drop n self.old) }
    {
        let left = &self.bytes[self.at..];
        let count = buf.len().min(left.len());
        buf[..count].copy_from_slice(&left[..count]);
        self.at += count;
        Ok(count)
    }
}

/// A sink that takes all bytes, keeps none and never fails (`docs/STREAMS.md`, "Sure streams").
///
/// It tells no content. Its count of faults is 0.
#[derive(Clone, Copy, Debug, Default)]
pub struct SureOut;

impl SureOut {
    /// A sink that has taken nothing.
    pub fn new() -> SureOut {
        SureOut
    }
}

impl Sink for SureOut {
    ghost taken = { λ _. None };

    ghost faults = { λ _. 0 };

    /// Takes the whole piece. It never answers `Failed`.
    fn write(&mut self, piece: &[u8]) -> Result<usize, Failed>
        ensures bound { WritesAtMost result piece.now }
        ensures some { IfOk result (λ n. 0 < length piece.now → 0 < n) }
        ensures bytes { WriteAppends None None result piece.now }
        ensures cause { HasCause 0 0 result }

        ensures all { IsOkAnd result (λ n. n ≡ length piece.now) }
    {
        Ok(piece.len())
    }
}
