//! A source and a sink in memory that pass a little at a time and fail at planned calls.

ghost use Rattle.std.specs.Prelude.{◌≡◌, ◌≤◌, ◌<◌, ◌-◌, ◌↔◌, [], length, min, take, IfOk, OnErr, IsErr, Some};
ghost use Rattle.std.specs.Io.{ReadsAtMost, WritesAtMost};
ghost use Rattle.std.specs.Io.KnownBytes.{ReadConsumes, WriteAppends};
ghost use Rattle.hk_io.specs.Causes.{HasCause};
ghost use Rattle.hk_io.specs.Plans.{FailsNext, RefusesNext, after_read, after_failed_read, after_write, after_failed_write};

use crate::fault::{Failed, NoMemory};
use crate::plan::CallPlan;
use crate::stream::{Sink, Source};
use std::alloc::Global;
use std::marker::Model;

/// A source in memory that gives a few bytes a read, and fails at planned reads (`docs/STREAMS.md`, "Planned streams").
///
/// It tells the bytes that are left.
#[derive(Drop)]
pub struct Bytes {
    bytes: Vec<u8>,
    at: usize,
    plan: CallPlan,
}

impl Model for Bytes {
    ghost use Rattle.std.specs.Prelude.{drop, ◌≤◌, vec_len};
    ghost use Rattle.hk_io.specs.Plans.{Input};

    ghost Value = { Input };

    ghost view = { λ s. record { left = drop s.at s.bytes.items; plan = s.plan } };

    ghost invariant = { λ s. (s.at ≤ vec_len s.bytes) × (1 ≤ s.plan.each) };
}

impl Bytes {
    /// A source of `bytes`, with no fault yet.
    ///
    /// A read gives at most `each` bytes, which is at least 1. The reads whose numbers are in `fails` fail: reads are
    /// counted from 1, and the number stays at 2^32 - 1 once it is there.
    pub fn new(bytes: Vec<u8>, each: usize, fails: Vec<u32>) -> Bytes
        requires { 1 ≤ each }
        ensures left { result.left ≡ bytes.items }
        ensures each { result.plan.each ≡ each }
        ensures fails { result.plan.fails ≡ fails.items }
        ensures calls { result.plan.calls ≡ 0 }
        ensures faults { result.plan.faults ≡ 0 }
    {
        Bytes {
            bytes,
            at: 0,
            plan: CallPlan::new(each, fails),
        }
    }
}

impl Source for Bytes {
    ghost left = { λ s. Some s.left };

    ghost faults = { λ s. s.plan.faults };

    /// Gives the least of `each`, `buf.len()` and the number of bytes left.
    ///
    /// `Failed`: exactly where the number of this read is in `fails`.
    fn read(&mut self, buf: &mut [u8]) -> Result<usize, Failed>
        ensures bound { ReadsAtMost result buf.new }
        ensures bytes { ReadConsumes (Some self.old.left) (Some self.new.left) result buf.new }
        ensures cause { HasCause self.old.plan.faults self.new.plan.faults result }

        ensures failed { IsErr result ↔ FailsNext self.old.plan }
        ensures err { OnErr result (self.new ≡ after_failed_read self.old) }
        ensures count { IfOk result (λ n.
            n ≡ min self.old.plan.each (min (length buf.new) (length self.old.left))) }
        ensures ok { IfOk result (λ n. self.new ≡ after_read self.old n) }
    {
        self.plan.call()?;
        let left = &self.bytes[self.at..];
        let count = self.plan.each().min(buf.len()).min(left.len());
        buf[..count].copy_from_slice(&left[..count]);
        self.at += count;
        Ok(count)
    }
}

/// A sink in memory with a fixed room that takes a few bytes a write, and fails at planned writes
/// (`docs/STREAMS.md`, "Planned streams").
///
/// It tells the bytes taken.
#[derive(Drop)]
pub struct Out {
    bytes: Vec<u8>,
    room: usize,
    plan: CallPlan,
}

impl Model for Out {
    ghost use Rattle.std.specs.Prelude.{◌≤◌, vec_len, vec_capacity};
    ghost use Rattle.hk_io.specs.Plans.{Output};

    ghost Value = { Output };

    ghost view = { λ s. record { taken = s.bytes.items; room = s.room; plan = s.plan } };

    ghost invariant = { λ s. (s.room ≤ vec_capacity s.bytes) × (vec_len s.bytes ≤ s.room) × (1 ≤ s.plan.each) };
}

impl Out {
    /// A sink that has taken nothing, has room for `room` bytes and no fault yet.
    ///
    /// A write takes at most `each` bytes, which is at least 1. The writes whose numbers are in `fails` fail: writes are
    /// counted from 1, and the number stays at 2^32 - 1 once it is there.
    ///
    /// `NoMemory`: the room was refused; `fails` is dropped.
    pub fn with(alloc: Global, room: usize, each: usize, fails: Vec<u32>) -> Result<Out, NoMemory>
        requires { 1 ≤ each }
        ensures taken { IfOk result (λ out. out.taken ≡ []) }
        ensures room { IfOk result (λ out. out.room ≡ room) }
        ensures each { IfOk result (λ out. out.plan.each ≡ each) }
        ensures fails { IfOk result (λ out. out.plan.fails ≡ fails.items) }
        ensures calls { IfOk result (λ out. out.plan.calls ≡ 0) }
        ensures faults { IfOk result (λ out. out.plan.faults ≡ 0) }
    {
        let bytes = Vec::with_capacity(alloc, room)?;
        Ok(Out {
            bytes,
            room,
            plan: CallPlan::new(each, fails),
        })
    }

    /// The bytes taken, in order.
    pub fn taken(&self) -> &[u8]
        ensures { result.now ≡ self.now.taken }
    {
        self.bytes.as_slice()
    }
}

impl Sink for Out {
    ghost taken = { λ s. Some s.taken };

    ghost faults = { λ s. s.plan.faults };

    /// Takes the least of `each`, `piece.len()` and the room left.
    ///
    /// `Failed`: exactly where the number of this write is in `fails`, or `piece` is not empty and no room is left.
    fn write(&mut self, piece: &[u8]) -> Result<usize, Failed>
        ensures bound { WritesAtMost result piece.now }
        ensures some { IfOk result (λ n. 0 < length piece.now → 0 < n) }
        ensures bytes { WriteAppends (Some self.old.taken) (Some self.new.taken) result piece.now }
        ensures cause { HasCause self.old.plan.faults self.new.plan.faults result }

        ensures failed { IsErr result ↔ RefusesNext self.old piece.now }
        ensures err { OnErr result (self.new ≡ after_failed_write self.old) }
        ensures count { IfOk result (λ n. n ≡ min self.old.plan.each
            (min (length piece.now) (self.old.room - length self.old.taken))) }
        ensures ok { IfOk result (λ n. self.new ≡ after_write self.old (take n piece.now)) }
    {
        self.plan.call()?;
        let left = self.room - self.bytes.len();
        if left == 0 && !piece.is_empty() {
            return Err(self.plan.fault());
        }
        let count = self.plan.each().min(piece.len()).min(left);
        self.bytes.extend_from_slice(&piece[..count]).unwrap();
        Ok(count)
    }
}
