//! The plan of a stream in memory: how much a call passes, which calls fail, and the counts.

ghost use Rattle.std.specs.Prelude.{◌≡◌, ◌↔◌, ◌≤◌, OnOk, OnErr, IsErr};
ghost use Rattle.hk_io.specs.Causes.{HasCause, Rose};
ghost use Rattle.hk_io.specs.Plans.{FailsNext, after_call, after_fault};

use crate::fault::Failed;
use std::marker::Model;

/// At most `each` bytes a call; the calls whose numbers, counted from 1, are in `fails` fail.
#[derive(Drop)]
pub(crate) struct CallPlan {
    each: usize,
    fails: Vec<u32>,
    calls: u32,
    faults: u64,
}

impl Model for CallPlan {
    ghost use Rattle.std.specs.Prelude.{◌≤◌};
    ghost use Rattle.hk_io.specs.Plans.{Plan};

    ghost Value = { Plan };

    ghost view = { λ p. record { each = p.each; fails = p.fails.items; calls = p.calls; faults = p.faults } };
}

impl CallPlan {
    /// A plan with no call and no fault yet.
    pub(crate) fn new(each: usize, fails: Vec<u32>) -> CallPlan
        ensures each { result.each ≡ each }
        ensures fails { result.fails ≡ fails.items }
        ensures calls { result.calls ≡ 0 }
        ensures faults { result.faults ≡ 0 }
    {
        CallPlan {
            each,
            fails,
            calls: 0,
            faults: 0,
        }
    }

    /// The most bytes that a call passes.
    pub(crate) fn each(&self) -> usize
        ensures { result ≡ self.now.each }
    {
        self.each
    }

    /// Counts a call, and its fault where the call is planned to fail.
    pub(crate) fn call(&mut self) -> Result<(), Failed>
        ensures failed { IsErr result ↔ FailsNext self.old }
        ensures ok { OnOk result (self.new ≡ after_call self.old) }
        ensures err { OnErr result (self.new ≡ after_fault (after_call self.old)) }
        ensures cause { HasCause self.old.faults self.new.faults result }
    {
        self.calls = self.calls.saturating_add(1);
        if self.fails.contains(&self.calls) {
            return Err(self.fault());
        }
        Ok(())
    }

    /// Counts a fault.
    pub(crate) fn fault(&mut self) -> Failed
        ensures counted { self.new ≡ after_fault self.old }
        ensures later { self.old.faults ≤ self.new.faults }
        ensures rose { Rose self.old.faults self.new.faults }
    {
        self.faults = self.faults.saturating_add(1);
        Failed
    }
}
