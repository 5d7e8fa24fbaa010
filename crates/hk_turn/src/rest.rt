//! How a thread waits for what another thread does.
use std::sync::{Condvar, Wait};
use std::thread;
use std::time::Duration;

/// So often a thread tries in vain before it sleeps between tries.
const TRIES_AWAKE: u32 = 4;

/// So long it sleeps, in microseconds: some hundred turns of others.
const SLEEP: u64 = 20;

/// Where threads rest between tries. Nobody wakes them: each sleeps for its time. `docs/TURNS.md`, "Waiting".
#[derive(Drop)]
pub struct Rest {
    bell: Condvar,
}

impl Rest {
    /// Nobody rests.
    pub fn new() -> Rest {
        Rest {
            bell: Condvar::new(),
        }
    }

    /// Lets others run, after so many tries in vain: it yields after the first ones, and sleeps after the others.
    pub fn pause<R: Wait>(&self, rt: &R, tries: u32) {
        if tries < TRIES_AWAKE {
            thread::yield_now();
        } else {
            let rung = self.bell.notifications();
            self.bell.sleep(rt, rung, Duration::from_micros(SLEEP));
        }
    }
}
