//! What a worker passes before each call (`docs/TURNS.md`, "Workers").

use hk_model::Cpu;

/// It is told of each call of a desk before the call is made, and may hold it up.
pub trait Gate {
    /// The call that the processor is about to make, counted from 0. The count stays at `u64::MAX`
    /// once it is there.
    fn before(&self, cpu: Cpu, nth: u64);
}
