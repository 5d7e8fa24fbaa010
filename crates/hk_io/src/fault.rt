//! Why a call on a stream fails.

use std::alloc::{AllocError, AllocFailed};

/// A read or a write failed, and moved no byte.
///
/// The stream's count of faults rose in that call (`docs/STREAMS.md`, "Faults").
#[derive(Clone, Copy, Debug, PartialEq, Eq)]
pub struct Failed;

/// Memory was wanted and refused (`docs/STREAMS.md`, "Want of memory").
///
/// The `?` operator makes it of std's errors on allocation.
#[derive(Clone, Copy, Debug, PartialEq, Eq)]
pub struct NoMemory;

impl From<AllocError> for NoMemory {
    fn from(_error: AllocError) -> NoMemory {
        NoMemory
    }
}

impl<T: Drop> From<AllocFailed<T>> for NoMemory {
    fn from(_error: AllocFailed<T>) -> NoMemory {
        NoMemory
    }
}
