//! Out of memory.

use std::alloc::{AllocError, AllocFailed};

/// Memory ran out.
#[derive(Clone, Copy, Debug)]
pub struct MemoryFull;

impl From<AllocError> for MemoryFull {
    fn from(_: AllocError) -> MemoryFull {
        MemoryFull
    }
}

impl<T: Drop> From<AllocFailed<T>> for MemoryFull {
    fn from(_: AllocFailed<T>) -> MemoryFull {
        MemoryFull
    }
}
