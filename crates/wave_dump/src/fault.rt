//! Why a dump is not written.

use std::alloc::AllocError;
use trace_stays::MemoryFull;

/// Why an event is not taken.
#[derive(Clone, Copy)]
pub enum DumpFault {
    /// Memory ran out.
    Memory,
    /// The lines are others than those in which the variables were found.
    Changed,
}

impl From<MemoryFull> for DumpFault {
    fn from(_: MemoryFull) -> Self {
        DumpFault::Memory
    }
}

impl From<AllocError> for DumpFault {
    fn from(_: AllocError) -> Self {
        DumpFault::Memory
    }
}
