//! Why a line is not counted.

ghost use Rattle.std.specs.Prelude.{◌≡◌};
ghost use Rattle.trace_windows.specs.declared.shares_fault.SharesFault.TheVariants as fault;

use apex_types::Name;
use std::alloc::{AllocError, AllocFailed};
use trace_stays::MemoryFull;

/// Why a line is not counted.
#[derive(Clone, Copy, Debug)]
pub enum SharesFault {
    /// The module table has no partition of this name.
    Unknown(Name),
    /// Memory ran out.
    Memory,
}

impl From<AllocError> for SharesFault {
    ghost from_gives = { λ _ f. f ≡ fault.Memory };

    fn from(_: AllocError) -> SharesFault {
        SharesFault::Memory
    }
}

impl From<MemoryFull> for SharesFault {
    ghost from_gives = { λ _ f. f ≡ fault.Memory };

    fn from(_: MemoryFull) -> SharesFault {
        SharesFault::Memory
    }
}

impl<T: Drop> From<AllocFailed<T>> for SharesFault {
    ghost from_gives = { λ _ f. f ≡ fault.Memory };

    fn from(_: AllocFailed<T>) -> SharesFault {
        SharesFault::Memory
    }
}
