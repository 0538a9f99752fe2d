//! Why a picture is not made.

ghost use Rattle.trace_picture.specs.declared.fault.PictureFault.TheVariants as fault;
ghost use Rattle.std.specs.Prelude.{◌≡◌};

use crate::excess::Excess;
use std::alloc::{AllocError, AllocFailed};
use std::error::Error;
use std::fmt;
use trace_stays::MemoryFull;

/// Why a picture is not made.
#[derive(Clone, Copy, Debug)]
pub enum PictureFault {
    /// Memory ran out.
    Memory,
    /// The picture would have more than `MOST_SHAPES` bars, arrows, flags and marks.
    Crowded(Excess),
}

impl fmt::Display for PictureFault {
    fn fmt<W: fmt::Write>(&self, f: &mut fmt::Formatter<W>) -> fmt::Result {
        match self {
            PictureFault::Memory => write!(f, "memory"),
            PictureFault::Crowded(_) => write!(f, "too many shapes"),
        }
    }
}

impl Error for PictureFault {}

impl From<MemoryFull> for PictureFault {
    ghost from_gives = { λ _ f. f ≡ fault.Memory };

    fn from(_: MemoryFull) -> PictureFault {
        PictureFault::Memory
    }
}

impl From<AllocError> for PictureFault {
    ghost from_gives = { λ _ f. f ≡ fault.Memory };

    fn from(_: AllocError) -> PictureFault {
        PictureFault::Memory
    }
}

impl<T: Drop> From<AllocFailed<T>> for PictureFault {
    ghost from_gives = { λ _ f. f ≡ fault.Memory };

    fn from(_: AllocFailed<T>) -> PictureFault {
        PictureFault::Memory
    }
}
