//! Why windows are not known.

ghost use Rattle.std.specs.Prelude.{◌≡◌};
ghost use Rattle.trace_windows.specs.declared.fault.WindowsFault.TheVariants as fault;

use apex_types::Name;
use std::alloc::{AllocError, AllocFailed};

/// Why the windows of a trace are not known.
#[derive(Clone, Copy)]
pub enum WindowsFault {
    /// The module table has no partition of this name.
    Unknown(Name),
    /// There are more windows, and ticks between them, than are asked for.
    TooMany,
    /// Memory ran out.
    Memory,
}

impl From<AllocError> for WindowsFault {
    ghost from_gives = { λ _ f. f ≡ fault.Memory };

    fn from(_: AllocError) -> WindowsFault {
        WindowsFault::Memory
    }
}

impl<T: Drop> From<AllocFailed<T>> for WindowsFault {
    ghost from_gives = { λ _ f. f ≡ fault.Memory };

    fn from(_: AllocFailed<T>) -> WindowsFault {
        WindowsFault::Memory
    }
}
