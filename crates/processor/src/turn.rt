//! The result of an instruction in its last tick.

ghost use Rattle.std.specs.Prelude.{◌≡◌};
ghost use Rattle.processor.specs.Turns.{goes};

use apex_types::ErrorKind;

/// The result of an instruction in its last tick.
#[derive(Clone, Copy)]
pub(crate) enum Turn {
    /// It had its effect.
    Goes,
    /// It is refused with this error, and nothing changed.
    Fault(ErrorKind),
    /// It calls the service of this number; the call is still to be made.
    Service(u32),
    /// The body has ended, and nothing changed.
    End,
}

impl Turn {
    /// Whether the next instruction follows.
    pub(crate) fn goes(self) -> bool
        ensures { result ≡ goes self }
    {
        match self {
            Turn::Goes => true,
            Turn::Fault(_) | Turn::Service(_) | Turn::End => false,
        }
    }
}
