//! The outcome of one tick of a process.

ghost use Rattle.std.specs.Prelude.{◌≡◌};
ghost use Rattle.kernel_laws.specs.Bursts.{is_nothing};
ghost use Rattle.processor.specs.Views.{asks_of};

use apex_types::{Call, ErrorKind};

/// The outcome of one tick of a process.
#[derive(Clone, Copy)]
pub enum Outcome {
    /// The tick was only counted, or the process waits for a service: nothing else changed.
    Busy,
    /// An instruction had its effect, only on the process and its partition's data.
    Local,
    /// The process calls a service, and waits for its answer.
    Call(Call),
    /// The instruction is refused with this error, and nothing changed.
    Fault(ErrorKind),
    /// The body has ended, and nothing changed.
    End,
}

impl Outcome {
    /// Whether the tick makes no request of the kernel: no call, no fault, and no end of the body.
    pub fn is_quiet(&self) -> bool
        ensures { result ≡ is_nothing (asks_of self.now) }
    {
        match self {
            Outcome::Busy | Outcome::Local => true,
            Outcome::Call(_) | Outcome::Fault(_) | Outcome::End => false,
        }
    }
}

/// A number of ticks of a process, and the outcome of the last.
#[derive(Clone, Copy)]
pub struct Burst {
    pub ticks: u32,
    pub outcome: Outcome,
}
