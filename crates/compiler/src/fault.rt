//! Why a program is not compiled.

ghost use Rattle.std.specs.Prelude.{◌≡◌};
ghost use Rattle.compiler.specs.Numbers.{number_of};

use thiserror::Error;

/// Why a program is not compiled.
#[derive(Clone, Copy, Debug, PartialEq, Eq, Error)]
pub enum CompileFault {
    /// It has more than 65,536 instructions.
    #[error("more than 65536 instructions")]
    TooLong,
    /// Memory ran out.
    #[error("out of memory")]
    Memory,
}

impl CompileFault {
    /// The fault's number, 1 or 2.
    pub fn number(self) -> u8
        ensures { result ≡ number_of self }
    {
        match self {
            CompileFault::TooLong => 1,
            CompileFault::Memory => 2,
        }
    }
}
