//! Refusals of loading.

ghost use Rattle.std.specs.Prelude.{◌≡◌, Some, codes};
ghost use Rattle.module.specs.declared.fault.RunFault.TheVariants as run;
ghost use Rattle.module.specs.declared.load_fault.LoadFault.TheVariants as load;

use crate::fault::RunFault;
use std::alloc::AllocError;
use std::error::Error;
use std::fmt;

/// Why an image is not loaded.
#[derive(Clone, Copy, Debug, PartialEq, Eq)]
pub enum LoadFault {
    Memory,
}

impl LoadFault {
    /// The number of the refusal, 1.
    pub fn number(self) -> u8
        ensures { result ≡ 1 }
    {
        match self {
            LoadFault::Memory => 1,
        }
    }
}

impl fmt::Display for LoadFault {
    ghost output = { λ _. Some (codes "memory") };

    fn fmt<W: fmt::Write>(&self, f: &mut fmt::Formatter<W>) -> fmt::Result {
        match self {
            LoadFault::Memory => write!(f, "memory"),
        }
    }
}

impl Error for LoadFault {}

impl From<AllocError> for LoadFault {
    ghost from_gives = { λ _ e. e ≡ load.Memory };

    fn from(_: AllocError) -> Self {
        LoadFault::Memory
    }
}

impl From<LoadFault> for RunFault {
    ghost from_gives = { λ _ e. e ≡ run.Memory };

    fn from(_: LoadFault) -> Self {
        RunFault::Memory
    }
}
