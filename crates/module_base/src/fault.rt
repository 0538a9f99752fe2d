//! Refusals of device texts and replay texts.

ghost use Rattle.std.specs.Prelude.{◌≡◌, Some};
ghost use Rattle.module_base.specs.Refusals.{fault_number, refusal_line};
ghost use Rattle.module_base.specs.declared.fault.DeviceTextFault.TheVariants as text;

use apex_types::DeviceFault;
use std::alloc::{AllocError, AllocFailed};
use std::error::Error;
use std::fmt;

/// Why a device text or a replay text is refused.
#[derive(Clone, Copy, Debug)]
pub enum DeviceTextFault {
    /// The fault of the first wrong line.
    Line(DeviceFault),
    /// Out of memory; this says nothing about the text.
    Memory,
}

/// The number of a fault, 1 to 4.
pub fn fault_number(fault: DeviceFault) -> u8
    ensures { result ≡ fault_number fault }
{
    fault as u8
}

impl fmt::Display for DeviceTextFault {
    ghost output = { λ fault. Some (refusal_line fault) };

    fn fmt<W: fmt::Write>(&self, f: &mut fmt::Formatter<W>) -> fmt::Result {
        match self {
            DeviceTextFault::Line(fault) => write!(f, "device {}", fault_number(*fault)),
            DeviceTextFault::Memory => write!(f, "memory"),
        }
    }
}

impl Error for DeviceTextFault {}

impl From<DeviceFault> for DeviceTextFault {
    ghost from_gives = { λ fault e. e ≡ text.Line fault };

    fn from(fault: DeviceFault) -> Self {
        DeviceTextFault::Line(fault)
    }
}

impl<T: Drop> From<AllocFailed<T>> for DeviceTextFault {
    ghost from_gives = { λ _ e. e ≡ text.Memory };

    fn from(_: AllocFailed<T>) -> Self {
        DeviceTextFault::Memory
    }
}
