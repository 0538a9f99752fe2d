//! Refusals of writing the inputs of a partition.

ghost use Rattle.std.specs.Prelude.{◌≡◌, Some};
ghost use Rattle.module.specs.Lines.{inputs_line};
ghost use Rattle.module.specs.Telling.{fault_of_image, fault_of_text};
ghost use Rattle.module.specs.declared.inputs_fault.InputsFault.TheVariants as inputs;

use apex_types::{DeviceFault, SinkFault};
use image::ImageFault;
use module_base::{DeviceTextFault, fault_number};
use std::alloc::{AllocError, AllocFailed};
use std::error::Error;
use std::fmt;

/// Why the inputs that a run brings a partition are not written. If several reasons hold, the first
/// of this list is reported; out of memory may be reported earlier.
#[derive(Clone, Copy, Debug)]
pub enum InputsFault {
    /// More than 2^40 ticks are requested.
    Ticks,
    /// The bytes are no image.
    Image(ImageFault),
    /// The image has no partition with this name.
    Partition,
    /// The device text is refused for the image.
    Device(DeviceFault),
    Memory,
    /// The run brings the partition more than 65,536 inputs, which is more than a replay text has lines.
    TooMany,
    /// The sink failed. It took a prefix of the text.
    Write,
}

impl fmt::Display for InputsFault {
    ghost output = { λ fault. Some (inputs_line fault) };

    fn fmt<W: fmt::Write>(&self, f: &mut fmt::Formatter<W>) -> fmt::Result {
        match self {
            InputsFault::Ticks => write!(f, "ticks"),
            InputsFault::Image(fault) => write!(f, "image {}", fault.number()),
            InputsFault::Partition => write!(f, "partition"),
            InputsFault::Device(fault) => write!(f, "device {}", fault_number(*fault)),
            InputsFault::Memory => write!(f, "memory"),
            InputsFault::TooMany => write!(f, "inputs"),
            InputsFault::Write => write!(f, "write"),
        }
    }
}

impl Error for InputsFault {}

impl From<AllocError> for InputsFault {
    ghost from_gives = { λ _ e. e ≡ inputs.Memory };

    fn from(_: AllocError) -> Self {
        InputsFault::Memory
    }
}

impl<T: Drop> From<AllocFailed<T>> for InputsFault {
    ghost from_gives = { λ _ e. e ≡ inputs.Memory };

    fn from(_: AllocFailed<T>) -> Self {
        InputsFault::Memory
    }
}

impl From<ImageFault> for InputsFault {
    ghost from_gives = { λ fault e. e ≡ fault_of_image fault };

    fn from(fault: ImageFault) -> Self {
        match fault {
            ImageFault::Memory => InputsFault::Memory,
            _ => InputsFault::Image(fault),
        }
    }
}

impl From<DeviceTextFault> for InputsFault {
    ghost from_gives = { λ fault e. e ≡ fault_of_text fault };

    fn from(fault: DeviceTextFault) -> Self {
        match fault {
            DeviceTextFault::Line(fault) => InputsFault::Device(fault),
            DeviceTextFault::Memory => InputsFault::Memory,
        }
    }
}

impl From<SinkFault> for InputsFault {
    ghost from_gives = { λ _ e. e ≡ inputs.Write };

    fn from(_: SinkFault) -> Self {
        InputsFault::Write
    }
}
