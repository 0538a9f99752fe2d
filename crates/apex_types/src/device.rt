//! The inputs of a module from its devices.

ghost use Rattle.std.specs.Prelude.{◌≡◌};

use crate::event::Words;
use crate::identity::{ChannelIndex, PartitionId, Ticks};

/// An input of the module from a device.
#[derive(Drop)]
pub enum DeviceInput {
    /// A message arrives by a channel whose source is the device.
    Message(ChannelIndex, Words),
    /// A fault of the module's hardware.
    ModuleFault,
    /// A fault of the hardware of one partition.
    PartitionFault(PartitionId),
}

/// A line of a device text: an input of a device, and its tick.
#[derive(Drop)]
pub struct DeviceLine {
    pub tick: Ticks,
    pub input: DeviceInput,
}

impl DeviceLine {
    /// The tick in which it acts.
    pub fn tick(&self) -> u64
        ensures { result ≡ self.now.tick.0 }
    {
        self.tick.0
    }
}

/// Why a line of a device text is refused. Of several reasons, the first in this list counts.
#[derive(Clone, Copy, Debug, PartialEq, Eq)]
pub enum DeviceFault {
    /// It has none of the forms of a line.
    Form = 1,
    /// Its tick is below that of the line before.
    Order = 2,
    /// Its channel or partition is unknown, or the source of its channel is no device.
    Name = 3,
    /// Its message has more words than its channel takes, or 65,536 lines precede it.
    Size = 4,
}
