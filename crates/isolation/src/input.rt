//! The inputs of a partition from outside.

use apex_types::{PortId, Ticks, Words};

/// An input of a partition from outside.
#[derive(Drop)]
pub enum Input {
    /// A message arrives at a port.
    Arrive(PortId, Words),
    /// A fault of the module's hardware.
    ModuleFault,
    /// A fault of the partition's own hardware.
    PartitionFault,
}

/// An input of a partition, and its tick.
#[derive(Drop)]
pub struct InputLine {
    pub tick: Ticks,
    pub input: Input,
}
