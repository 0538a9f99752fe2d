//! The partitions of a module and the memory of all of them, over any executor.

ghost use Rattle.std.specs.Prelude.{◌≤◌, ◌^◌, length};
ghost use Rattle.apex_types.specs.Limits.{MOST_PARTITIONS, MOST_TICKS};
ghost use Rattle.module.specs.Members.{AreFitting};
ghost use Rattle.module.specs.Standing.{origin_or_zero};

use apex_types::Ticks;
use image::Image;
use partition::Partition;
use partition_base::Executor;
use regions::{Memory, PartitionMem};

/// The partitions of an image in their order, and the memory of all of them. Each partition borrows
/// its own part of the memory.
#[derive(Drop)]
pub struct Members<E: Executor<Mem = PartitionMem>> {
    pub partitions: Vec<Partition<E>>,
    pub memory: Memory,
    ghost few: { length partitions.items ≤ MOST_PARTITIONS },
    ghost fit: { AreFitting E.Executor partitions.items memory },
}

/// A module between two ticks.
#[derive(Drop)]
pub struct Module<E: Executor<Mem = PartitionMem>> {
    /// The parts that no tick changes: the major frame with its windows, the channels, and the
    /// action on a fault of the module.
    pub image: Image,
    pub members: Members<E>,
    /// The next tick.
    pub now: Ticks,
    /// The tick from which the major frames count; `None` after a shutdown.
    pub origin: Option<Ticks>,
    /// The place of the window of the last span in the table: a hint for the next one.
    pub window: usize,
    ghost limit: { now.0 ≤ MOST_TICKS },
    ghost past: { origin_or_zero origin ≤ now.0 },
}
