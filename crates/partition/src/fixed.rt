//! The parts of a partition that no tick changes.

use apex_types::{HealthTable, Name, PartitionId};
use window_table::Schedule;

/// The partition's row of the module table, its number, and the major frame with its own windows.
#[derive(Drop)]
pub struct Fixed {
    pub name: Name,
    pub number: PartitionId,
    /// In ticks.
    pub period: u32,
    /// In ticks.
    pub duration: u32,
    /// The major frame with the partition's own windows.
    pub schedule: Schedule,
    pub health: HealthTable,
}
