//! An accepted module table as a record of its rows.

ghost use Rattle.std.specs.Prelude.{◌≤◌, length};
ghost use Rattle.apex_types.specs.Limits.{MOST_PARTITIONS};

use crate::schedule::Schedule;
use apex_types::{ChannelEnd, Costs, HealthTable, ModuleAction, Name, PortRow};

/// A partition: in each of its periods of the major frame its windows offer at least `duration`
/// ticks.
#[derive(Drop)]
pub struct PartitionRow {
    pub name: Name,
    pub period: u32,
    pub duration: u32,
    pub health: HealthTable,
    pub ports: Vec<PortRow>,
}

/// A channel from one source to its destinations.
#[derive(Drop)]
pub struct ChannelRow {
    pub name: Name,
    pub source: ChannelEnd,
    pub destinations: Vec<ChannelEnd>,
}

/// A module table. Partitions, ports and windows are in the order of the text. There are no more
/// partitions than a module has.
#[derive(Drop)]
pub struct ModuleTable {
    pub schedule: Schedule,
    pub fault: ModuleAction,
    pub costs: Costs,
    pub partitions: Vec<PartitionRow>,
    pub channels: Vec<ChannelRow>,
    pub ghost few: { length partitions.items ≤ MOST_PARTITIONS },
}
