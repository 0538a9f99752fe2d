//! The module table: the integrator's statement of partitions, ports, windows and channels.
//!
//! Tables and images have rows in common, so the rules on rows take anything that has a partition's
//! row. A [`Schedule`] is the frame with its windows; it says who owns a tick, whose window ends at
//! it, and when a partition is released next.
#![tactic(auto)]

mod channels;
mod durations;
mod fault;
mod few;
mod keys;
mod limits;
mod members;
mod names;
mod numbered;
mod read;
mod row;
mod schedule;
mod span;
mod table;
mod words;
mod written;

pub use channels::{has_unknown_port, has_wrong_ends};
pub use durations::{has_odd_period, has_short_period, has_wrong_window, lacks_release};
pub use fault::TableFault;
pub use few::ModulePartitions;
pub use names::is_port_name;
pub use read::read_table;
pub use row::HasRow;
pub use schedule::Schedule;
pub use span::Span;
pub use table::{ChannelRow, ModuleTable, PartitionRow};
pub use written::{
    WrittenChannel, WrittenKind, WrittenPartition, WrittenPort, WrittenTable, WrittenWindow,
    read_written,
};
