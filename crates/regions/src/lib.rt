//! The memory of all partitions, and the part of it that each of them may touch.
//!
//! [`Memory`] holds the words of every partition. It lends one partition's part at a time, a
//! [`PartitionMem`]; its borrower can reach no word of another partition.
#![tactic(auto)]

mod memory;
mod partition_mem;
mod plan;
mod reach;
mod region;

pub use memory::Memory;
pub use partition_mem::PartitionMem;
pub use plan::MemoryPlan;
pub use reach::Reach;
pub use region::{Region, Rights};
