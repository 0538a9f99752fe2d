//! One partition: its kernel, over any executor.
//!
//! It serves all calls of its processes, and only it performs the actions of a step on the
//! processor, the data and the error queue. No contract above this crate names a service or an
//! opcode.
#![tactic(auto)]

mod acting;
mod advance;
mod errors;
mod fixed;
mod kernel;
mod messages;
mod modes;
mod object_services;
mod partition;
mod port_services;
mod rooms;
mod services;
mod still;
mod tick;

pub use fixed::Fixed;
pub use kernel::Kernel;
pub use partition::{Partition, PartitionRows};
