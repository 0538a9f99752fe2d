//! The machine on which a partition's kernel runs its processes.
//!
//! [`Executor`] is all that a kernel requires of it. A contract sees an executor as an engine, as
//! the controls of the runners that have something left to do, and as the words of the data. Each
//! call but `read` requires that the borrowed memory has the layout that the executor was made for,
//! and keeps it. [`PartitionProcessor`] is the processor as an executor.
#![tactic(auto)]

pub mod executor;
mod machine;
mod slot;

pub use executor::Executor;
pub use machine::{FittingSection, PartitionProcessor, memory_plan, message, put};
