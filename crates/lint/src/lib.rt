//! What of a module is accepted and probably not meant: findings in a source, each with its place.
//!
//! A finding says that a stated condition on the text holds. Nothing else is concluded.
#![tactic(auto)]

mod arrays;
mod call_table;
mod calls;
mod channels;
mod declarations;
mod does;
mod finding;
mod gathering;
mod lives;
mod locks;
mod mentions;
mod names;
mod plain;
mod port_rules;
mod recursion;
mod report;
mod sentence;
mod services;
mod slow;
mod stacks;
mod starts;
mod unused;
mod used;
mod uses;
mod wanted;
mod writing;

pub use finding::{Finding, FindingKind};
pub use gathering::findings;
pub use report::{PartitionFindings, have_findings, partition_findings, status};
pub use slow::slow_processes;
pub use writing::write_findings;
