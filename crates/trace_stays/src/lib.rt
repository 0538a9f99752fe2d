//! How long processes stay in their states, and partitions in their modes.
//!
//! A line of a trace says when a state or a mode begins. `Lanes` follows the events of a trace, and
//! returns each stay when it is over. Each tick of a process counts for one state: `Stay` says
//! which. `ShownTicks` are the ticks that a view of the trace shows.
#![tactic(auto)]

mod clearing;
mod fault;
mod following;
mod lanes;
pub mod laws;
mod next;
mod same;
mod shown;
mod span;
mod stay;
mod words;

pub use clearing::clears;
pub use fault::MemoryFull;
pub use lanes::{Ended, Lanes, PartitionLane, ProcessLane};
pub use next::{Next, next_by};
pub use same::{is_same_partition, is_same_subject};
pub use shown::ShownTicks;
pub use span::Span;
pub use stay::{ModeStay, ModeWatch, StateWatch, Stay};
pub use words::subject_word;
