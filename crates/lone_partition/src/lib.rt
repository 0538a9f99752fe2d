//! One partition of an image, loaded and run alone.
//!
//! [`LonePartition`] holds the partition's own windows, its kernel, its processor and its memory,
//! and nothing of its neighbours. Its run takes its inputs from outside, line by line in the order
//! of the ticks, and writes what the trace of the whole module shows of the partition when it gets
//! the same inputs there.
//!
//! Its parts serve a whole module too: loading a partition, a step of it and many ticks together,
//! whose lines go to a sink, and the lines of a tick.
#![tactic(auto)]

mod channels;
mod input;
mod lines;
mod load;
mod lone;
mod output;
mod pieces;
mod running;
mod sending;
mod step;
mod surroundings;
mod ticking;

pub use channels::channel_from;
pub use lines::{HasTick, at_most, split_tick, until_line};
pub use load::{fixed, load_partition};
pub use lone::LonePartition;
pub use output::Output;
pub use pieces::write_piece;
pub use step::{PartitionStep, write_leave, write_step};
