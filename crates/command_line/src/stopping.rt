//! Runs that end with a line: with the first tick that has a line with the words that are asked
//! for.

mod running;
mod stepping;
mod words;

pub use running::{Wait, run_until};
