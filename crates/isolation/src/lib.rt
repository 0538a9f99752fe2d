//! Isolation: for each partition, a module's trace shows what the partition shows alone, whatever
//! the others run.
//!
//! `Slices` and `SourceSlices` say which part of a module belongs to one partition, `Brought` what
//! a run shows of it and brings it, `Alone` what it shows alone, `ReplayText` and `InputText` how
//! its inputs are written.
#![tactic(auto)]

mod input;
pub mod laws;

pub use input::{Input, InputLine};
