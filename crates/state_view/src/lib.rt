//! The rows of a partition's state, written from the partition in the module.
#![tactic(auto)]

mod chain;
mod declared;
mod errors;
mod heading;
mod lists;
mod member;
mod mode;
mod names;
mod objects;
mod parts;
mod port_rows;
mod processes;
mod runners;
mod source;
mod values;
mod waits;
mod words;

pub use member::write_member;
pub use names::write_names;
pub use parts::{Part, part_with, write_part};
pub use source::Source;
