//! Reads the text of a trace back into its events.
//!
//! `apex_types::TraceBuffer` writes a trace; this crate is the way back. `read_line` reads one
//! line, a `TraceReader` goes over a text line by line, and a `TraceStream` does the same over the
//! bytes of a reader, however many they are.
//!
//! An event can be written if its tick is below 2^40, its names have the form of names, its
//! message has 1 to 64 words, and it can happen at its place: a fault of the module belongs to no
//! partition and no process, all else to a partition, and STOP_SELF never ends. A trace is a list
//! of such events in the order of their ticks.
#![tactic(auto)]

mod ahead;
mod field;
mod keyword;
mod kind;
pub mod laws;
mod line;
mod reader;
mod stream;
mod whole;

pub use keyword::{Keyword, keyword_of};
pub use line::{LineFault, read_line};
pub use reader::{TraceFault, TraceReader};
pub use stream::{StreamFault, TraceStream};
pub use whole::check_trace;
