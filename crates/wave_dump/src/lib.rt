//! A trace as a value change dump (IEEE 1364), which waveform viewers show.
//!
//! Each state of a process and each mode of a partition is a wire that is 1 while it lasts. Messages,
//! reports and errors are events, which viewers show as pulses. One time unit of the dump is a tick. A
//! saved view says in which order the viewer GTKWave shows them.
#![tactic(auto)]

mod change;
mod dump;
mod fault;
mod header;
mod marks;
mod pulse;
mod saved;
mod text;
mod variable;
mod wires;

pub use dump::Dump;
pub use fault::DumpFault;
pub use saved::saved_view;
pub use wires::Wires;
