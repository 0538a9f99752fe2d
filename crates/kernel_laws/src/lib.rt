//! Laws over the kernel and its windows: the lists of the ready and the waiting processes, against
//! numbers, in every state of every run; the next release; many ticks together.
#![tactic(auto)]

pub mod bursts;
pub mod choice;
pub mod order;
pub mod waiting;
