//! Laws of what the lines of a trace say of states: what they say is what the kernel's state is.
//! The functions do nothing, and promise a law each.
#![tactic(auto)]

pub mod locks;
pub mod runs;
