//! Laws of what views show of a trace: it is what its lines say, and so what the kernel did.
//! The functions do nothing, and promise a law each.
#![tactic(auto)]

pub mod drawings;
pub mod reports;
pub mod states;
pub mod uses;
pub mod windowed;
pub mod words;
