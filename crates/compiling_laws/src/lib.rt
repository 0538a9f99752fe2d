//! The compiled code of a program, and the laws over it: it behaves as the program's source.
#![tactic(auto)]

pub mod checking;
pub mod compilation;
pub mod costs;
