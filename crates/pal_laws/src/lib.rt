//! Programs are read from their words without backtracking: the definitions of this reading, and that it finds
//! what the grammar says.
#![tactic(auto)]

pub mod grammar;
