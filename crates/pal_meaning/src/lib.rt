//! The meaning of a source of Pal: its words, its grammar, its rules, its costs, and the behavior
//! of each of its processes tick by tick.
#![tactic(auto)]
