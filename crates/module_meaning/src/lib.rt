//! The meaning of a module table, of the text of the devices, and of the sources of a module: the
//! trace.
#![tactic(auto)]
