//! Shared definitions: digits, the results of operators, and the engine on which a process runs,
//! whatever it is.
#![tactic(auto)]
