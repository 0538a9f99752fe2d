//! The definitions computed on small inputs. The values are worked out apart from them.
#![tactic(auto)]

mod code;
mod costs;
mod images;
mod judging;
mod processor;
mod smallest;
mod tables;
mod traces;
mod windows;
