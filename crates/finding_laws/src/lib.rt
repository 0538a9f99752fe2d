//! Laws: a table, a source, an image, a device text or a replay text breaks a rule if and only if
//! something is found in it that does. The functions do nothing, and promise a law each.
#![tactic(auto)]

pub mod images;
pub mod sources;
pub mod tables;
pub mod texts;
