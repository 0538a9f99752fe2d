//! Laws of what `mb lint` finds: what a finding says of every run. The functions do nothing, and
//! promise a law each.
#![tactic(auto)]

pub mod listed;
pub mod runs;
