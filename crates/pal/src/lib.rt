//! The check of a program as it is written: its refusals, the program with its names resolved, and
//! what its bodies cost.
#![tactic(auto)]

mod kinds;
mod limits;
mod lines;
mod meanings;
mod names;
mod numbers;
mod periods;
mod report;
mod resolving;
mod scope;
mod table;
mod verdict;

pub use meanings::Counts;
pub use pal_base::checked::Checked;
pub use report::{BodyCost, BodyName, cost_report};
pub use table::text_of;
pub use verdict::check;
