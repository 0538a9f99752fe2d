//! The summary of a trace.
//!
//! `Summary` counts the events of a trace one by one: how long each process was in each state, how
//! soon it ran and how soon it was done, which services were refused to it, and how many messages
//! came and went. `Report` holds the numbers, and writes them as tables or as comma-separated
//! values.
//! What is counted is proved; what is printed is tested, in `tests/views`.
#![tactic(auto)]

mod cell;
mod conditions;
mod counts;
mod errors;
mod extent;
mod extremes;
pub mod laws;
mod messages;
mod modes;
mod partitions;
mod processes;
mod refusals;
mod report;
mod responses;
mod sheet;
mod side_by_side;
mod starts;
mod states;
mod summary;
mod tally;
mod times;
mod told;
mod traffic;
mod usage;
mod whole;
mod writing;

pub use conditions::Conditions;
pub use errors::ErrorTotal;
pub use extent::Extent;
pub use extremes::Extremes;
pub use messages::{Messages, Route};
pub use modes::ModeTicks;
pub use refusals::Refusals;
pub use report::{PartitionTotal, ProcessTotal, Report, RouteTotal};
pub use responses::ResponseSpreads;
pub use side_by_side::{compared_sheet, compared_tables};
pub use starts::Starts;
pub use states::StateTicks;
pub use summary::Summary;
pub use tally::{Measured, Tally, Turn};
pub use times::{Percentile, Spread, Times};
pub use told::Told;
pub use whole::summary_of;
