//! Which lines of a trace are chosen, how many of some kinds it may have, and where two traces differ.
//!
//! A `Filter` says of each event whether its line is chosen. A `Listing` keeps the text of the
//! chosen lines. A `Limit` allows a number of lines, and a `Check` keeps the first chosen line that
//! is one too many.
//!
//! A `Comparison` takes the lines of two traces in the order of their ticks, each partition for
//! itself. It keeps for each what both have so far, and stops at the first line that only one of them
//! has there. Its memory grows with the lines of one tick, and not with the traces.
#![tactic(auto)]

mod check;
mod comparison;
mod filter;
mod kinds;
pub mod laws;
mod limit;
mod listing;
mod part;
mod rest;
mod same;
mod side;

pub use check::Check;
pub use comparison::Comparison;
pub use filter::{Filter, is_of_partition, route_in, subject_in};
pub use kinds::Kinds;
pub use limit::{Counted, Limit, Limits};
pub use listing::{Listing, line_of};
pub use part::{Difference, Part};
pub use rest::Rest;
pub use side::Side;
