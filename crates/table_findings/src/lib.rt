//! What is wrong with a module table, rule by rule: each place where the rule is broken, what was
//! found there, and what to do.
#![tactic(auto)]

mod actions;
mod bounds;
mod durations;
mod explain;
mod explained;
mod fields;
mod finding;
mod fitting;
mod forms;
mod further;
mod lookup;
mod members;
mod no_toml;
mod part;
mod phrases;
mod repeated;
mod rows;
mod scan;
mod schedule;
mod subject;
mod unknown;
mod words;

pub use actions::health;
pub use bounds::limits;
pub use durations::short_periods;
pub use explain::explain_table;
pub use explained::findings_text;
pub use fields::Part;
pub use finding::{Finding, What};
pub use fitting::ends;
pub use forms::shape;
pub use further::{Further, explain_further};
pub use repeated::repeated_names;
pub use schedule::{odd_periods, overlaps, without_release};
pub use subject::{Row, Subject};
pub use unknown::unknown_names;
pub use words::Words;
