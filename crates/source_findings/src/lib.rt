//! What is wrong with a refused source, rule by rule: each place where the rule is broken, what was
//! found there, and what to do.
//!
//! A program is walked through word by word, along its tree, which says what each word is.
#![tactic(auto)]

mod bodies;
mod choices;
mod declarations;
mod explain;
mod finding;
mod frames;
mod further;
mod habits;
mod judge;
mod lengths;
mod phrases;
mod roles;
mod spot;
mod suggestion;
mod tally;
mod texts;
mod unfit;
mod walk;

pub use explain::{explain_length, explain_source};
pub use further::{Further, GivenSource, declared_name, explain_further};
