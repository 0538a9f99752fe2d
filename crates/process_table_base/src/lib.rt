//! The processes of a partition: their records, the choice of the runner, what is due, and the
//! changes of one process that make up services.
//!
//! A contract says that a call makes the step of its definition (`IsMade`), or only its lines and
//! actions if nothing changes (`IsTold`), and how many lines and actions it adds at most (`Grows`).
//! A call that changes a process gets the process with the record that was looked up ([`Found`]):
//! a service looks each record up once.
#![tactic(auto)]

mod change;
mod choice;
mod due;
mod duration;
mod find;
mod found;
mod message;
mod own;
mod records;
mod request;
mod rooms;
mod serve;
mod sharing;
mod start;
mod table;
mod timers;
mod waiting;

pub use change::{answer, refuse};
pub use due::{Treated, mode_of_action};
pub use duration::{is_delay, is_duration, time_out};
pub use find::{is_dormant, name_of};
pub use found::Found;
pub use message::{first_words, is_large_enough, is_length};
pub use records::ProcessRows;
pub use request::{Handed, Request};
pub use rooms::{
    ACTIONS_TO_GIVE_ALL, ACTIONS_TO_RELEASE_ALL, ACTIONS_TO_TREAT_DUE, LINES_TO_GIVE_ALL,
    LINES_TO_RELEASE_ALL, LINES_TO_TREAT_DUE,
};
pub use start::Points;
pub use table::{ProcessTable, is_same};
pub use waiting::fill;
