//! The rows of a state: what they say, and how they are written, as text and as JSON.
#![tactic(auto)]

mod field;
mod row;

pub use field::{flag, number, tick, word, words};
pub use row::{Field, Form, Value, begin_row, end_row, write_fields, write_row};
