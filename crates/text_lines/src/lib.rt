//! The pieces of a line of text between marks, and the numbers in its digits.
#![tactic(auto)]

mod number;
mod piece;

pub use number::{are_digits, number_at_most, plain_number, word};
pub use piece::split_at;
