//! How far texts are read: the beginnings that settle how a text is judged, whatever follows, with the
//! laws that they keep, and the most bytes of a table.
#![tactic(auto)]

mod beginning;
mod kind;
mod laws;

pub use beginning::{MOST_TABLE_BYTES, is_longer_than_a_table};
pub use kind::TextKind;
pub use laws::{image_is_settled, inputs_are_settled, source_is_settled};
