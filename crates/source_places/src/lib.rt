//! The words of a Pal source, one after another, and the words that its instructions come from.
//!
//! A place in a text is how many bytes of it are left from there on.
#![tactic(auto)]

mod passing;
mod places;
mod text_words;

pub use places::program_places;
pub use text_words::{first_word, from_word, next_word};
