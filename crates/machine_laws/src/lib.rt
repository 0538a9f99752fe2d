//! Laws over images and tables: an image and its bytes determine each other, and the result of an
//! accepted table is lawful.
#![tactic(auto)]

pub mod image;
pub mod tables;
