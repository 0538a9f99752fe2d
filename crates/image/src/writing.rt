//! Writing an image: each writer appends the spelling of its value.

pub mod costs;
pub mod items;
pub mod numbers;
pub mod rows;
pub mod sections;
pub mod tables;
