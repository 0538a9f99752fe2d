//! Laws of the definitions: their functions do nothing, and promise a law each.

pub mod inputs;
pub mod parts;
