//! Listings of images and sources for an integrator: the instructions of each partition, and the
//! costs of each body.

mod code;
mod costs;
mod line;

pub use code::write_code;
pub use costs::write_costs;
