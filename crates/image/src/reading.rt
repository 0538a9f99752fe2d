//! Reading an image from left to right: each reader returns a value and the bytes after it, or the
//! first fault.

pub mod bodies;
pub mod channels;
pub mod choices;
pub mod costs;
pub mod image;
pub mod items;
pub mod numbers;
pub mod objects;
pub mod partitions;
pub mod rows;
pub mod windows;
