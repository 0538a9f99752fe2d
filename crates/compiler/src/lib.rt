//! The compiler: a program with its names resolved becomes a section of an image.
//!
//! Each construct is one instruction, so that the code costs what the source says.
#![tactic(auto)]

mod bodies;
mod emit;
mod fault;
mod section;
mod size;

pub use fault::CompileFault;
pub use section::compile;
pub use size::size_of_program;
