//! The inputs of a module: the text of its devices, and the text of the inputs of one partition.
//!
//! Both texts have the same forms and the same refusal numbers; they differ in the word of a
//! message and in what a name may be.
#![tactic(auto)]

mod devices;
mod fault;
mod inputs;
mod line;
mod read;
mod writing;

pub use devices::read_devices;
pub use fault::{DeviceTextFault, fault_number};
pub use inputs::read_inputs;
pub use writing::write_inputs;
