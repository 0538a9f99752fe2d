//! The image: the bytes that an integrator's tool writes and the kernel loads.
//!
//! Every [`Image`] is lawful, by its type: its bytes are read again as this image. The rules on
//! windows, periods, releases and channels are those of the module table.
#![tactic(auto)]

mod fault;
mod item;
mod load;
mod reading;
mod rules;
mod upgrading;
mod value;
mod write;
mod writing;

pub use fault::ImageFault;
pub use item::PartitionItem;
pub use load::load_image;
pub use value::Image;
pub use write::write_image;
