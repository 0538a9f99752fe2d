//! What is wrong with an image, and with a device text or a replay text for its runs: where it is, what
//! was found there, and what to do.
//!
//! The reader of an image says which fault it met and not where. But a reader that reads from left to
//! right meets a fault at the first byte with which the bytes do not end within a field any more. So
//! the place is found by the verdicts on the beginnings of the bytes.
#![tactic(auto)]

mod beginnings;
mod devices;
mod explain;
mod explain_lines;
mod finding;
mod first;
mod foreign;
mod form;
mod inputs;
mod names;
mod naming;
mod parts;
mod phrases;
mod seen;

pub use devices::device_names;
pub use explain::explain_image;
pub use explain_lines::explain_text;
pub use finding::{What, Wrong};
pub use first::first_wrong;
pub use inputs::input_names;
pub use names::{Names, Receiver, TextKind};
