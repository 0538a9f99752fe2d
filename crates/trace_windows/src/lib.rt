//! The windows of a module table in the ticks of a trace, and what the processor did in each of them.
//!
//! Frames follow each other from tick 0 on, and again from the tick of each reset of the module.
//! `Windows` reads the lines of a trace, and has for the ticks that are shown whose window each is
//! in.
//!
//! `Shares` counts each tick once: for a process of the partition that owns it, as idle in a window
//! of that partition, as a tick in no window, or as a tick after a shutdown. It counts while the
//! lines are read. A run of any length is counted by its frames, not tick by tick.
#![tactic(auto)]

mod counted;
mod fault;
pub mod laws;
mod lines;
mod owner;
mod shares;
mod shares_fault;
mod stretch;
mod ticks;
mod usage;
mod windows;

pub use counted::{Counted, Row};
pub use fault::WindowsFault;
pub use owner::{Owner, Stop};
pub use shares::Shares;
pub use shares_fault::SharesFault;
pub use stretch::Stretch;
pub use usage::Use;
pub use windows::Windows;
