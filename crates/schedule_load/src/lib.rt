//! The load of a schedule, before any run: how many ticks of the frame each partition owns, what
//! its windows offer in its periods, and which ticks are unowned; and what the bodies of a source
//! cost, with their time capacities. As tables, as comma-separated values, and as a picture of the
//! frame. What is counted is proved; what is printed is tested, in `tests/load` and `tests/printing`.
#![tactic(auto)]

mod bodies;
mod cells;
mod counting;
pub mod laws;
mod load;
mod periods;
mod picture;
mod report;
mod share;
mod sheet;
mod tables;
mod unowned;

pub use bodies::{BodyLoad, body_loads};
pub use counting::ticks_of;
pub use load::{FrameLoad, PartitionLoad, frame_load};
pub use report::{LoadReport, PartitionBodies};
pub use share::Share;
pub use unowned::{Gap, gaps};
