//! The semaphores, events, buffers and blackboards of a partition: their records by the numbers of
//! programs, and the changes of one object that make up services.
#![tactic(auto)]

mod blackboard;
mod buffer;
mod event;
mod find;
mod messages;
mod objects;
mod semaphore;

pub use blackboard::{Blackboard, BlackboardStatus};
pub use buffer::{Buffer, BufferStatus};
pub use event::ApexEvent;
pub use find::place_of;
pub use messages::append;
pub use objects::Objects;
pub use semaphore::Semaphore;
