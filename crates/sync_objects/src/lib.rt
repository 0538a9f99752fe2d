//! The services on semaphores, events, buffers and blackboards, one function each: a function does
//! the part of its service that concerns the processes and the objects, and adds its lines and
//! actions to `out`.
#![tactic(auto)]

pub mod blackboards;
pub mod buffers;
pub mod events;
pub mod semaphores;
