//! The meanings of the names of a program.

use crate::place::Place;

/// The kind of what a program declares by name and a service names: an object, a port or a process.
#[derive(Clone, Copy, PartialEq, Eq)]
pub enum ObjectKind {
    Semaphore,
    Event,
    Buffer,
    Blackboard,
    Port,
    Process,
}

/// The meaning of a name of a program.
#[derive(Clone, Copy)]
pub enum Denotation {
    /// A variable, a parameter or a local.
    Scalar(Place),
    /// An array: the place of its first word in the data, and its size in words.
    Array(u32, i64),
    /// An object, a port or a process, by its number.
    Object(ObjectKind, u32),
    /// A procedure by its number, from 0, and the number of its parameters.
    Procedure(u32, usize),
}
