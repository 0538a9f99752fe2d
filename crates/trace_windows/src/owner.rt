//! The partitions of a module table, which own its windows.

use apex_types::{Name, Subject};

/// A partition of the module table, and its process that is RUNNING after the lines so far.
#[derive(Clone, Copy)]
pub struct Owner {
    pub name: Name,
    pub running: Option<Subject>,
}

/// A process that stopped running in the tick of the last lines, and has worked in it.
#[derive(Clone, Copy)]
pub struct Stop {
    /// The place of its partition in the module table, from 0.
    pub place: usize,
    pub who: Subject,
}
