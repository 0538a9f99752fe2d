//! The partitions and processes of a trace, in the order of their first lines.

ghost use Rattle.std.specs.Prelude.{◌≡◌, [], length};
ghost use Rattle.trace_stays.specs.Within.{AreWithin};

use crate::stay::{ModeStay, ModeWatch, StateWatch, Stay};
use apex_types::{Name, Subject};
use std::alloc::Global;

/// A partition that has a line.
#[derive(Clone, Copy)]
pub struct PartitionLane {
    pub name: Name,
    pub(crate) watch: ModeWatch,
}

/// The subject of a line of a process: the process, INIT or the error handler of a partition.
#[derive(Clone, Copy)]
pub struct ProcessLane {
    /// The place of its partition among the partitions.
    pub partition: usize,
    pub who: Subject,
    pub(crate) watch: StateWatch,
}

/// A stay that is over.
#[derive(Clone, Copy, PartialEq, Eq)]
pub enum Ended {
    /// Of the process at this place among the processes.
    State(usize, Stay),
    /// Of the partition at this place among the partitions.
    Mode(usize, ModeStay),
}

/// The subjects of the lines of a trace, and the state or mode of each of them.
#[derive(Drop)]
pub struct Lanes {
    pub(crate) partitions: Vec<PartitionLane>,
    pub(crate) processes: Vec<ProcessLane>,
    ghost within: { AreWithin (length partitions.items) processes.items },
}

impl Lanes {
    /// No process has a line yet.
    pub fn new(alloc: Global) -> Lanes
        ensures partitions { result.partitions.items ≡ [] }
        ensures processes { result.processes.items ≡ [] }
    {
        Lanes {
            partitions: Vec::new(alloc),
            processes: Vec::new(alloc),
        }
    }

    /// The partitions, in the order of their first lines.
    pub fn partitions(&self) -> &[PartitionLane]
        ensures { result.now ≡ self.now.partitions.items }
    {
        self.partitions.as_slice()
    }

    /// The processes of all partitions, in the order of their first lines.
    pub fn processes(&self) -> &[ProcessLane]
        ensures { result.now ≡ self.now.processes.items }
    {
        self.processes.as_slice()
    }
}
