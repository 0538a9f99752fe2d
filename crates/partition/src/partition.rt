//! A partition: its kernel over an executor.

ghost use Rattle.std.specs.Prelude.{◌≡◌, IfOk};
ghost use Rattle.partition.specs.Fresh.{AreWithinLimits, idle_kernel};
ghost use Rattle.partition.specs.View.{fixed_of};
ghost use Rattle.partition.specs.WithinFact.{within_prop};

use crate::fixed::Fixed;
use crate::kernel::Kernel;
use apex_types::{Out, PortRow, Section, Words};
use partition_base::Executor;
use std::alloc::{AllocError, Global};

/// The ports of a partition and its section: it has no more processes, ports and objects of a kind than a
/// partition may have, and no period, time capacity or refresh period longer than a run.
#[derive(Clone, Copy)]
pub struct PartitionRows<'a> {
    pub ports: &'a [PortRow],
    pub section: &'a Section,
    pub ghost within: { AreWithinLimits ports.now section.now } by { within_prop ports.now section.now },
}

/// The kernel of a partition, and the executor of its processes.
#[derive(Drop)]
pub struct Partition<E: Executor> {
    pub(crate) kernel: Kernel,
    pub(crate) executor: E,
    /// The lines and the actions of a phase, before they are done.
    pub(crate) out: Out,
    /// The words that a call passes, while it is served.
    pub(crate) handed: Words,
    /// How many more lines the ticks in hand may write.
    pub(crate) room: usize,
}

impl<E: Executor + Drop> Partition<E> {
    /// The partition of a section with these ports, in idle mode: no process, object or port is
    /// created, there is no message, and no error waits. Its processes run on the executor, where
    /// what was begun stays begun. `AllocError`: out of memory.
    pub fn new(
        alloc: Global,
        fixed: Fixed,
        rows: PartitionRows<'_>,
        executor: E,
    ) -> Result<Partition<E>, AllocError>
        ensures kernel { IfOk result
            (λ partition. partition.kernel
            ≡ idle_kernel (fixed_of fixed) rows.entry.ports.now rows.entry.section.now) }
        ensures executor { IfOk result (λ partition. partition.executor ≡ executor) }
    {
        Ok(Partition {
            kernel: Kernel::new(alloc, fixed, rows)?,
            executor,
            out: Out::new(alloc)?,
            handed: Words::new(),
            room: 0,
        })
    }
}

impl<E: Executor> Partition<E> {
    /// The kernel's state, for reading.
    pub fn kernel(&self) -> &Kernel
        ensures { result.now ≡ self.now.kernel }
    {
        &self.kernel
    }

    /// The executor of its processes, for reading.
    pub fn executor(&self) -> &E
        ensures { result.now ≡ self.now.executor }
    {
        &self.executor
    }
}
