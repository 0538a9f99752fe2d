//! The memory of all partitions.

use crate::partition_mem::PartitionMem;
use crate::plan::MemoryPlan;
use apex_types::PartitionId;
use std::alloc::{AllocError, Global};
use std::marker::Model;

/// The memory of all partitions, in their order. The number of words of each part never changes.
#[derive(Drop)]
pub struct Memory {
    parts: Vec<PartitionMem>,
}

impl Model for Memory {
    ghost use Rattle.std.specs.Prelude.{List};
    ghost use Rattle.regions.specs.Space.{Space};

    ghost Value = { List Space };

    ghost view = { λ m. m.parts.items };
}

impl Memory {
    ghost use Rattle.std.specs.Prelude.{◌≡◌, IfOk, Some, map, slice_get, slice_set};
    ghost use Rattle.std.specs.Borrow.{sem, Lends};
    ghost use Rattle.regions.specs.Parts.{HasPart, place_of};
    ghost use Rattle.regions.specs.Space.{planned};
    ghost use Rattle.regions.specs.contracts.memory.Memory.{the_row};
    ghost use Rattle.regions.specs.contracts.partition_mem.PartitionMem.{the_row as part_row};

    /// The memory of all partitions: of each its initial data, and stacks of zeros. Fails only if
    /// memory runs out.
    pub fn new(alloc: Global, plan: &[MemoryPlan]) -> Result<Memory, AllocError>
        ensures { IfOk result (λ memory. memory ≡ map planned plan.now) }
    {
        let mut parts = Vec::with_capacity(alloc, plan.len())?;
        for part in plan {
            parts.push(PartitionMem::new(alloc, part)?)?;
        }
        Ok(Memory { parts })
    }

    /// The words of a partition, one of those of the plan, which are numbered from 1, for reading.
    pub fn part(&self, partition: PartitionId) -> &PartitionMem
        requires { HasPart self.now partition }
        ensures { slice_get self.now (place_of partition) ≡ Some result.now }
    {
        &self.parts[usize::from(partition.0) - 1]
    }

    /// The words of a partition, one of those of the plan, which are numbered from 1. After the
    /// loan these are as the borrower left them, and all others are unchanged.
    pub fn lend(&mut self, partition: PartitionId) -> &mut PartitionMem
        requires { HasPart self.old partition }
        ensures* back { sem 𝓛 (Lends the_row part_row self.entry result (λ w. slice_set self.entry.now (place_of partition) w)) }
        ensures lent { slice_get self.old (place_of partition) ≡ Some result.now }
    {
        &mut self.parts[usize::from(partition.0) - 1]
    }
}
