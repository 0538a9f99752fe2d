//! A partition of an image with everything that it needs to run alone.

ghost use Rattle.lone_partition.specs.Only.{IsAlone};

use crate::load::{fixed, load_memory, load_partition};
use crate::surroundings::Surroundings;
use apex_types::{PartitionId, TraceBuffer};
use image::Image;
use partition::Partition;
use partition_base::PartitionProcessor;
use regions::Memory;
use std::alloc::{AllocError, Global};

/// One partition of an image, before its first start: itself, its memory, and its surroundings.
#[derive(Drop)]
pub struct LonePartition {
    pub(crate) surroundings: Surroundings,
    pub(crate) partition: Partition<PartitionProcessor>,
    /// The memory of this partition.
    pub(crate) memory: Memory,
    /// The lines of a step on their way to a sink.
    pub(crate) trace: TraceBuffer,
    ghost alone: { IsAlone partition memory },
}

impl LonePartition {
    ghost use Rattle.std.specs.Prelude.{◌≡◌, ◌≤◌, ◌<◌, length, option_map, Some, IfOk};
    ghost use Rattle.image.specs.Views.{image_of};
    ghost use Rattle.isolation.specs.Slices.{machine_alone, slice};
    ghost use Rattle.lone_partition.specs.Lone.{alone_of};

    /// Loads the partition with this number, which is one of the image's, from its slice of the
    /// image, whatever else the image holds. `AllocError`: out of memory.
    #[tactic(auto, using(crate::proofs::Lawful::fitting_items))]
    pub fn load(
        alloc: Global,
        image: &Image,
        number: PartitionId,
    ) -> Result<LonePartition, AllocError>
        requires there { 0 < number.0 }
        requires within { number.0 ≤ length image.now.partitions.items }
        ensures { IfOk result
            (λ lone. Some (alone_of lone)
            ≡ option_map machine_alone (slice (image_of image.now) number.0)) }
    {
        let item = &image.partitions[usize::from(number.0) - 1];
        let surroundings = Surroundings::load(alloc, image, number, &item.row.ports)?;
        let fixed = fixed(alloc, &surroundings.schedule, number, &item.row)?;
        let partition = load_partition(alloc, &image.version.costs(), fixed, item)?;
        let memory = load_memory(alloc, item)?;
        Ok(LonePartition {
            surroundings,
            partition,
            memory,
            trace: TraceBuffer::new(alloc)?,
        })
    }
}
