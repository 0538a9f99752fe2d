//! From an image to its partitions, ready to start.

ghost use Rattle.std.specs.Prelude.{◌≡◌, ◌≤◌, length, map, IfOk};
ghost use Rattle.apex_types.specs.Limits.{MOST_PARTITIONS};
ghost use Rattle.machine_meaning.specs.MachineMeaning.{machine_module};
ghost use Rattle.image.specs.Views.{image_of};
ghost use Rattle.partition_base.specs.contracts.machine.PartitionProcessorExecutor.TheImpl.{ghosts as machine};
ghost use Rattle.lone_partition.specs.Loading.{fresh_item};
ghost use Rattle.module.specs.Members.{members_of, AreFitting};
ghost use Rattle.module_meaning.specs.Standing.{at_first};
ghost use Rattle.module.specs.Views.{standing_of};

use crate::member::{Members, Module};
use apex_types::{PartitionId, Ticks};
use image::{Image, PartitionItem};
use lone_partition::{fixed, load_partition};
use partition::Partition;
use partition_base::{PartitionProcessor, memory_plan};
use regions::Memory;
use std::alloc::{AllocError, Global};

impl Module<PartitionProcessor> {
    /// Loads the partitions of an image, idle, with nothing created. `AllocError`: out of memory.
    pub fn load(alloc: Global, image: Image) -> Result<Module<PartitionProcessor>, AllocError>
        ensures standing { IfOk result
            (λ loaded.
            standing_of machine loaded ≡ at_first (machine_module (image_of image)).members) }
        ensures image { IfOk result (λ loaded. loaded.image ≡ image) }
    {
        let partitions = load_partitions(alloc, &image)?;
        let memory = load_memory(alloc, image.partitions.as_slice())?;
        Ok(Module {
            image,
            members: Members { partitions, memory },
            now: Ticks(0),
            origin: Some(Ticks(0)),
            window: 0,
        })
    }
}

/// The memory of all partitions: the initial data of each, and stacks of zeros.
fn load_memory(alloc: Global, items: &[PartitionItem]) -> Result<Memory, AllocError>
    ensures { IfOk result (λ memory. memory ≡ map fresh_item items.now) }
{
    let mut plan = Vec::with_capacity(alloc, items.len())?;
    for item in items {
        plan.push(memory_plan(alloc, &item.section)?)?;
    }
    Memory::new(alloc, &plan)
}

/// Loads each partition of an image in order, with its number.
#[tactic(auto, using(lone_partition::proofs::Lawful::fitting_items))]
fn load_partitions(
    alloc: Global,
    image: &Image,
) -> Result<Vec<Partition<PartitionProcessor>>, AllocError>
    ensures members { IfOk result
        (λ partitions. members_of machine partitions.items
        (map fresh_item image.now.partitions.items)
        ≡ (machine_module (image_of image.now)).members) }
    ensures fit { IfOk result
        (λ partitions. AreFitting machine partitions.items
        (map fresh_item image.now.partitions.items)) }
    ensures few { IfOk result (λ partitions. length partitions.items ≤ MOST_PARTITIONS) }
{
    let costs = image.version.costs();
    let items = image.partitions.as_slice();
    let mut partitions = Vec::with_capacity(alloc, items.len())?;
    let mut number = 1u8;
    for item in items {
        let fixed = fixed(alloc, &image.schedule, PartitionId(number), &item.row)?;
        partitions.push(load_partition(alloc, &costs, fixed, item)?)?;
        number += 1;
    }
    Ok(partitions)
}
