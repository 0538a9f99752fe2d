//! From an image to one of its partitions, ready to start.

ghost use Rattle.std.specs.Prelude.{◌≡◌, ◌∷◌, [], IfOk};
ghost use Rattle.module_meaning.specs.Table.{fixed_of};
ghost use Rattle.machine_meaning.specs.MachineMeaning.{machine_member};
ghost use Rattle.image.specs.Items.{partition_of, section_of};
ghost use Rattle.partition.specs.Members.{member_of};
ghost use Rattle.partition.specs.View.{fixed_of as view};
ghost use Rattle.partition_base.specs.Machines.{laid_of, layout_of};
ghost use Rattle.partition_base.specs.contracts.machine.PartitionProcessorExecutor.TheImpl.{ghosts as machine};
ghost use Rattle.window_table.specs.Schedules.{schedule_of};
ghost use Rattle.lone_partition.specs.Loading.{IsFittingItem, fresh_item};

use apex_types::{Costs, PartitionId};
use image::PartitionItem;
use partition::{Fixed, Partition, PartitionRows};
use partition_base::{FittingSection, PartitionProcessor, memory_plan};
use regions::Memory;
use std::alloc::{AllocError, Global};
use window_table::{PartitionRow, Schedule};

/// The parts of a partition that no tick changes. `AllocError`: out of memory.
pub fn fixed(
    alloc: Global,
    schedule: &Schedule,
    number: PartitionId,
    row: &PartitionRow,
) -> Result<Fixed, AllocError>
    ensures { IfOk result
        (λ fixed.
        view fixed ≡ fixed_of (schedule_of schedule.now) number.0 (partition_of row.now)) }
{
    Ok(Fixed {
        name: row.name,
        number,
        period: row.period,
        duration: row.duration,
        schedule: schedule.of_partition(alloc, number)?,
        health: row.health,
    })
}

/// Loads a partition whose instructions have these costs, idle, with nothing created; its memory is
/// to be what its section asks for. `AllocError`: out of memory.
pub fn load_partition(
    alloc: Global,
    costs: &Costs,
    fixed: Fixed,
    item: &PartitionItem,
) -> Result<Partition<PartitionProcessor>, AllocError>
    requires { IsFittingItem item.now }
    ensures member { IfOk result
        (λ partition. member_of machine partition (fresh_item item.now)
        ≡ machine_member costs.now (view fixed) item.now.row.ports.items
        (section_of item.now.section)) }
    ensures fits { IfOk result
        (λ partition. laid_of (fresh_item item.now) ≡ layout_of partition.executor) }
{
    let section = &item.section;
    let executor = PartitionProcessor::new(alloc, costs, FittingSection { section })?;
    let rows = PartitionRows {
        ports: &item.row.ports,
        section,
    };
    let partition = Partition::new(alloc, fixed, rows, executor)?;
    Ok(partition)
}

/// The memory of one partition: its initial data, and stacks of zeros. `AllocError`: out of memory.
pub fn load_memory(alloc: Global, item: &PartitionItem) -> Result<Memory, AllocError>
    ensures { IfOk result (λ memory. memory ≡ fresh_item item.now ∷ []) }
{
    let mut plan = Vec::with_capacity(alloc, 1)?;
    plan.push(memory_plan(alloc, &item.section)?)?;
    Memory::new(alloc, &plan)
}
