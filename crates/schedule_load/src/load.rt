//! The load of a module table.

ghost use Rattle.std.specs.Prelude.{◌≡◌, ◌≤◌, ◌++◌, length, map, IfOk};
ghost use Rattle.apex_types.specs.Limits.{MOST_PARTITIONS};
ghost use Rattle.window_table.specs.Schedules.{schedule_of};
ghost use Rattle.window_table.specs.Views.{partition_view, table_of};
ghost use Rattle.schedule_load.specs.Load.{IsLoadOf, partition_load, partition_loads};

use crate::counting::ticks_of;
use crate::periods::offers_of;
use crate::unowned::{Gap, gaps};
use apex_types::{Name, PartitionId};
use std::alloc::{AllocError, Global};
use window_table::{ModuleTable, PartitionRow, Schedule};

/// The load of a partition, in ticks.
#[derive(Clone, Copy)]
pub struct PartitionLoad {
    pub name: Name,
    /// The ticks of a frame that it owns.
    pub ticks: u32,
    pub period: u32,
    /// The ticks that it wants in each of its periods.
    pub wanted: u32,
    /// The least and the most ticks that its windows offer in one of its periods.
    pub least: u32,
    pub most: u32,
}

/// The load of a frame: its ticks, the unowned ticks, the partitions in the order of the table, and
/// the gaps in the order of the frame.
#[derive(Drop)]
pub struct FrameLoad {
    pub frame: u32,
    pub unowned: u32,
    pub partitions: Vec<PartitionLoad>,
    pub gaps: Vec<Gap>,
}

/// The load of the partition with this number.
fn partition_load(schedule: &Schedule, number: PartitionId, row: &PartitionRow) -> PartitionLoad
    ensures { result
        ≡ partition_load (schedule_of schedule.now) number.0 (partition_view row.now) }
{
    let offers = offers_of(schedule, number, row.period);
    PartitionLoad {
        name: row.name,
        ticks: ticks_of(schedule, Some(number), 0, schedule.frame),
        period: row.period,
        wanted: row.duration,
        least: offers.least,
        most: offers.most,
    }
}

/// The loads of the partitions, which are numbered from 1.
#[tactic(auto, using(std::proofs::lemmas::List::drop_more))]
fn partition_loads(
    alloc: Global,
    schedule: &Schedule,
    rows: &[PartitionRow],
) -> Result<Vec<PartitionLoad>, AllocError>
    requires { length rows.now ≤ MOST_PARTITIONS }
    ensures { IfOk result
        (λ loads. loads.items
        ≡ partition_loads (schedule_of schedule.now) 1 (map partition_view rows.now)) }
{
    let mut loads = Vec::new(alloc);
    let mut number: u8 = 1;
    for row in rows {
        loads.push(partition_load(schedule, PartitionId(number), row))?;
        number += 1;
    }
    Ok(loads)
}

/// The load of a module table. Fails only if memory runs out.
pub fn frame_load(alloc: Global, table: &ModuleTable) -> Result<FrameLoad, AllocError>
    ensures { IfOk result (λ load. IsLoadOf (table_of table.now) load) }
{
    let schedule = &table.schedule;
    Ok(FrameLoad {
        frame: schedule.frame,
        unowned: ticks_of(schedule, None, 0, schedule.frame),
        partitions: partition_loads(alloc, schedule, &table.partitions)?,
        gaps: gaps(alloc, schedule)?,
    })
}
