//! The rules of the module table that an image keeps.

ghost use Rattle.std.specs.Prelude.{◌≡◌, ◌≤◌, ◌==◌, false, length, IfOk};
ghost use Rattle.std.specs.List.{list_any};
ghost use Rattle.apex_types.specs.Limits.{MOST_PARTITIONS};
ghost use Rattle.module_meaning.specs.ImageRules.{has_wrong_window, keeps_rules};
ghost use Rattle.window_table.specs.Schedules.{schedule_of};
ghost use Rattle.image.specs.Items.{rows_of, channels_of};

use crate::item::PartitionItem;
use std::alloc::{AllocError, Global};
use window_table::{
    ChannelRow, ModulePartitions, Schedule, has_odd_period, has_short_period, has_unknown_port,
    has_wrong_ends, lacks_release,
};

/// Returns true if the rules on windows, periods, durations, releases and channels are kept, where
/// each window names a partition of the table and ends within the frame. Fails only if memory runs
/// out.
pub fn keeps_rules(
    alloc: Global,
    schedule: &Schedule,
    partitions: &[PartitionItem],
    channels: &[ChannelRow],
) -> Result<bool, AllocError>
    requires few { length partitions.now ≤ MOST_PARTITIONS }
    requires periods { list_any (λ p. p.period == 0) (rows_of partitions.now) ≡ false }
    requires windows { has_wrong_window (schedule_of schedule.now) (length (rows_of partitions.now))
        ≡ false }
    ensures { IfOk result
        (λ kept. kept
        ≡ keeps_rules (schedule_of schedule.now) (rows_of partitions.now)
        (channels_of channels.now)) }
{
    let windows = schedule.windows.as_slice();
    if has_odd_period(schedule.frame, partitions)
        || has_short_period(schedule, ModulePartitions { rows: partitions })
        || lacks_release(windows, ModulePartitions { rows: partitions })
        || has_unknown_port(partitions, channels)
    {
        return Ok(false);
    }
    let wrong = has_wrong_ends(alloc, partitions, channels)?;
    Ok(!wrong)
}
