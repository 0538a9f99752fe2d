//! What the shares of a whole trace are.

ghost use Rattle.std.specs.Prelude.{◌≡◌, ◌-◌, IfOk};
ghost use Rattle.trace_windows.specs.Counts.{all_ticks};
ghost use Rattle.trace_windows.specs.Runs.{AreBefore, AreSharesOf};
ghost use Rattle.trace_windows.specs.Standings.{in_run};
ghost use Rattle.window_table.specs.Schedules.{schedule_of};

use crate::shares::Shares;
use crate::shares_fault::SharesFault;
use apex_types::{Event, Name, Ticks};
use std::alloc::Global;
use window_table::Schedule;

/// Each tick of a run counts once: the shares of a trace whose lines are read one by one are those
/// of the run, from one tick on and before the other, and all rows together have these ticks.
pub fn each_tick_is_used_once(
    alloc: Global,
    schedule: Schedule,
    names: &[Name],
    from: Ticks,
    until: Ticks,
    events: &[Event],
) -> Result<Shares, SharesFault>
    ensures used { IfOk result
        (λ shares. AreBefore (in_run until.0) 0 events.now
        → AreSharesOf (schedule_of schedule) names.now from.0 (in_run until.0) events.now
        shares.counted.rows.items) }
    ensures all { IfOk result
        (λ shares. AreBefore (in_run until.0) 0 events.now
        → all_ticks shares.counted.rows.items ≡ in_run until.0 - from.0) }
{
    let mut shares = Shares::new(alloc, schedule, names, from)?;
    for event in events {
        shares.follow(event)?;
    }
    shares.pass_to(until)?;
    Ok(shares)
}
