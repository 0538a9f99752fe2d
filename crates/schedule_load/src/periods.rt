//! What the windows of a partition offer in its periods.

ghost use Rattle.std.specs.Prelude.{◌≡◌, ◌≤◌, ◌<◌, ◌+◌, ◌/◌, ℕ, min, max};
ghost use Rattle.window_table.specs.Schedules.{schedule_of};
ghost use Rattle.schedule_load.specs.Ownership.{least_offered, most_offered, offered_in, periods_of};

use crate::counting::{Stretch, counted, stretch_from, ticks_of};
use apex_types::PartitionId;
use window_table::Schedule;

/// The least and the most ticks that are offered in a period.
#[derive(Clone, Copy)]
pub struct Offered {
    pub least: u32,
    pub most: u32,
}

impl Offered {
    /// The same with those of one more period.
    fn and(self, ticks: u32) -> Offered
        ensures { result ≡ record { least = min ticks self.least; most = max ticks self.most } }
    {
        Offered {
            least: ticks.min(self.least),
            most: ticks.max(self.most),
        }
    }
}

/// Periods that follow one another and offer as much as each other: how many, and the ticks in each.
#[derive(Clone, Copy)]
struct Alike {
    count: u32,
    ticks: u32,
}

/// The periods from the one with the number `passed` on that offer as much as that. A stretch of one
/// owner may have many of them, which are not counted one by one.
#[tactic(auto, using(window_table::proofs::Periods::period_within))]
fn next_alike(schedule: &Schedule, partition: PartitionId, period: u32, passed: u32) -> Alike
    requires period { 0 < period }
    requires left { passed < schedule.now.frame / period }
    ensures some { 0 < result.count }
    ensures within { passed + result.count ≤ schedule.now.frame / period }
    ensures ticks { (i : ℕ) → i < result.count
        → offered_in (schedule_of schedule.now) partition.0 period (passed + i) ≡ result.ticks }
{
    let frame = schedule.frame;
    let low = passed * period;
    let next = stretch_from(schedule, low, frame);
    let whole = (next.ticks / period).min(frame / period - passed);
    if whole == 0 {
        return Alike {
            count: 1,
            ticks: ticks_of(schedule, Some(partition), low, low + period),
        };
    }
    let one = Stretch {
        owner: next.owner,
        ticks: period,
    };
    Alike {
        count: whole,
        ticks: counted(Some(partition), one),
    }
}

/// The least and the most ticks that a partition owns in one of the periods of the frame.
pub fn offers_of(schedule: &Schedule, partition: PartitionId, period: u32) -> Offered
    ensures { result
        ≡ record {
          least = least_offered (schedule_of schedule.now) partition.0 period
              (periods_of schedule.now.frame period);
          most = most_offered (schedule_of schedule.now) partition.0 period
              (periods_of schedule.now.frame period);
        } }
{
    let frame = schedule.frame;
    let mut offered = Offered {
        least: period,
        most: 0,
    };
    if period == 0 {
        return offered;
    }
    let mut passed: u32 = 0;
    while passed < frame / period {
        let next = next_alike(schedule, partition, period, passed);
        offered = offered.and(next.ticks);
        passed += next.count;
    }
    offered
}
