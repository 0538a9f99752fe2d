//! Counting the ticks of the frame by their owners.

ghost use Rattle.std.specs.Prelude.{◌≡◌, ◌≤◌, ◌<◌, ◌+◌, ◌-◌, ℕ, option_map, if◌then◌else◌};
ghost use Rattle.window_table.specs.Schedules.{schedule_of};
ghost use Rattle.schedule_load.specs.Ownership.{is_of, owner_at, ticks_of};

use apex_types::{At, Moment, PartitionId, Ticks};
use window_table::Schedule;

/// The owner of a tick of the frame, and for how many ticks from then on it stays.
#[derive(Clone, Copy)]
pub struct Stretch {
    pub owner: Option<PartitionId>,
    pub ticks: u32,
}

/// The ticks from `tick` on that have the owner of `tick`, as far as they are before `high` and no
/// window begins or ends among them.
pub fn stretch_from(schedule: &Schedule, tick: u32, high: u32) -> Stretch
    requires { tick < high }
    ensures some { 0 < result.ticks }
    ensures within { tick + result.ticks ≤ high }
    ensures owner { (i : ℕ) → i < result.ticks
        → owner_at (schedule_of schedule.now) (tick + i) ≡ option_map (λ p. p.0) result.owner }
{
    let moment = Moment {
        at: At {
            now: Ticks(u64::from(tick)),
            origin: Ticks(0),
        },
    };
    let owner = schedule.owner(moment);
    let ticks = schedule.until_change(moment).min(u64::from(high - tick));
    Stretch {
        owner,
        ticks: ticks as u32,
    }
}

/// Returns true if both owners are the same; no owner is that of unowned ticks.
fn is_of(who: Option<PartitionId>, owner: Option<PartitionId>) -> bool
    ensures { result ≡ is_of (option_map (λ p. p.0) who) (option_map (λ p. p.0) owner) }
{
    match (who, owner) {
        (Some(who), Some(owner)) => who.0 == owner.0,
        (None, None) => true,
        _ => false,
    }
}

/// The ticks of a stretch if this is its owner, else 0.
pub fn counted(who: Option<PartitionId>, stretch: Stretch) -> u32
    ensures ticks { result
        ≡ (if is_of (option_map (λ p. p.0) who) (option_map (λ p. p.0) stretch.owner) then stretch.ticks
        else 0) }
    ensures bound { result ≤ stretch.ticks }
{
    if is_of(who, stretch.owner) {
        stretch.ticks
    } else {
        0
    }
}

/// How many of the ticks from `low` up to `high` of the frame this partition owns; without one, how
/// many are unowned.
pub fn ticks_of(schedule: &Schedule, who: Option<PartitionId>, low: u32, high: u32) -> u32
    ensures { result
        ≡ ticks_of (schedule_of schedule.now) (option_map (λ p. p.0) who) low high }
{
    let mut count: u32 = 0;
    let mut tick = low;
    while tick < high {
        let next = stretch_from(schedule, tick, high);
        count += counted(who, next);
        tick += next.ticks;
    }
    count
}
