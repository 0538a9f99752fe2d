//! The time that windows offer to partitions: periods, durations and releases.

ghost use Rattle.std.specs.Prelude.{◌≡◌, ◌≤◌, ◌<◌, ◌/◌, ◌==◌, ℕ, map, nat_lt, false};
ghost use Rattle.std.specs.List.{list_any};
ghost use Rattle.module_meaning.specs.Table.{has_odd_period, has_short_period, lacks_release, common, offered, falls_short};
ghost use Rattle.module_meaning.specs.ImageRules.{is_wrong_window, has_wrong_window};
ghost use Rattle.kernel_meaning.specs.Windows.{has_release};
ghost use Rattle.window_table.specs.Schedules.{schedule_of};

use crate::few::ModulePartitions;
use crate::row::HasRow;
use crate::schedule::{Schedule, releases};
use crate::table::PartitionRow;
use apex_types::{PartitionId, Ticks, WindowRow};

/// Returns true if the window names no partition of the table, or ends after the frame.
fn is_wrong_window(frame: u32, count: usize, window: &WindowRow) -> bool
    ensures { result ≡ is_wrong_window frame count window.now }
{
    window.partition.0 < 1
        || usize::from(window.partition.0) > count
        || u64::from(window.offset) + u64::from(window.length) > u64::from(frame)
}

/// Returns true if a window names no partition of the table, or ends after the frame.
pub fn has_wrong_window(frame: u32, count: usize, windows: &[WindowRow]) -> bool
    ensures { result ≡ has_wrong_window (record { frame = frame; windows = windows.now }) count }
{
    windows
        .iter()
        .any(|window| is_wrong_window(frame, count, window))
}

/// Returns true if the frame is no multiple of a partition's period.
#[tactic(auto, using(std::proofs::lemmas::List::drop_more))]
pub fn has_odd_period<P: HasRow>(frame: u32, partitions: &[P]) -> bool
    requires { list_any (λ p. p.period == 0) (map P.row_of partitions.now) ≡ false }
    ensures { result ≡ has_odd_period frame (map P.row_of partitions.now) }
{
    for partition in partitions {
        if frame % partition.row().period != 0 {
            return true;
        }
    }
    false
}

/// The ticks that a window has in common with those from `low` up to `high`.
fn common(low: Ticks, high: Ticks, window: &WindowRow) -> Ticks
    ensures { result.0 ≡ common low.0 high.0 window.now }
{
    let offset = u64::from(window.offset);
    let end = offset + u64::from(window.length);
    Ticks(end.min(high.0).saturating_sub(offset.max(low.0)))
}

/// Returns true if windows offer a partition fewer than `duration` of the ticks from `low` up to
/// `high`.
#[tactic(auto, using(std::proofs::lemmas::List::drop_more), unfolding(module_meaning::specs::Table::offered))]
fn offers_less(
    duration: Ticks,
    partition: PartitionId,
    low: Ticks,
    high: Ticks,
    windows: &[WindowRow],
) -> bool
    ensures { result ≡ nat_lt (offered partition.0 low.0 high.0 windows.now) duration.0 }
{
    let mut missing = duration.0;
    for window in windows {
        if missing == 0 {
            return false;
        }
        if window.partition.0 == partition.0 {
            missing = missing.saturating_sub(common(low, high, window).0);
        }
    }
    missing > 0
}

/// The windows from the first on that ends after a tick.
#[tactic(auto, unfolding(module_meaning::specs::Table::offered))]
fn not_ended(tick: Ticks, windows: &[WindowRow]) -> &[WindowRow]
    ensures same { (p low high : ℕ) → tick.0 ≤ low
        → offered p low high result.now ≡ offered p low high windows.now }
{
    let mut rest = windows;
    while let Some((window, others)) = rest.split_first() {
        if u64::from(window.offset) + u64::from(window.length) > tick.0 {
            return rest;
        }
        rest = others;
    }
    rest
}

/// Returns true if the windows offer a partition less than its duration in one of its periods.
#[tactic(auto, using(crate::proofs::Periods::period_within), unfolding(module_meaning::specs::Table::falls_short))]
fn falls_short(
    frame: u32,
    number: PartitionId,
    partition: &PartitionRow,
    windows: &[WindowRow],
) -> bool
    requires { 0 < partition.now.period }
    ensures { result
        ≡ falls_short (frame / partition.now.period)
        number.0 partition.now.period partition.now.duration windows.now }
{
    let period = u64::from(partition.period);
    let duration = u64::from(partition.duration);
    if duration == 0 {
        return false;
    }
    let mut rest = windows;
    let mut low: u64 = 0;
    for _ in 0..frame / partition.period {
        rest = not_ended(Ticks(low), rest);
        if offers_less(
            Ticks(duration),
            number,
            Ticks(low),
            Ticks(low + period),
            rest,
        ) {
            return true;
        }
        low += period;
    }
    false
}

/// Returns true if a partition's windows offer less than its duration in one of its periods.
#[tactic(auto, using(std::proofs::lemmas::List::drop_more), unfolding(module_meaning::specs::Table::falls_short_from))]
pub fn has_short_period<P: HasRow>(schedule: &Schedule, partitions: ModulePartitions<'_, P>) -> bool
    requires periods { list_any (λ p. p.period == 0) (map P.row_of partitions.rows.now) ≡ false }
    ensures { result
        ≡ has_short_period (schedule_of schedule.now) (map P.row_of partitions.entry.rows.now) }
{
    let mut number: u8 = 1;
    for partition in partitions.rows {
        if falls_short(
            schedule.frame,
            PartitionId(number),
            partition.row(),
            schedule.windows.as_slice(),
        ) {
            return true;
        }
        number += 1;
    }
    false
}

fn has_release(windows: &[WindowRow], partition: PartitionId) -> bool
    ensures { result ≡ has_release windows.now partition.0 }
{
    windows.iter().any(|window| releases(partition, window))
}

/// Returns true if a partition has no release window.
#[tactic(auto, using(std::proofs::lemmas::List::drop_more), unfolding(module_meaning::specs::Table::lacks_release_from))]
pub fn lacks_release<P: HasRow>(windows: &[WindowRow], partitions: ModulePartitions<'_, P>) -> bool
    ensures { result ≡ lacks_release windows.now (map P.row_of partitions.entry.rows.now) }
{
    let mut number: u8 = 1;
    for _ in partitions.rows {
        if !has_release(windows, PartitionId(number)) {
            return true;
        }
        number += 1;
    }
    false
}
