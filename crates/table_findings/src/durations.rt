//! Partitions to which windows offer less than their duration.

ghost use Rattle.std.specs.Prelude.{◌≡◌, ◌++◌, ◌+◌, ◌-◌, ◌^◌, ◌<◌, ◌≤◌, map, nat_abs, OnOk};
ghost use Rattle.table_findings.specs.Durations as spec;
ghost use Rattle.table_findings.specs.Findings.{Short};
ghost use Rattle.table_findings.specs.Schedule.{partition_at};
ghost use Rattle.table_findings.specs.Views.{findings_of, subject_of, what_of};
ghost use Rattle.window_table.specs.Views.{partition_text, table_text, window_text};

use crate::finding::{Finding, What};
use crate::part::add;
use crate::subject::{Row, Subject};
use std::alloc::AllocError;
use window_table::{WrittenPartition, WrittenTable, WrittenWindow};

/// Adds each partition with a period in which its windows offer less than its duration: the first
/// such period.
///
/// # Errors
///
/// Only if memory runs out.
pub fn short_periods<'a>(
    found: &mut Vec<Finding<'a>>,
    table: &WrittenTable<'a>,
) -> Result<(), AllocError>
    ensures { OnOk result
        (findings_of found.new.items
        ≡ findings_of found.old.items ++ spec.short_periods (table_text table.now)) }
{
    let (frame, windows) = (table.frame.unsigned_abs(), table.windows.as_slice());
    short_periods_from(found, frame, windows, table.partitions.as_slice())
}

#[tactic(auto, using(std::proofs::lemmas::List::drop_more, std::proofs::lemmas::List::append_assoc, crate::proofs::Steps::append_nil))]
fn short_periods_from<'a>(
    found: &mut Vec<Finding<'a>>,
    frame: u64,
    windows: &[WrittenWindow<'a>],
    partitions: &[WrittenPartition<'a>],
) -> Result<(), AllocError>
    ensures { OnOk result
        (findings_of found.new.items
        ≡ findings_of found.old.items
        ++ spec.short_periods_from frame (map window_text windows.now) 0
        (map partition_text partitions.now)) }
{
    for (index, partition) in partitions.iter().enumerate() {
        short_period(found, frame, windows, index, partition)?;
    }
    Ok(())
}

/// Adds a partition with a period in which its windows offer less than its duration.
fn short_period<'a>(
    found: &mut Vec<Finding<'a>>,
    frame: u64,
    windows: &[WrittenWindow<'a>],
    index: usize,
    partition: &WrittenPartition<'a>,
) -> Result<(), AllocError>
    ensures { OnOk result
        (findings_of found.new.items
        ≡ findings_of found.old.items
        ++ spec.short_period frame (map window_text windows.now) index
        (partition_text partition.now)) }
{
    let period = partition.period.unsigned_abs();
    if period == 0 {
        return Ok(());
    }
    let first = first_short(windows, partition, frame / period);
    short_of(found, index, partition, first)
}

/// Adds a partition with such a period: where it begins, and what the windows offer.
fn short_of<'a>(
    found: &mut Vec<Finding<'a>>,
    index: usize,
    partition: &WrittenPartition<'a>,
    first: Option<(u128, u128)>,
) -> Result<(), AllocError>
    ensures { OnOk result
        (findings_of found.new.items
        ≡ findings_of found.old.items ++ spec.short_of index (partition_text partition.now) first) }
{
    match first {
        Some((from, offered)) => short(found, index, partition, from, offered),
        None => Ok(()),
    }
}

fn short<'a>(
    found: &mut Vec<Finding<'a>>,
    index: usize,
    partition: &WrittenPartition<'a>,
    from: u128,
    offered: u128,
) -> Result<(), AllocError>
    ensures { OnOk result
        (findings_of found.new.items
        ≡ findings_of found.old.items
        ++ spec.short index (partition_text partition.now) from offered) }
{
    let what = offers_less(partition, from, offered);
    add(found, row_subject(index, partition), Some("duration"), what)
}

/// That in the period from `from` on the windows offer less than the duration.
fn offers_less<'a>(partition: &WrittenPartition<'a>, from: u128, offered: u128) -> What<'a>
    ensures { what_of result
        ≡ Short from offered (nat_abs (partition_text partition.now).duration) }
{
    What::Short {
        from,
        offered,
        wanted: partition.duration.unsigned_abs(),
    }
}

/// The partition at a place of the list.
fn row_subject<'a>(index: usize, partition: &WrittenPartition<'a>) -> Subject<'a>
    ensures { subject_of result ≡ partition_at index (partition_text partition.now) }
{
    Subject::Partition(Row {
        index,
        name: Some(partition.name),
    })
}

/// The first of these many periods in which the windows offer less than the duration: where it
/// begins, and what they offer.
fn first_short(
    windows: &[WrittenWindow<'_>],
    partition: &WrittenPartition<'_>,
    periods: u64,
) -> Option<(u128, u128)>
    ensures { result
        ≡ spec.first_short periods 0 (partition_text partition.now) (map window_text windows.now) }
{
    let period = partition.period.unsigned_abs();
    let wanted = u128::from(partition.duration.unsigned_abs());
    let mut low: u128 = 0;
    for _turn in 0..periods {
        let offered = offered(windows, partition.name, low, period);
        if offered < wanted {
            return Some((low, offered));
        }
        low += u128::from(period);
    }
    None
}

/// The ticks of a period from `low` on that windows offer to the partition of a name.
fn offered(windows: &[WrittenWindow<'_>], name: &str, low: u128, period: u64) -> u128
    requires { low < 2 ^ 127 }
    ensures { result
        ≡ spec.offered name.now low (low + period) (map window_text windows.now) }
{
    let high = low + u128::from(period);
    let mut offered: u128 = 0;
    for window in windows {
        if window.partition == name {
            offered += common(low, high, *window);
        }
    }
    offered
}

/// The ticks that a window has in common with those from `low` up to `high`.
fn common(low: u128, high: u128, window: WrittenWindow<'_>) -> u128
    ensures value { result ≡ spec.common low high (window_text window.entry) }
    ensures bound { result ≤ high - low }
{
    let begin = u128::from(window.offset.unsigned_abs());
    let end = begin + u128::from(window.length.unsigned_abs());
    high.min(end).saturating_sub(low.max(begin))
}
