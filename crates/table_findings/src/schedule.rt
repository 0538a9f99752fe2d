//! What is wrong with the windows and the periods of a table.

ghost use Rattle.std.specs.Prelude.{◌≡◌, ◌++◌, map, OnOk, pos};
ghost use Rattle.table_findings.specs.Schedule as spec;
ghost use Rattle.table_findings.specs.Views.{findings_of, subject_of};
ghost use Rattle.window_table.specs.Views.{partition_text, table_text, window_text};

use crate::finding::{Finding, What};
use crate::part::add;
use crate::subject::{Row, Subject};
use std::alloc::AllocError;
use window_table::{WrittenPartition, WrittenTable, WrittenWindow};

/// Adds each window that begins before the end of the one before it, and each that ends past the
/// frame.
///
/// # Errors
///
/// Only if memory runs out.
pub fn overlaps<'a>(
    found: &mut Vec<Finding<'a>>,
    table: &WrittenTable<'a>,
) -> Result<(), AllocError>
    ensures { OnOk result
        (findings_of found.new.items
        ≡ findings_of found.old.items ++ spec.overlaps (table_text table.now)) }
{
    overlaps_from(found, table.frame, table.windows.as_slice())
}

#[tactic(auto, using(std::proofs::lemmas::List::drop_more, std::proofs::lemmas::List::append_assoc, crate::proofs::Steps::append_nil))]
fn overlaps_from<'a>(
    found: &mut Vec<Finding<'a>>,
    frame: i64,
    windows: &[WrittenWindow<'a>],
) -> Result<(), AllocError>
    ensures { OnOk result
        (findings_of found.new.items
        ≡ findings_of found.old.items
        ++ spec.overlaps_from frame (pos 0) 0 (map window_text windows.now)) }
{
    let mut before: i128 = 0;
    for (index, window) in windows.iter().enumerate() {
        placed(found, frame, before, index, *window)?;
        before = window_end(*window);
    }
    Ok(())
}

/// Adds what is wrong with the place of a window, where the one before it ends at `before`.
fn placed<'a>(
    found: &mut Vec<Finding<'a>>,
    frame: i64,
    before: i128,
    index: usize,
    window: WrittenWindow<'a>,
) -> Result<(), AllocError>
    ensures { OnOk result
        (findings_of found.new.items
        ≡ findings_of found.old.items ++ spec.placed frame before index (window_text window.entry)) }
{
    early(found, before, index, window)?;
    late(found, frame, index, window)
}

/// Adds a window that begins before `before`.
fn early<'a>(
    found: &mut Vec<Finding<'a>>,
    before: i128,
    index: usize,
    window: WrittenWindow<'a>,
) -> Result<(), AllocError>
    ensures { OnOk result
        (findings_of found.new.items
        ≡ findings_of found.old.items ++ spec.early before index (window_text window.entry)) }
{
    let begin = window.offset;
    if i128::from(begin) < before {
        let what = What::Overlaps { begin, before };
        add(found, subject_at(index, window), Some("offset"), what)
    } else {
        Ok(())
    }
}

/// Adds a window that ends past the frame.
fn late<'a>(
    found: &mut Vec<Finding<'a>>,
    frame: i64,
    index: usize,
    window: WrittenWindow<'a>,
) -> Result<(), AllocError>
    ensures { OnOk result
        (findings_of found.new.items
        ≡ findings_of found.old.items ++ spec.late frame index (window_text window.entry)) }
{
    let end = window_end(window);
    if i128::from(frame) < end {
        let what = What::PastFrame { end, frame };
        add(found, subject_at(index, window), Some("length"), what)
    } else {
        Ok(())
    }
}

/// The window at a place of the list.
pub fn subject_at<'a>(index: usize, window: WrittenWindow<'a>) -> Subject<'a>
    ensures { subject_of result ≡ spec.window_at index (window_text window.entry) }
{
    Subject::Window(Row {
        index,
        name: Some(window.partition),
    })
}

/// Where a window ends.
fn window_end(window: WrittenWindow<'_>) -> i128
    ensures { result ≡ spec.window_end (window_text window.entry) }
{
    i128::from(window.offset) + i128::from(window.length)
}

/// Adds each partition whose period does not divide the frame.
///
/// # Errors
///
/// Only if memory runs out.
pub fn odd_periods<'a>(
    found: &mut Vec<Finding<'a>>,
    table: &WrittenTable<'a>,
) -> Result<(), AllocError>
    ensures { OnOk result
        (findings_of found.new.items
        ≡ findings_of found.old.items ++ spec.odd_periods (table_text table.now)) }
{
    odd_periods_from(
        found,
        table.frame.unsigned_abs(),
        table.partitions.as_slice(),
    )
}

#[tactic(auto, using(std::proofs::lemmas::List::drop_more, std::proofs::lemmas::List::append_assoc, crate::proofs::Steps::append_nil))]
fn odd_periods_from<'a>(
    found: &mut Vec<Finding<'a>>,
    frame: u64,
    partitions: &[WrittenPartition<'a>],
) -> Result<(), AllocError>
    ensures { OnOk result
        (findings_of found.new.items
        ≡ findings_of found.old.items
        ++ spec.odd_periods_from frame 0 (map partition_text partitions.now)) }
{
    for (index, partition) in partitions.iter().enumerate() {
        odd_period(found, frame, index, partition)?;
    }
    Ok(())
}

/// Adds a partition whose period does not divide the frame.
fn odd_period<'a>(
    found: &mut Vec<Finding<'a>>,
    frame: u64,
    index: usize,
    partition: &WrittenPartition<'a>,
) -> Result<(), AllocError>
    ensures { OnOk result
        (findings_of found.new.items
        ≡ findings_of found.old.items ++ spec.odd_period frame index (partition_text partition.now)) }
{
    let period = partition.period.unsigned_abs();
    if period == 0 || frame % period == 0 {
        return Ok(());
    }
    let subject = Subject::Partition(Row {
        index,
        name: Some(partition.name),
    });
    add(
        found,
        subject,
        Some("period"),
        What::OddPeriod { period, frame },
    )
}

/// Adds each partition without a release window.
///
/// # Errors
///
/// Only if memory runs out.
pub fn without_release<'a>(
    found: &mut Vec<Finding<'a>>,
    table: &WrittenTable<'a>,
) -> Result<(), AllocError>
    ensures { OnOk result
        (findings_of found.new.items
        ≡ findings_of found.old.items ++ spec.without_release (table_text table.now)) }
{
    without_release_from(found, table.windows.as_slice(), table.partitions.as_slice())
}

#[tactic(auto, using(std::proofs::lemmas::List::drop_more, std::proofs::lemmas::List::append_assoc, crate::proofs::Steps::append_nil))]
fn without_release_from<'a>(
    found: &mut Vec<Finding<'a>>,
    windows: &[WrittenWindow<'a>],
    partitions: &[WrittenPartition<'a>],
) -> Result<(), AllocError>
    ensures { OnOk result
        (findings_of found.new.items
        ≡ findings_of found.old.items
        ++ spec.without_release_from (map window_text windows.now) 0
        (map partition_text partitions.now)) }
{
    for (index, partition) in partitions.iter().enumerate() {
        if !is_released(windows, partition.name) {
            let subject = Subject::Partition(Row {
                index,
                name: Some(partition.name),
            });
            add(found, subject, None, What::NoRelease)?;
        }
    }
    Ok(())
}

/// Returns true if a window of the partition of that name is a release window.
#[tactic(auto, using(std::proofs::lemmas::List::drop_more))]
fn is_released(windows: &[WrittenWindow<'_>], name: &str) -> bool
    ensures { result ≡ spec.is_released (map window_text windows.now) name.now }
{
    for window in windows {
        if window.release && window.partition == name {
            return true;
        }
    }
    false
}
