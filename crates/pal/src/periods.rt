//! Tests that the period of each process is a multiple of its partition's.

ghost use Rattle.std.specs.Prelude.{◌≡◌, ◌&&◌, List, ℕ, map, is_ok, true, if◌then◌else◌};
ghost use Rattle.std.specs.List.{list_all};
ghost use Rattle.pal_meaning.specs.WellFormed.{keeps_period, is_written_multiple};
ghost use Rattle.pal_base.specs.View as view;
ghost use Rattle.pal_base.specs.View.{number_of};

use crate::lines::{Check, check_that};
use crate::numbers::value_of;
use pal_base::syntax::{Numeral, Process};

/// Checks that each finite period is a multiple of the partition's. The error is the line of the
/// first process for which it is not.
pub fn check_periods(processes: &[Process], partition: u32) -> Check
    ensures { (names : List (List ℕ))
        → is_ok result
        ≡ list_all (keeps_period partition) (map (view.process_of names) processes.now) }
{
    for process in processes {
        check_that(is_aligned(partition, &process.period), process.line)?;
    }
    Ok(())
}

/// Returns true if a period is infinite or a multiple of the partition's.
fn is_aligned(partition: u32, period: &Numeral) -> bool
    ensures { result
        ≡ (if period.now.negative then true else is_written_multiple partition
        (number_of period.now)) }
{
    period.negative || is_written_multiple(partition, period)
}

/// Returns true if a number as it is written is a multiple of the partition's period; a number
/// above 2^63 - 1 is not.
fn is_written_multiple(partition: u32, number: &Numeral) -> bool
    ensures { result ≡ is_written_multiple partition (number_of number.now) }
{
    match value_of(number) {
        Some(ticks) => 0 < partition && ticks % partition as u64 == 0,
        None => false,
    }
}
