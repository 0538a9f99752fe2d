//! Windows of the major frame.

ghost use Rattle.std.specs.Prelude.{◌≡◌, ◌+◌};
ghost use Rattle.machine_meaning.specs.ImageReading.{last_end, end_of, offset_at, window_at};
ghost use Rattle.image.specs.Views.{Gives};

use crate::fault::ImageFault;
use crate::reading::choices::truth_at;
use crate::reading::numbers::{byte_at, u32_at, u32_within};
use crate::reading::rows::Row;
use apex_types::{Limits, PartitionId, WindowRow};

/// The tick after the window's last one, counted from the frame's start.
fn end_of(row: &WindowRow) -> u64
    ensures { result ≡ row.now.offset + row.now.length }
{
    u64::from(row.offset) + u64::from(row.length)
}

/// The place where the last of these windows ends; 0 without windows.
fn last_end(rows: &[WindowRow]) -> u64
    ensures { result ≡ last_end rows.now }
{
    match rows.last() {
        Some(row) => end_of(row),
        None => 0,
    }
}

/// An offset that is not before the end of the windows read.
#[tactic(auto, unfolding(machine_meaning::specs::ImageReading::offset_at))]
fn offset_at(end: u64, bytes: &[u8]) -> Result<(u32, &[u8]), ImageFault>
    ensures { Gives (λ x. (x.0, x.1.now)) result (offset_at end bytes.now) }
{
    let (offset, rest) = u32_at(bytes)?;
    if u64::from(offset) < end {
        return Err(ImageFault::Order);
    }
    Ok((offset, rest))
}

impl Row for WindowRow {
    ghost reads = { λ _. window_at };

    #[tactic(auto, unfolding(machine_meaning::specs::ImageReading::window_at))]
    fn read<'a>(
        _limits: Limits,
        before: &[WindowRow],
        bytes: &'a [u8],
    ) -> Result<(WindowRow, &'a [u8]), ImageFault> {
        let (partition, rest) = byte_at(bytes)?;
        let (offset, rest) = offset_at(last_end(before), rest)?;
        let (length, rest) = u32_within(rest, 1, u32::MAX)?;
        let (release, rest) = truth_at(rest)?;
        let row = WindowRow {
            partition: PartitionId(partition),
            offset,
            length,
            release,
        };
        Ok((row, rest))
    }
}
