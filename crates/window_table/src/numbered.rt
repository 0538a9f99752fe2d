//! The rows of windows and channels, with numbers for names.

ghost use Rattle.std.specs.Prelude.{◌≡◌, ◌||◌, ◌+ℤ◌, map, length, pos, nat_abs, option_map, int_lt, false, None, Some, IfOk, IfErr, if◌then◌else◌};
ghost use Rattle.std.specs.List.{list_any};
ghost use Rattle.module_meaning.specs.TableRules.{exceeds_window, exceeds_channel, overlaps_after, window_row, channel_row, is_unknown_window, has_unknown_end};
ghost use Rattle.window_table.specs.Answers.{RefusesOverlap};
ghost use Rattle.window_table.specs.Views.{partition_text, window_text, channel_text, channel_view};

use crate::fault::TableFault;
use crate::few::FewPartitions;
use crate::names::{channel_end, partition_number};
use crate::table::ChannelRow;
use crate::written::{WrittenChannel, WrittenWindow};
use apex_types::{ChannelEnd, Name, PartitionId, WindowRow};
use std::alloc::Global;

/// The place where a window ends, if it begins at or after the end of the one before it and ends
/// within the frame.
#[tactic(auto, using(crate::proofs::Orders::lt_true, crate::proofs::Orders::ge_false), unfolding(module_meaning::specs::TableRules::exceeds_window))]
fn window_end(frame: u32, end: u32, window: &WrittenWindow<'_>) -> Option<u32>
    requires { exceeds_window (window_text window.now) ≡ false }
    ensures { option_map pos result
        ≡ (if int_lt window.now.offset (pos end) || int_lt (pos frame)
        (window.now.offset +ℤ window.now.length) then None else Some
        (window.now.offset +ℤ window.now.length)) }
{
    let frame = i64::from(frame);
    if window.offset < i64::from(end) {
        return None;
    }
    if window.offset > frame {
        return None;
    }
    if window.length > frame - window.offset {
        return None;
    }
    Some((window.offset + window.length) as u32)
}

/// The row of a window that ends at `end`.
#[tactic(auto, unfolding(module_meaning::specs::TableRules::exceeds_window))]
fn placed_row(window: &WrittenWindow<'_>, end: u32, partition: PartitionId) -> WindowRow
    requires numbers { exceeds_window (window_text window.now) ≡ false }
    requires within { (window.now.offset +ℤ window.now.length) ≡ pos end }
    ensures { result
        ≡ record {
          partition = partition;
          offset = nat_abs window.now.offset;
          length = nat_abs window.now.length;
          release = window.now.release;
        } }
{
    WindowRow {
        partition,
        offset: window.offset as u32,
        length: window.length as u32,
        release: window.release,
    }
}

/// The rows of the windows: refused if a window begins before the end of the one before it, or ends
/// after the frame.
#[tactic(auto, using(std::proofs::lemmas::List::drop_more), unfolding(module_meaning::specs::TableRules::overlaps_after))]
pub fn window_rows(
    alloc: Global,
    frame: u32,
    partitions: FewPartitions<'_>,
    windows: &[WrittenWindow<'_>],
) -> Result<Vec<WindowRow>, TableFault>
    requires numbers { list_any exceeds_window (map window_text windows.now) ≡ false }
    requires known { list_any (is_unknown_window (map partition_text partitions.rows.now))
        (map window_text windows.now)
        ≡ false }
    ensures kept { IfOk result
        (λ rows. (overlaps_after (pos frame) (pos 0) (map window_text windows.now) ≡ false)
        × (map (window_row (map partition_text partitions.entry.rows.now))
        (map window_text windows.now)
        ≡ rows.items)) }
    ensures refused { RefusesOverlap result
        (overlaps_after (pos frame) (pos 0) (map window_text windows.now)) }
{
    let mut rows = Vec::new(alloc);
    let mut end: u32 = 0;
    for window in windows {
        let partition = partition_number(partitions, window.partition).ok_or(TableFault::Name)?;
        end = window_end(frame, end, window).ok_or(TableFault::Overlap)?;
        if rows.push(placed_row(window, end, partition)).is_err() {
            return Err(TableFault::Memory);
        }
    }
    Ok(rows)
}

#[tactic(auto, unfolding(module_meaning::specs::TableRules::exceeds_channel))]
fn channel_row(
    alloc: Global,
    partitions: FewPartitions<'_>,
    channel: &WrittenChannel<'_>,
) -> Result<ChannelRow, TableFault>
    requires name { exceeds_channel (channel_text channel.now) ≡ false }
    requires known { has_unknown_end (map partition_text partitions.rows.now)
        (channel_text channel.now) ≡ false }
    ensures ok { IfOk result
        (λ row. channel_view row
        ≡ channel_row (map partition_text partitions.entry.rows.now) (channel_text channel.now)) }
    ensures err { IfErr result (λ e. e ≡ TableFault.Memory) }
{
    let name = Name::new(channel.name.as_bytes()).ok_or(TableFault::Limit)?;
    let source = channel_end(partitions, channel.source).ok_or(TableFault::Name)?;
    let mut destinations: Vec<ChannelEnd> = Vec::new(alloc);
    for text in channel.destinations.as_slice() {
        let end = channel_end(partitions, text).ok_or(TableFault::Name)?;
        if destinations.push(end).is_err() {
            return Err(TableFault::Memory);
        }
    }
    Ok(ChannelRow {
        name,
        source,
        destinations,
    })
}

/// The rows of the channels.
#[tactic(auto, using(std::proofs::lemmas::List::drop_more))]
pub fn channel_rows(
    alloc: Global,
    partitions: FewPartitions<'_>,
    channels: &[WrittenChannel<'_>],
) -> Result<Vec<ChannelRow>, TableFault>
    requires name { list_any exceeds_channel (map channel_text channels.now) ≡ false }
    requires known { list_any (has_unknown_end (map partition_text partitions.rows.now))
        (map channel_text channels.now)
        ≡ false }
    ensures ok { IfOk result
        (λ rows. map channel_view rows.items
        ≡ map (channel_row (map partition_text partitions.entry.rows.now))
        (map channel_text channels.now)) }
    ensures err { IfErr result (λ e. e ≡ TableFault.Memory) }
{
    let mut rows = Vec::new(alloc);
    for channel in channels {
        let row = channel_row(alloc, partitions, channel)?;
        if rows.push(row).is_err() {
            return Err(TableFault::Memory);
        }
    }
    Ok(rows)
}
