//! Channels and their ends.

ghost use Rattle.std.specs.Prelude.{◌≡◌, []};
ghost use Rattle.std.specs.List.{list_any};
ghost use Rattle.std.specs.Str.{bytes_eq};
ghost use Rattle.apex_types.specs.Limits.{MOST_CHANNELS};
ghost use Rattle.machine_meaning.specs.ImageReading.{is_channel, fresh_name_at, end_between, channel_end_at, channel_at, items_at, list_at};
ghost use Rattle.image.specs.Items.{channel_of, channels_of};
ghost use Rattle.image.specs.Views.{Gives};

use crate::fault::ImageFault;
use crate::reading::numbers::{byte_at, name_at, same_name, u32_within};
use crate::reading::rows;
use crate::reading::rows::Row;
use apex_types::limits::{MOST_CHANNELS, MOST_DESTINATIONS};
use apex_types::{ChannelEnd, Limits, Name, PartitionId, PortId};
use std::alloc::Global;
use window_table::ChannelRow;

impl Row for ChannelEnd {
    ghost reads = { λ _ _. channel_end_at };

    #[tactic(auto, unfolding(machine_meaning::specs::ImageReading::channel_end_at))]
    fn read<'a>(
        _limits: Limits,
        _before: &[ChannelEnd],
        bytes: &'a [u8],
    ) -> Result<(ChannelEnd, &'a [u8]), ImageFault> {
        let (partition, rest) = byte_at(bytes)?;
        let (port, rest) = byte_at(rest)?;
        if partition == 0 && port == 0 {
            return Ok((ChannelEnd::Device, rest));
        }
        Ok((ChannelEnd::Port(PartitionId(partition), PortId(port)), rest))
    }
}

fn is_channel(rows: &[ChannelRow], name: &Name) -> bool
    ensures { result ≡ list_any (λ row. bytes_eq row.name name.now) rows.now }
{
    rows.iter().any(|row| same_name(&row.name, name))
}

#[tactic(auto, using(crate::proofs::Names::channel_names), unfolding(machine_meaning::specs::ImageReading::fresh_name_at))]
fn channel_name_at<'a>(
    before: &[ChannelRow],
    bytes: &'a [u8],
) -> Result<(Name, &'a [u8]), ImageFault>
    ensures { Gives (λ x. (x.0, x.1.now)) result
        (fresh_name_at (is_channel (channels_of before.now)) bytes.now) }
{
    match name_at(bytes) {
        Ok((name, _)) if is_channel(before, &name) => Err(ImageFault::Order),
        found => found,
    }
}

#[tactic(auto, unfolding(machine_meaning::specs::ImageReading::channel_at))]
fn channel_at<'a>(
    alloc: Global,
    limits: Limits,
    before: &[ChannelRow],
    bytes: &'a [u8],
) -> Result<(ChannelRow, &'a [u8]), ImageFault>
    ensures { Gives (λ x. (channel_of x.0, x.1.now)) result
        (channel_at (channels_of before.now) bytes.now) }
{
    let (name, rest) = match channel_name_at(before, bytes) {
        Ok(found) => found,
        Err(fault) => return Err(fault),
    };
    let (source, rest) = ChannelEnd::read(limits, &[], rest)?;
    let (destinations, rest) = rows::list_at(alloc, limits, rest, 1, MOST_DESTINATIONS as u32)?;
    let row = ChannelRow {
        name,
        source,
        destinations,
    };
    Ok((row, rest))
}

fn channels_at(
    alloc: Global,
    limits: Limits,
    count: u32,
    bytes: &[u8],
) -> Result<(Vec<ChannelRow>, &[u8]), ImageFault>
    ensures { Gives (λ x. (channels_of x.0.items, x.1.now)) result
        (items_at channel_at count [] bytes.now) }
{
    let mut rows: Vec<ChannelRow> = Vec::new(alloc);
    let mut rest = bytes;
    for _ in 0..count {
        let (row, after) = match channel_at(alloc, limits, &rows, rest) {
            Ok(found) => found,
            Err(fault) => return Err(fault),
        };
        rows.push(row)?;
        rest = after;
    }
    Ok((rows, rest))
}

/// The channels.
#[tactic(auto, unfolding(machine_meaning::specs::ImageReading::list_at))]
pub fn channel_list_at(
    alloc: Global,
    limits: Limits,
    bytes: &[u8],
) -> Result<(Vec<ChannelRow>, &[u8]), ImageFault>
    ensures { Gives (λ x. (channels_of x.0.items, x.1.now)) result
        (list_at 0 MOST_CHANNELS channel_at bytes.now) }
{
    let (count, rest) = u32_within(bytes, 0, MOST_CHANNELS as u32)?;
    channels_at(alloc, limits, count, rest)
}
