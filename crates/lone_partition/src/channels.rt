//! The channels by which the messages of a partition's ports leave them.

ghost use Rattle.std.specs.Prelude.{◌≡◌, ◌≤◌, length, option_map, IfOk};
ghost use Rattle.std.specs.List.{list_any};
ghost use Rattle.apex_types.specs.Limits.{MOST_PORTS};
ghost use Rattle.module_meaning.specs.Module as meaning;
ghost use Rattle.module_meaning.specs.Table as rules_of_tables;
ghost use Rattle.image.specs.Items.{channel_of, channels_of};
ghost use Rattle.isolation.specs.Surrounded as slices;

use apex_types::{ChannelEnd, Name, PartitionId, PortId, PortRow};
use std::alloc::{AllocError, Global};
use window_table::ChannelRow;

/// Whether an end of a channel is a port.
fn is_port(partition: PartitionId, port: PortId, end: ChannelEnd) -> bool
    ensures { result ≡ meaning.is_port partition port end }
{
    match end {
        ChannelEnd::Device => false,
        ChannelEnd::Port(other, number) => other == partition && number == port,
    }
}

/// The channel whose source is this port, if any.
#[tactic(auto, using(std::proofs::lemmas::List::drop_more))]
pub fn channel_from(
    channels: &[ChannelRow],
    partition: PartitionId,
    port: PortId,
) -> Option<&ChannelRow>
    ensures { option_map (λ c. channel_of c.now) result
        ≡ meaning.channel_from (channels_of channels.now) partition port }
{
    for channel in channels {
        if is_port(partition, port, channel.source) {
            return Some(channel);
        }
    }
    None
}

fn is_device(end: ChannelEnd) -> bool
    ensures { result ≡ rules_of_tables.is_device end }
{
    match end {
        ChannelEnd::Device => true,
        ChannelEnd::Port(_, _) => false,
    }
}

fn has_device(ends: &[ChannelEnd]) -> bool
    ensures { result ≡ list_any rules_of_tables.is_device ends.now }
{
    ends.iter().any(|end| is_device(*end))
}

/// The name of a channel, if the device is among its destinations.
fn name_to_device(channel: Option<&ChannelRow>) -> Option<Name>
    ensures { result ≡ slices.name_to_device (option_map (λ c. channel_of c.now) channel.entry) }
{
    let channel = channel?;
    if has_device(channel.destinations.as_slice()) {
        Some(channel.name)
    } else {
        None
    }
}

/// For each of a partition's ports in number order, the name of the channel by which its messages
/// leave the module, if there is one. `AllocError`: out of memory.
pub fn ways_out(
    alloc: Global,
    channels: &[ChannelRow],
    partition: PartitionId,
    ports: &[PortRow],
) -> Result<Vec<Option<Name>>, AllocError>
    requires few { length ports.now ≤ MOST_PORTS }
    ensures { IfOk result
        (λ ways. ways.items ≡ slices.ways_from (channels_of channels.now) partition 1 ports.now) }
{
    let mut ways = Vec::with_capacity(alloc, ports.len())?;
    let mut number = 1u8;
    for _ in ports {
        let channel = channel_from(channels, partition, PortId(number));
        ways.push(name_to_device(channel))?;
        number += 1;
    }
    Ok(ways)
}
