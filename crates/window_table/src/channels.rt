//! The rules on the ends of channels.

ghost use Rattle.std.specs.Prelude.{◌≡◌, map, flat_map, option_map, option_copied, IfOk};
ghost use Rattle.std.specs.List.{list_any};
ghost use Rattle.module_meaning.specs.Table.{port_at, is_device, is_same_port, is_in_same_partition, is_same_kind, is_source_port, is_destination_port, is_queuing_port, differ, ends_of, is_wrong, has_wrong_direction, has_mixed_ports, sends_to_itself, has_two_devices, has_twice, has_wrong_ends};
ghost use Rattle.module_meaning.specs.ImageRules.{is_unknown_port, has_unknown_port};
ghost use Rattle.window_table.specs.Views.{channel_view};

use crate::row::HasRow;
use crate::table::ChannelRow;
use apex_types::{ChannelEnd, PortDirection, PortKind, PortRow};
use std::alloc::{AllocError, Global};

/// The port at an end; `None` if the end is the device, or no such port exists.
fn port_at<P: HasRow>(partitions: &[P], end: ChannelEnd) -> Option<&PortRow>
    ensures { option_copied result ≡ port_at (map P.row_of partitions.now) end }
{
    match end {
        ChannelEnd::Device => None,
        ChannelEnd::Port(partition, port) => {
            let row = partitions.get(usize::from(partition.0.saturating_sub(1)))?;
            row.row().ports.get(usize::from(port.0.saturating_sub(1)))
        }
    }
}

fn is_device(end: &ChannelEnd) -> bool
    ensures { result ≡ is_device end.now }
{
    match end {
        ChannelEnd::Device => true,
        ChannelEnd::Port(_, _) => false,
    }
}

fn is_same_port(first: &ChannelEnd, second: &ChannelEnd) -> bool
    ensures { result ≡ is_same_port first.now second.now }
{
    match (first, second) {
        (ChannelEnd::Port(partition, port), ChannelEnd::Port(other, other_port)) => {
            partition.0 == other.0 && port.0 == other_port.0
        }
        _ => false,
    }
}

fn is_in_same_partition(first: &ChannelEnd, second: &ChannelEnd) -> bool
    ensures { result ≡ is_in_same_partition first.now second.now }
{
    match (first, second) {
        (ChannelEnd::Port(partition, _), ChannelEnd::Port(other, _)) => partition.0 == other.0,
        _ => false,
    }
}

fn is_same_kind(first: &PortKind, second: &PortKind) -> bool
    ensures { result ≡ is_same_kind first.now second.now }
{
    match (first, second) {
        (PortKind::Sampling { .. }, PortKind::Sampling { .. }) => true,
        (PortKind::Queuing { .. }, PortKind::Queuing { .. }) => true,
        _ => false,
    }
}

fn is_source_port<P: HasRow>(partitions: &[P], end: ChannelEnd) -> bool
    ensures { result ≡ is_source_port (map P.row_of partitions.now) end }
{
    match port_at(partitions, end) {
        Some(port) => port.direction == PortDirection::Source,
        None => false,
    }
}

fn is_destination_port<P: HasRow>(partitions: &[P], end: ChannelEnd) -> bool
    ensures { result ≡ is_destination_port (map P.row_of partitions.now) end }
{
    match port_at(partitions, end) {
        Some(port) => port.direction == PortDirection::Destination,
        None => false,
    }
}

fn is_queuing_port<P: HasRow>(partitions: &[P], end: ChannelEnd) -> bool
    ensures { result ≡ is_queuing_port (map P.row_of partitions.now) end }
{
    match port_at(partitions, end) {
        Some(port) => match port.kind {
            PortKind::Sampling { .. } => false,
            PortKind::Queuing { .. } => true,
        },
        None => false,
    }
}

/// Returns true if an end names a partition or a port that does not exist.
fn is_unknown_port<P: HasRow>(partitions: &[P], end: ChannelEnd) -> bool
    ensures { result ≡ is_unknown_port (map P.row_of partitions.now) end }
{
    match end {
        ChannelEnd::Device => false,
        ChannelEnd::Port(partition, port) => {
            partition.0 == 0 || port.0 == 0 || port_at(partitions, end).is_none()
        }
    }
}

fn has_unknown<P: HasRow>(partitions: &[P], ends: &[ChannelEnd]) -> bool
    ensures { result ≡ list_any (is_unknown_port (map P.row_of partitions.now)) ends.now }
{
    ends.iter().any(|end| is_unknown_port(partitions, *end))
}

fn has_unknown_end<P: HasRow>(partitions: &[P], channel: &ChannelRow) -> bool
    ensures { result
        ≡ list_any (is_unknown_port (map P.row_of partitions.now))
        (ends_of (channel_view channel.now)) }
{
    is_unknown_port(partitions, channel.source)
        || has_unknown(partitions, channel.destinations.as_slice())
}

/// Returns true if an end of a channel is neither a port nor the device.
#[tactic(auto, using(std::proofs::lemmas::List::drop_more))]
pub fn has_unknown_port<P: HasRow>(partitions: &[P], channels: &[ChannelRow]) -> bool
    ensures { result
        ≡ has_unknown_port (map P.row_of partitions.now) (map channel_view channels.now) }
{
    for channel in channels {
        if has_unknown_end(partitions, channel) {
            return true;
        }
    }
    false
}

/// Returns true if two ends are ports of different kind or words.
fn differ<P: HasRow>(partitions: &[P], first: ChannelEnd, second: ChannelEnd) -> bool
    ensures { result ≡ differ (map P.row_of partitions.now) first second }
{
    match (port_at(partitions, first), port_at(partitions, second)) {
        (Some(a), Some(b)) => !is_same_kind(&a.kind, &b.kind) || a.words != b.words,
        _ => false,
    }
}

/// The ends of a channel, its source first. Fails only if memory runs out.
fn ends_of(alloc: Global, channel: &ChannelRow) -> Result<Vec<ChannelEnd>, AllocError>
    ensures { IfOk result (λ v. v.items ≡ ends_of (channel_view channel.now)) }
{
    let mut ends = Vec::new(alloc);
    ends.push(channel.source)?;
    ends.extend_from_slice(channel.destinations.as_slice())?;
    Ok(ends)
}

fn has_source<P: HasRow>(partitions: &[P], ends: &[ChannelEnd]) -> bool
    ensures { result ≡ list_any (is_source_port (map P.row_of partitions.now)) ends.now }
{
    ends.iter().any(|end| is_source_port(partitions, *end))
}

/// Returns true if the source is a destination port, or a destination is a source port.
fn has_wrong_direction<P: HasRow>(partitions: &[P], channel: &ChannelRow) -> bool
    ensures { result
        ≡ has_wrong_direction (map P.row_of partitions.now) (channel_view channel.now) }
{
    is_destination_port(partitions, channel.source)
        || has_source(partitions, channel.destinations.as_slice())
}

fn differs<P: HasRow>(partitions: &[P], first: ChannelEnd, ends: &[ChannelEnd]) -> bool
    ensures { result ≡ list_any (differ (map P.row_of partitions.now) first) ends.now }
{
    ends.iter().any(|second| differ(partitions, first, *second))
}

/// Returns true if two ports differ in kind or words.
fn has_mixed_ports<P: HasRow>(partitions: &[P], ends: &[ChannelEnd]) -> bool
    ensures { result ≡ has_mixed_ports (map P.row_of partitions.now) ends.now }
{
    ends.iter().any(|first| differs(partitions, *first, ends))
}

fn sends_to_itself(channel: &ChannelRow) -> bool
    ensures { result ≡ sends_to_itself (channel_view channel.now) }
{
    let source = channel.source;
    channel
        .destinations
        .iter()
        .any(|end| is_in_same_partition(&source, end))
}

fn has_device(ends: &[ChannelEnd]) -> bool
    ensures { result ≡ list_any is_device ends.now }
{
    ends.iter().any(|end| is_device(end))
}

/// Returns true if two of the ends are the device.
#[tactic(auto, using(std::proofs::lemmas::List::drop_more), unfolding(module_meaning::specs::Table::has_two_devices))]
fn has_two_devices(ends: &[ChannelEnd]) -> bool
    ensures { result ≡ has_two_devices ends.now }
{
    for (place, end) in ends.iter().enumerate() {
        if is_device(end) {
            return has_device(&ends[place + 1..]);
        }
    }
    false
}

fn has_queue<P: HasRow>(partitions: &[P], ends: &[ChannelEnd]) -> bool
    ensures { result ≡ list_any (is_queuing_port (map P.row_of partitions.now)) ends.now }
{
    ends.iter().any(|end| is_queuing_port(partitions, *end))
}

/// Returns true if a channel with these ends breaks a rule on channels.
#[tactic(auto, unfolding(module_meaning::specs::Table::is_wrong))]
fn is_wrong<P: HasRow>(partitions: &[P], channel: &ChannelRow, ends: &[ChannelEnd]) -> bool
    requires { ends.now ≡ ends_of (channel_view channel.now) }
    ensures { result ≡ is_wrong (map P.row_of partitions.now) (channel_view channel.now) }
{
    has_wrong_direction(partitions, channel)
        || has_mixed_ports(partitions, ends)
        || sends_to_itself(channel)
        || has_two_devices(ends)
        || (has_queue(partitions, ends) && channel.destinations.len() != 1)
}

fn has_port(end: &ChannelEnd, others: &[ChannelEnd]) -> bool
    ensures { result ≡ list_any (is_same_port end.now) others.now }
{
    others.iter().any(|other| is_same_port(end, other))
}

#[tactic(auto, using(std::proofs::lemmas::List::drop_more), unfolding(module_meaning::specs::Table::has_twice))]
fn has_same_port(ends: &[ChannelEnd]) -> bool
    ensures { result ≡ has_twice is_same_port ends.now }
{
    for (place, end) in ends.iter().enumerate() {
        if has_port(end, &ends[place + 1..]) {
            return true;
        }
    }
    false
}

/// Returns true if a port is at two ends, or a channel breaks a rule on channels.
///
/// # Errors
///
/// Only if memory runs out.
#[tactic(auto, using(std::proofs::lemmas::List::drop_more))]
pub fn has_wrong_ends<P: HasRow>(
    alloc: Global,
    partitions: &[P],
    channels: &[ChannelRow],
) -> Result<bool, AllocError>
    ensures { IfOk result
        (λ b. b ≡ has_wrong_ends (map P.row_of partitions.now) (map channel_view channels.now)) }
{
    let mut all: Vec<ChannelEnd> = Vec::new(alloc);
    let mut is_any_wrong = false;
    for channel in channels {
        let ends = ends_of(alloc, channel)?;
        if is_wrong(partitions, channel, ends.as_slice()) {
            is_any_wrong = true;
        }
        all.extend_from_slice(ends.as_slice())?;
    }
    Ok(is_any_wrong || has_same_port(all.as_slice()))
}
