//! What is wrong about the channels of a partition's ports.

ghost use Rattle.std.specs.Prelude.{◌≡◌, ◌++◌, map, OnOk};
ghost use Rattle.std.specs.List.{list_any};
ghost use Rattle.window_table.specs.Views.{channel_view, partition_view};
ghost use Rattle.lint.specs.Channels as meant;
ghost use Rattle.lint.specs.Views.{found_all};

use crate::arrays::is_less;
use crate::finding::{Finding, FindingKind, add_if};
use apex_types::{ChannelEnd, PortDirection, PortKind, PortRow};
use std::alloc::AllocError;
use window_table::{ChannelRow, PartitionRow};

/// A port, by the number of its partition and its own, from 1.
#[derive(Clone, Copy)]
struct Place {
    partition: usize,
    port: usize,
}

/// Returns true if an end is the port at this place.
fn is_end_at(place: Place, end: ChannelEnd) -> bool
    ensures { result ≡ meant.is_end_at place.partition place.port end }
{
    match end {
        ChannelEnd::Device => false,
        ChannelEnd::Port(partition, port) => {
            usize::from(partition.0) == place.partition && usize::from(port.0) == place.port
        }
    }
}

/// Returns true if one of the destinations of a channel is the port at this place.
#[tactic(auto, using(std::proofs::lemmas::List::drop_more))]
fn is_among(place: Place, ends: &[ChannelEnd]) -> bool
    ensures { result ≡ list_any (meant.is_end_at place.partition place.port) ends.now }
{
    for end in ends {
        if is_end_at(place, *end) {
            return true;
        }
    }
    false
}

/// Returns true if a channel leads to the port at this place.
fn leads_to(place: Place, channel: &ChannelRow) -> bool
    ensures { result ≡ meant.leads_to place.partition place.port (channel_view channel.now) }
{
    is_among(place, &channel.destinations)
}

/// Returns true if one of the channels leads to the port at this place.
#[tactic(auto, using(std::proofs::lemmas::List::drop_more))]
fn is_connected(channels: &[ChannelRow], place: Place) -> bool
    ensures { result
        ≡ list_any (meant.leads_to place.partition place.port) (map channel_view channels.now) }
{
    for channel in channels {
        if leads_to(place, channel) {
            return true;
        }
    }
    false
}

/// The period of the partition that sends from an end.
#[tactic(auto, using(crate::proofs::PortRows::row_at))]
fn period_of(rows: &[PartitionRow], source: ChannelEnd) -> Option<u64>
    ensures { result ≡ meant.period_of (map partition_view rows.now) source }
{
    match source {
        ChannelEnd::Device => None,
        ChannelEnd::Port(partition, _) => {
            match rows.get(usize::from(partition.0.saturating_sub(1))) {
                Some(row) => Some(u64::from(row.period)),
                None => None,
            }
        }
    }
}

/// For how many ticks a message of a sampling port is valid.
fn refresh_of(kind: PortKind) -> Option<u64>
    ensures { result ≡ meant.refresh_of kind }
{
    match kind {
        PortKind::Sampling { refresh } => Some(refresh),
        PortKind::Queuing { .. } => None,
    }
}

/// Returns true if a message that comes through a channel to a port is stale before its sender has
/// the next period.
fn is_stale(rows: &[PartitionRow], place: Place, row: &PortRow, channel: &ChannelRow) -> bool
    ensures { result
        ≡ meant.is_stale (map partition_view rows.now) place.partition place.port row.now
        (channel_view channel.now) }
{
    leads_to(place, channel) && is_less(refresh_of(row.kind), period_of(rows, channel.source))
}

/// Returns true if this is so of one of the channels.
#[tactic(auto, using(std::proofs::lemmas::List::drop_more))]
fn is_any_stale(rows: &[PartitionRow], channels: &[ChannelRow], place: Place, row: &PortRow) -> bool
    ensures { result
        ≡ list_any (meant.is_stale (map partition_view rows.now) place.partition place.port row.now)
        (map channel_view channels.now) }
{
    for channel in channels {
        if is_stale(rows, place, row, channel) {
            return true;
        }
    }
    false
}

/// Adds a destination port to which no channel leads, and one whose messages get stale too soon.
fn add_at_port<'a>(
    rows: &[PartitionRow],
    channels: &[ChannelRow],
    place: Place,
    row: &'a PortRow,
    findings: &mut Vec<Finding<'a>>,
) -> Result<(), AllocError>
    ensures { OnOk result
        (found_all findings.new.items
        ≡ found_all findings.old.items
        ++ (meant.unconnected_port (map channel_view channels.now) place.partition place.port row.now
        ++ meant.short_refresh (map partition_view rows.now) (map channel_view channels.now)
        place.partition place.port row.now)) }
{
    let finding = Finding {
        line: 0,
        kind: FindingKind::UnconnectedPort,
        subject: row.name.as_str(),
    };
    let receives = row.direction == PortDirection::Destination;
    add_if(
        receives && !is_connected(channels, place),
        finding,
        findings,
    )?;
    let kind = FindingKind::ShortRefresh;
    let stale = is_any_stale(rows, channels, place, row);
    add_if(stale, Finding { kind, ..finding }, findings)
}

/// Adds what is found about the channels of the ports of the partition with this number.
#[tactic(auto, using(std::proofs::lemmas::List::drop_more))]
pub fn add_at_ports<'a>(
    rows: &[PartitionRow],
    channels: &[ChannelRow],
    partition: usize,
    ports: &'a [PortRow],
    findings: &mut Vec<Finding<'a>>,
) -> Result<(), AllocError>
    ensures { OnOk result
        (found_all findings.new.items
        ≡ found_all findings.old.items
        ++ meant.found_at_ports (map partition_view rows.now) (map channel_view channels.now)
        partition 1 ports.now) }
{
    let mut port: usize = 1;
    for row in ports {
        add_at_port(rows, channels, Place { partition, port }, row, findings)?;
        port += 1;
    }
    Ok(())
}
