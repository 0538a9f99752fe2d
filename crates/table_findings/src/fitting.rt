//! The ends of channels that do not fit together.

ghost use Rattle.std.specs.Prelude.{◌≡◌, ◌++◌, ◌∷◌, [], map, OnOk, option_map};
ghost use Rattle.std.specs.List.{list_any};
ghost use Rattle.table_findings.specs.Ends as spec;
ghost use Rattle.table_findings.specs.Names.{channel_row};
ghost use Rattle.table_findings.specs.Views.{end_of, findings_of, first_of, port_of, row_of, what_of};
ghost use Rattle.window_table.specs.Views.{channel_text, kind_text, partition_text, port_text, table_text};

use crate::finding::{Finding, What};
use crate::part::add;
use crate::subject::{Row, Subject};
use crate::unknown::is_among;
use apex_types::PortDirection;
use std::alloc::{AllocError, Global};
use window_table::{
    WrittenChannel, WrittenKind, WrittenPartition, WrittenPort, WrittenTable, is_port_name,
};

/// An end as written in the table: what it is, the key there if it is a source, and its text.
#[derive(Clone, Copy)]
pub struct End<'a> {
    subject: Subject<'a>,
    key: Option<&'a str>,
    text: &'a str,
}

/// A port that an end names, and the place of its partition.
#[derive(Clone, Copy)]
pub struct Port<'a> {
    partition: usize,
    row: WrittenPort<'a>,
}

/// The first port of a channel, and the text that names it.
#[derive(Clone, Copy)]
pub struct FirstPort<'a> {
    text: &'a str,
    row: WrittenPort<'a>,
}

/// Adds each end of a channel that does not fit to the others.
///
/// # Errors
///
/// Only if memory runs out.
pub fn ends<'a>(
    alloc: Global,
    found: &mut Vec<Finding<'a>>,
    table: &WrittenTable<'a>,
) -> Result<(), AllocError>
    ensures { OnOk result
        (findings_of found.new.items
        ≡ findings_of found.old.items ++ spec.ends (table_text table.now)) }
{
    let (partitions, rows) = (table.partitions.as_slice(), table.channels.as_slice());
    channels(found, partitions, rows)?;
    let mut seen = Vec::new(alloc);
    channels_twice(found, &mut seen, rows)
}

#[tactic(auto, using(std::proofs::lemmas::List::drop_more, std::proofs::lemmas::List::append_assoc, crate::proofs::Steps::append_nil))]
fn channels<'a>(
    found: &mut Vec<Finding<'a>>,
    partitions: &[WrittenPartition<'a>],
    channels: &[WrittenChannel<'a>],
) -> Result<(), AllocError>
    ensures { OnOk result
        (findings_of found.new.items
        ≡ findings_of found.old.items
        ++ spec.channels_from (map partition_text partitions.now) 0
        (map channel_text channels.now)) }
{
    for (index, row) in channels.iter().enumerate() {
        channel(found, partitions, index, row)?;
    }
    Ok(())
}

/// Adds the ends of a channel that do not fit to its others.
fn channel<'a>(
    found: &mut Vec<Finding<'a>>,
    partitions: &[WrittenPartition<'a>],
    index: usize,
    channel: &WrittenChannel<'a>,
) -> Result<(), AllocError>
    ensures { OnOk result
        (findings_of found.new.items
        ≡ findings_of found.old.items
        ++ spec.channel (map partition_text partitions.now) index (channel_text channel.now)) }
{
    direction(found, partitions, true, source_end(index, channel))?;
    destinations(found, partitions, channel, row_at(index, channel))?;
    split_queue(found, partitions, index, channel)
}

/// The row of a channel.
fn row_at<'a>(index: usize, channel: &WrittenChannel<'a>) -> Row<'a>
    ensures { row_of result ≡ channel_row index (channel_text channel.now) }
{
    Row {
        index,
        name: Some(channel.name),
    }
}

/// The source of a channel.
fn source_end<'a>(index: usize, channel: &WrittenChannel<'a>) -> End<'a>
    ensures { end_of result ≡ spec.source_end index (channel_text channel.now) }
{
    End {
        subject: Subject::Channel(row_at(index, channel)),
        key: Some("source"),
        text: channel.source,
    }
}

/// A destination of a channel.
fn destination_end<'a>(channel: Row<'a>, index: usize, text: &'a str) -> End<'a>
    ensures { end_of result ≡ spec.destination_end (row_of channel.entry) index text.now }
{
    End {
        subject: Subject::Destination(index, channel),
        key: None,
        text,
    }
}

/// Adds the destinations of a channel that do not fit.
#[tactic(auto, using(std::proofs::lemmas::List::drop_more, std::proofs::lemmas::List::append_assoc, crate::proofs::Steps::append_nil))]
fn destinations<'a>(
    found: &mut Vec<Finding<'a>>,
    partitions: &[WrittenPartition<'a>],
    channel: &WrittenChannel<'a>,
    row: Row<'a>,
) -> Result<(), AllocError>
    ensures { OnOk result
        (findings_of found.new.items
        ≡ findings_of found.old.items
        ++ spec.destinations_of (map partition_text partitions.now) (channel_text channel.now)
        (row_of row.entry)) }
{
    let ends = channel.destinations.as_slice();
    let mut before = is_device(channel.source);
    for (index, text) in ends.iter().enumerate() {
        let end = destination_end(row, index, *text);
        destination(found, partitions, channel, before, end)?;
        before = before || is_device(text);
    }
    Ok(())
}

/// Adds what is wrong with a destination; `before` says whether `DEVICE` comes before it.
fn destination<'a>(
    found: &mut Vec<Finding<'a>>,
    partitions: &[WrittenPartition<'a>],
    channel: &WrittenChannel<'a>,
    before: bool,
    end: End<'a>,
) -> Result<(), AllocError>
    ensures { OnOk result
        (findings_of found.new.items
        ≡ findings_of found.old.items
        ++ spec.destination (map partition_text partitions.now) (channel_text channel.now) before
        (end_of end.entry)) }
{
    direction(found, partitions, false, end)?;
    mixed(found, partitions, first_port_of(partitions, channel), end)?;
    itself(found, partitions, port_at(partitions, channel.source), end)?;
    if before && is_device(end.text) {
        add_at(found, end, What::DeviceTwice)?;
    }
    Ok(())
}

/// Adds an end whose port has the other direction.
fn direction<'a>(
    found: &mut Vec<Finding<'a>>,
    partitions: &[WrittenPartition<'a>],
    as_source: bool,
    end: End<'a>,
) -> Result<(), AllocError>
    ensures { OnOk result
        (findings_of found.new.items
        ≡ findings_of found.old.items
        ++ spec.direction (map partition_text partitions.now) as_source (end_of end.entry)) }
{
    let Some(port) = port_at(partitions, end.text) else {
        return Ok(());
    };
    if is_as(as_source, port.row.direction) {
        return Ok(());
    }
    let what = What::WrongDirection {
        text: end.text,
        as_source,
    };
    add_at(found, end, what)
}

/// Returns true if a direction is that of a source, or of a destination.
fn is_as(as_source: bool, direction: PortDirection) -> bool
    ensures { result ≡ spec.is_as as_source direction }
{
    match direction {
        PortDirection::Source => as_source,
        PortDirection::Destination => !as_source,
    }
}

/// Adds an end whose port is of another kind or of other words than the first one.
fn mixed<'a>(
    found: &mut Vec<Finding<'a>>,
    partitions: &[WrittenPartition<'a>],
    first: Option<FirstPort<'a>>,
    end: End<'a>,
) -> Result<(), AllocError>
    ensures { OnOk result
        (findings_of found.new.items
        ≡ findings_of found.old.items
        ++ spec.mixed (map partition_text partitions.now) (option_map first_of first.entry)
        (end_of end.entry)) }
{
    let Some(first) = first else {
        return Ok(());
    };
    match port_at(partitions, end.text) {
        Some(port) => differ(found, first, end, port.row),
        None => Ok(()),
    }
}

/// Adds an end if its port differs from the first one.
fn differ<'a>(
    found: &mut Vec<Finding<'a>>,
    first: FirstPort<'a>,
    end: End<'a>,
    port: WrittenPort<'a>,
) -> Result<(), AllocError>
    ensures { OnOk result
        (findings_of found.new.items
        ≡ findings_of found.old.items
        ++ spec.differ (first_of first.entry).0 (first_of first.entry).1 (end_of end.entry) (port_text port.entry)) }
{
    if !is_same_kind(first.row.kind, port.kind) {
        return add_at(found, end, What::OtherKind(first.text));
    }
    if first.row.words == port.words {
        return Ok(());
    }
    let what = What::OtherWords {
        words: port.words,
        other: first.text,
        other_words: first.row.words,
    };
    add_at(found, end, what)
}

/// Adds a destination in the partition of the source.
fn itself<'a>(
    found: &mut Vec<Finding<'a>>,
    partitions: &[WrittenPartition<'a>],
    source: Option<Port<'a>>,
    end: End<'a>,
) -> Result<(), AllocError>
    ensures { OnOk result
        (findings_of found.new.items
        ≡ findings_of found.old.items
        ++ spec.itself (map partition_text partitions.now) (option_map port_of source.entry)
        (end_of end.entry)) }
{
    let Some(source) = source else {
        return Ok(());
    };
    match port_at(partitions, end.text) {
        Some(port) => {
            if source.partition == port.partition {
                add_at(found, end, What::SamePartition)
            } else {
                Ok(())
            }
        }
        None => Ok(()),
    }
}

/// Adds a channel of queuing ports that has not exactly one destination.
fn split_queue<'a>(
    found: &mut Vec<Finding<'a>>,
    partitions: &[WrittenPartition<'a>],
    index: usize,
    channel: &WrittenChannel<'a>,
) -> Result<(), AllocError>
    ensures { OnOk result
        (findings_of found.new.items
        ≡ findings_of found.old.items
        ++ spec.split_queue (map partition_text partitions.now) index (channel_text channel.now)) }
{
    let number = channel.destinations.len();
    let queues = is_queuing_port(partitions, channel.source)
        || has_queuing_port(partitions, channel.destinations.as_slice());
    if queues && number != 1 {
        let subject = Subject::Channel(row_at(index, channel));
        add(
            found,
            subject,
            Some("destinations"),
            What::SplitQueue(number),
        )
    } else {
        Ok(())
    }
}

#[tactic(auto, using(std::proofs::lemmas::List::drop_more, std::proofs::lemmas::List::append_assoc, crate::proofs::Steps::append_nil))]
fn channels_twice<'a>(
    found: &mut Vec<Finding<'a>>,
    seen: &mut Vec<&'a str>,
    channels: &[WrittenChannel<'a>],
) -> Result<(), AllocError>
    ensures { OnOk result
        (findings_of found.new.items
        ≡ findings_of found.old.items
        ++ spec.twice_from (map (λ text. text.now) seen.old.items) 0
        (map channel_text channels.now)) }
{
    for (index, row) in channels.iter().enumerate() {
        twice(found, seen, source_end(index, row))?;
        destinations_twice(found, seen, row_at(index, row), row.destinations.as_slice())?;
    }
    Ok(())
}

/// Adds the ends of destinations that come before, and remembers all of them.
#[tactic(auto, using(std::proofs::lemmas::List::drop_more, std::proofs::lemmas::List::append_assoc, crate::proofs::Steps::append_nil))]
fn destinations_twice<'a>(
    found: &mut Vec<Finding<'a>>,
    seen: &mut Vec<&'a str>,
    row: Row<'a>,
    ends: &[&'a str],
) -> Result<(), AllocError>
    ensures added { OnOk result
        (findings_of found.new.items
        ≡ findings_of found.old.items
        ++ spec.destinations_twice (map (λ text. text.now) seen.old.items) (row_of row.entry) 0
        (map (λ text. text.now) ends.now)) }
    ensures seen { OnOk result
        (map (λ text. text.now) seen.new.items
        ≡ map (λ text. text.now) seen.old.items ++ map (λ text. text.now) ends.now) }
{
    for (index, text) in ends.iter().enumerate() {
        twice(found, seen, destination_end(row, index, *text))?;
    }
    Ok(())
}

/// Adds an end that comes before and is not `DEVICE`, and remembers it.
#[tactic(auto, using(std::proofs::lemmas::List::map_push))]
fn twice<'a>(
    found: &mut Vec<Finding<'a>>,
    seen: &mut Vec<&'a str>,
    end: End<'a>,
) -> Result<(), AllocError>
    ensures added { OnOk result
        (findings_of found.new.items
        ≡ findings_of found.old.items
        ++ spec.twice (map (λ text. text.now) seen.old.items) (end_of end.entry)) }
    ensures seen { OnOk result
        (map (λ text. text.now) seen.new.items
        ≡ map (λ text. text.now) seen.old.items ++ (end_of end.entry).text ∷ []) }
{
    if !is_device(end.text) && is_among(end.text, seen.as_slice()) {
        add_at(found, end, What::PortTwice(end.text))?;
    }
    seen.extend_from_slice(&[end.text])
}

/// Adds a finding at an end.
fn add_at<'a>(found: &mut Vec<Finding<'a>>, end: End<'a>, what: What<'a>) -> Result<(), AllocError>
    ensures { OnOk result
        (findings_of found.new.items
        ≡ findings_of found.old.items ++ spec.one_at (end_of end.entry) (what_of what.entry)) }
{
    add(found, end.subject, end.key, what)
}

fn is_device(text: &str) -> bool
    ensures { result ≡ spec.is_device text.now }
{
    text == "DEVICE"
}

fn is_same_kind(kind: WrittenKind, other: WrittenKind) -> bool
    ensures { result ≡ spec.is_same_kind (kind_text kind) (kind_text other) }
{
    match kind {
        WrittenKind::Sampling { .. } => !is_queuing(other),
        WrittenKind::Queuing { .. } => is_queuing(other),
    }
}

fn is_queuing(kind: WrittenKind) -> bool
    ensures { result ≡ spec.is_queuing (kind_text kind) }
{
    match kind {
        WrittenKind::Sampling { .. } => false,
        WrittenKind::Queuing { .. } => true,
    }
}

fn is_queuing_port(partitions: &[WrittenPartition<'_>], text: &str) -> bool
    ensures { result ≡ spec.is_queuing_port (map partition_text partitions.now) text.now }
{
    match port_at(partitions, text) {
        Some(port) => is_queuing(port.row.kind),
        None => false,
    }
}

/// Returns true if one of the texts names a queuing port.
#[tactic(auto, using(std::proofs::lemmas::List::drop_more))]
fn has_queuing_port(partitions: &[WrittenPartition<'_>], texts: &[&str]) -> bool
    ensures { result
        ≡ list_any (spec.is_queuing_port (map partition_text partitions.now))
        (map (λ text. text.now) texts.now) }
{
    for text in texts {
        if is_queuing_port(partitions, text) {
            return true;
        }
    }
    false
}

/// The first port of a channel, and the text that names it.
fn first_port_of<'a>(
    partitions: &[WrittenPartition<'a>],
    channel: &WrittenChannel<'a>,
) -> Option<FirstPort<'a>>
    ensures { option_map first_of result
        ≡ spec.first_port_of (map partition_text partitions.now) (channel_text channel.now) }
{
    match port_at(partitions, channel.source) {
        Some(port) => Some(FirstPort {
            text: channel.source,
            row: port.row,
        }),
        None => first_port(partitions, channel.destinations.as_slice()),
    }
}

/// The first port that one of the texts names, and its text.
#[tactic(auto, using(std::proofs::lemmas::List::drop_more))]
fn first_port<'a>(partitions: &[WrittenPartition<'a>], texts: &[&'a str]) -> Option<FirstPort<'a>>
    ensures { option_map first_of result
        ≡ spec.first_port (map partition_text partitions.now) (map (λ text. text.now) texts.now) }
{
    for text in texts {
        if let Some(port) = port_at(partitions, text) {
            return Some(FirstPort {
                text: *text,
                row: port.row,
            });
        }
    }
    None
}

/// The port that a text names, and the place of its partition.
#[tactic(auto, using(std::proofs::lemmas::List::drop_more))]
fn port_at<'a>(partitions: &[WrittenPartition<'a>], text: &str) -> Option<Port<'a>>
    ensures { option_map port_of result
        ≡ spec.port_at (map partition_text partitions.now) text.now }
{
    for (index, partition) in partitions.iter().enumerate() {
        if let Some(row) = port_named(partition.name, partition.ports.as_slice(), text) {
            return Some(Port {
                partition: index,
                row,
            });
        }
    }
    None
}

/// The port of a partition that a text names.
#[tactic(auto, using(std::proofs::lemmas::List::drop_more))]
fn port_named<'a>(partition: &str, ports: &[WrittenPort<'a>], text: &str) -> Option<WrittenPort<'a>>
    ensures { option_map port_text result
        ≡ spec.port_named partition.now (map port_text ports.now) text.now }
{
    for port in ports {
        if is_port_name(text, partition, port.name) {
            return Some(*port);
        }
    }
    None
}
