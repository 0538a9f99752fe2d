//! Names of a table that name nothing.

ghost use Rattle.std.specs.Prelude.{◌≡◌, ◌∷◌, ◌++◌, map, OnOk};
ghost use Rattle.std.specs.List.{list_any};
ghost use Rattle.module_meaning.specs.TableRules.{same};
ghost use Rattle.finding_lines.specs.Nearest.{nearest};
ghost use Rattle.table_findings.specs.Findings.{NoPartition};
ghost use Rattle.table_findings.specs.Names as spec;
ghost use Rattle.table_findings.specs.Views.{findings_of, row_of, what_of};
ghost use Rattle.window_table.specs.Views.{channel_text, partition_text, port_text, table_text, window_text};

use crate::finding::{Finding, What};
use crate::part::add;
use crate::repeated::partition_names;
use crate::schedule::subject_at;
use crate::subject::{Row, Subject};
use finding_lines::nearest;
use std::alloc::{AllocError, Global};
use window_table::{
    WrittenChannel, WrittenPartition, WrittenPort, WrittenTable, WrittenWindow, is_port_name,
};

/// Adds each window whose partition, and each end of a channel that is not in the table.
///
/// # Errors
///
/// Only if memory runs out.
pub fn unknown_names<'a>(
    alloc: Global,
    found: &mut Vec<Finding<'a>>,
    table: &WrittenTable<'a>,
) -> Result<(), AllocError>
    ensures { OnOk result
        (findings_of found.new.items
        ≡ findings_of found.old.items ++ spec.unknown (table_text table.now)) }
{
    let partitions = partition_names(alloc, table.partitions.as_slice())?;
    windows(found, partitions.as_slice(), table.windows.as_slice())?;
    channels(
        found,
        table.partitions.as_slice(),
        table.channels.as_slice(),
    )
}

#[tactic(auto, using(std::proofs::lemmas::List::drop_more, std::proofs::lemmas::List::append_assoc, crate::proofs::Steps::append_nil))]
fn windows<'a>(
    found: &mut Vec<Finding<'a>>,
    names: &[&'a str],
    windows: &[WrittenWindow<'a>],
) -> Result<(), AllocError>
    ensures { OnOk result
        (findings_of found.new.items
        ≡ findings_of found.old.items
        ++ spec.partitions_of (map (λ name. name.now) names.now) 0 (map window_text windows.now)) }
{
    for (index, row) in windows.iter().enumerate() {
        window(found, names, index, *row)?;
    }
    Ok(())
}

/// Adds a window whose partition is not in the table.
fn window<'a>(
    found: &mut Vec<Finding<'a>>,
    names: &[&'a str],
    index: usize,
    window: WrittenWindow<'a>,
) -> Result<(), AllocError>
    ensures { OnOk result
        (findings_of found.new.items
        ≡ findings_of found.old.items
        ++ spec.partition_of (map (λ name. name.now) names.now) index (window_text window.entry)) }
{
    if is_among(window.partition, names) {
        return Ok(());
    }
    lost(found, names, index, window)
}

/// Adds a window whose partition is none of the names.
fn lost<'a>(
    found: &mut Vec<Finding<'a>>,
    names: &[&'a str],
    index: usize,
    window: WrittenWindow<'a>,
) -> Result<(), AllocError>
    ensures { OnOk result
        (findings_of found.new.items
        ≡ findings_of found.old.items
        ++ spec.lost (map (λ name. name.now) names.now) index (window_text window.entry)) }
{
    let what = no_partition(window.partition, names);
    add(found, subject_at(index, window), Some("partition"), what)
}

/// That a text is none of the names, with the nearest one.
fn no_partition<'a>(text: &'a str, names: &[&'a str]) -> What<'a>
    ensures { what_of result
        ≡ NoPartition text.now (nearest text.now (map (λ name. name.now) names.now)) }
{
    What::NoPartition {
        text,
        near: nearest(text.as_bytes(), names),
    }
}

/// Returns true if a name is one of some names.
#[tactic(auto, using(std::proofs::lemmas::List::drop_more))]
pub fn is_among(name: &str, names: &[&str]) -> bool
    ensures { result ≡ spec.is_among name.now (map (λ name. name.now) names.now) }
{
    for other in names {
        if name == *other {
            return true;
        }
    }
    false
}

#[tactic(auto, using(std::proofs::lemmas::List::drop_more, std::proofs::lemmas::List::append_assoc, crate::proofs::Steps::append_nil))]
fn channels<'a>(
    found: &mut Vec<Finding<'a>>,
    partitions: &[WrittenPartition<'a>],
    channels: &[WrittenChannel<'a>],
) -> Result<(), AllocError>
    ensures { OnOk result
        (findings_of found.new.items
        ≡ findings_of found.old.items
        ++ spec.ends_from (map partition_text partitions.now) 0 (map channel_text channels.now)) }
{
    for (index, row) in channels.iter().enumerate() {
        channel(found, partitions, index, row)?;
    }
    Ok(())
}

/// Adds each end of a channel that is not in the table.
fn channel<'a>(
    found: &mut Vec<Finding<'a>>,
    partitions: &[WrittenPartition<'a>],
    index: usize,
    channel: &WrittenChannel<'a>,
) -> Result<(), AllocError>
    ensures { OnOk result
        (findings_of found.new.items
        ≡ findings_of found.old.items
        ++ spec.ends_of (map partition_text partitions.now) index (channel_text channel.now)) }
{
    let row = Row {
        index,
        name: Some(channel.name),
    };
    if !is_end(partitions, channel.source) {
        let what = What::NoEnd(channel.source);
        add(found, Subject::Channel(row), Some("source"), what)?;
    }
    destinations(found, partitions, row, channel.destinations.as_slice())
}

#[tactic(auto, using(std::proofs::lemmas::List::drop_more, std::proofs::lemmas::List::append_assoc, crate::proofs::Steps::append_nil))]
fn destinations<'a>(
    found: &mut Vec<Finding<'a>>,
    partitions: &[WrittenPartition<'a>],
    channel: Row<'a>,
    ends: &[&'a str],
) -> Result<(), AllocError>
    ensures { OnOk result
        (findings_of found.new.items
        ≡ findings_of found.old.items
        ++ spec.destinations_of (map partition_text partitions.now) (row_of channel.entry) 0
        (map (λ end. end.now) ends.now)) }
{
    for (index, end) in ends.iter().enumerate() {
        if !is_end(partitions, end) {
            add(
                found,
                Subject::Destination(index, channel),
                None,
                What::NoEnd(*end),
            )?;
        }
    }
    Ok(())
}

/// Returns true if a text is an end: `DEVICE`, or the names of a partition and of one of its ports.
fn is_end(partitions: &[WrittenPartition<'_>], text: &str) -> bool
    ensures { result ≡ spec.is_end (map partition_text partitions.now) text.now }
{
    text == "DEVICE" || is_port(partitions, text)
}

#[tactic(auto, using(std::proofs::lemmas::List::drop_more))]
fn is_port(partitions: &[WrittenPartition<'_>], text: &str) -> bool
    ensures { result
        ≡ list_any (λ p. list_any (λ q. same text.now (p.name ++ 46 ∷ q.name)) p.ports)
        (map partition_text partitions.now) }
{
    for partition in partitions {
        if is_port_of(partition.ports.as_slice(), partition.name, text) {
            return true;
        }
    }
    false
}

#[tactic(auto, using(std::proofs::lemmas::List::drop_more))]
fn is_port_of(ports: &[WrittenPort<'_>], partition: &str, text: &str) -> bool
    ensures { result
        ≡ list_any (λ q. same text.now (partition.now ++ 46 ∷ q.name)) (map port_text ports.now) }
{
    for port in ports {
        if is_port_name(text, partition, port.name) {
            return true;
        }
    }
    false
}
