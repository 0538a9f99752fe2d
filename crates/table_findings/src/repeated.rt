//! Names that a table has twice.

ghost use Rattle.std.specs.Prelude.{◌≡◌, ◌++◌, IfOk, map, OnOk};
ghost use Rattle.table_findings.specs.Names as spec;
ghost use Rattle.table_findings.specs.Views.{findings_of, named_of, row_of, subject_of};
ghost use Rattle.window_table.specs.Views.{channel_text, partition_text, port_text, table_text};

use crate::finding::{Finding, What};
use crate::part::add;
use crate::subject::{Row, Subject};
use std::alloc::{AllocError, Global};
use window_table::{WrittenChannel, WrittenPartition, WrittenPort, WrittenTable};

/// A list of rows that differ in name.
#[derive(Clone, Copy)]
pub enum Named<'a> {
    Partitions,
    Channels,
    /// The ports of a partition.
    Ports(Row<'a>),
}

/// The subject of a row of such a list.
fn subject_in<'a>(named: Named<'a>, row: Row<'a>) -> Subject<'a>
    ensures { subject_of result ≡ spec.subject_in (named_of named.entry) (row_of row.entry) }
{
    match named {
        Named::Partitions => Subject::Partition(row),
        Named::Channels => Subject::Channel(row),
        Named::Ports(partition) => Subject::Port {
            port: row,
            partition,
        },
    }
}

/// Adds each partition, channel and port whose name one before it has.
///
/// # Errors
///
/// Only if memory runs out.
pub fn repeated_names<'a>(
    alloc: Global,
    found: &mut Vec<Finding<'a>>,
    table: &WrittenTable<'a>,
) -> Result<(), AllocError>
    ensures { OnOk result
        (findings_of found.new.items
        ≡ findings_of found.old.items ++ spec.repeated (table_text table.now)) }
{
    let partitions = partition_names(alloc, table.partitions.as_slice())?;
    same_names(found, Named::Partitions, partitions.as_slice())?;
    let channels = channel_names(alloc, table.channels.as_slice())?;
    same_names(found, Named::Channels, channels.as_slice())?;
    same_ports(alloc, found, table.partitions.as_slice())
}

#[tactic(auto, using(std::proofs::lemmas::List::drop_more, std::proofs::lemmas::List::append_assoc, crate::proofs::Steps::append_nil))]
fn same_ports<'a>(
    alloc: Global,
    found: &mut Vec<Finding<'a>>,
    partitions: &[WrittenPartition<'a>],
) -> Result<(), AllocError>
    ensures { OnOk result
        (findings_of found.new.items
        ≡ findings_of found.old.items
        ++ spec.same_ports_from 0 (map partition_text partitions.now)) }
{
    for (index, partition) in partitions.iter().enumerate() {
        let row = Row {
            index,
            name: Some(partition.name),
        };
        let names = port_names(alloc, partition.ports.as_slice())?;
        same_names(found, Named::Ports(row), names.as_slice())?;
    }
    Ok(())
}

/// Adds each row whose name one before it has.
#[tactic(auto, using(std::proofs::lemmas::List::drop_more, std::proofs::lemmas::List::append_assoc, crate::proofs::Steps::append_nil))]
fn same_names<'a>(
    found: &mut Vec<Finding<'a>>,
    named: Named<'a>,
    names: &[&'a str],
) -> Result<(), AllocError>
    ensures { OnOk result
        (findings_of found.new.items
        ≡ findings_of found.old.items
        ++ spec.same_names (named_of named.entry) (map (λ name. name.now) names.now)) }
{
    for (index, name) in names.iter().enumerate() {
        same_at(found, named, names, index, *name)?;
    }
    Ok(())
}

/// Adds the row at a place, if one before it has the same name.
fn same_at<'a>(
    found: &mut Vec<Finding<'a>>,
    named: Named<'a>,
    names: &[&'a str],
    index: usize,
    name: &'a str,
) -> Result<(), AllocError>
    ensures { OnOk result
        (findings_of found.new.items
        ≡ findings_of found.old.items
        ++ spec.same_at (named_of named.entry) (map (λ name. name.now) names.now) index name.now) }
{
    match first_same(names, name) {
        Some(earlier) => {
            if earlier < index {
                let row = Row {
                    index,
                    name: Some(name),
                };
                let what = What::SameName { name, earlier };
                add(found, subject_in(named, row), Some("name"), what)
            } else {
                Ok(())
            }
        }
        None => Ok(()),
    }
}

/// The place of the first of the names that is the same.
#[tactic(auto, using(std::proofs::lemmas::List::drop_more))]
fn first_same(names: &[&str], name: &str) -> Option<usize>
    ensures { result ≡ spec.first_same name.now 0 (map (λ name. name.now) names.now) }
{
    for (index, other) in names.iter().enumerate() {
        if name == *other {
            return Some(index);
        }
    }
    None
}

/// The names of partitions.
#[tactic(auto, using(std::proofs::lemmas::List::drop_more, std::proofs::lemmas::List::map_push, std::proofs::lemmas::List::append_assoc, crate::proofs::Steps::append_nil))]
pub fn partition_names<'a>(
    alloc: Global,
    partitions: &[WrittenPartition<'a>],
) -> Result<Vec<&'a str>, AllocError>
    ensures { IfOk result
        (λ names. map (λ name. name.now) names.items
        ≡ spec.partition_names (map partition_text partitions.now)) }
{
    let mut names = Vec::new(alloc);
    for partition in partitions {
        names.push(partition.name)?;
    }
    Ok(names)
}

/// The names of channels.
#[tactic(auto, using(std::proofs::lemmas::List::drop_more, std::proofs::lemmas::List::map_push, std::proofs::lemmas::List::append_assoc, crate::proofs::Steps::append_nil))]
fn channel_names<'a>(
    alloc: Global,
    channels: &[WrittenChannel<'a>],
) -> Result<Vec<&'a str>, AllocError>
    ensures { IfOk result
        (λ names. map (λ name. name.now) names.items
        ≡ spec.channel_names (map channel_text channels.now)) }
{
    let mut names = Vec::new(alloc);
    for channel in channels {
        names.push(channel.name)?;
    }
    Ok(names)
}

/// The names of ports.
#[tactic(auto, using(std::proofs::lemmas::List::drop_more, std::proofs::lemmas::List::map_push, std::proofs::lemmas::List::append_assoc, crate::proofs::Steps::append_nil))]
fn port_names<'a>(alloc: Global, ports: &[WrittenPort<'a>]) -> Result<Vec<&'a str>, AllocError>
    ensures { IfOk result
        (λ names. map (λ name. name.now) names.items
        ≡ spec.port_names (map port_text ports.now)) }
{
    let mut names = Vec::new(alloc);
    for port in ports {
        names.push(port.name)?;
    }
    Ok(names)
}
