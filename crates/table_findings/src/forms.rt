//! What is wrong with the keys and the types of a table.

ghost use Rattle.std.specs.Prelude.{◌≡◌, ◌++◌, OnOk, option_copied};
ghost use Rattle.toml.specs.View.{items_view, table_view, view as value_view};
ghost use Rattle.table_findings.specs.Shape as spec;
ghost use Rattle.table_findings.specs.Views.{findings_of, row_of, subject_of};

use crate::fields::Part;
use crate::finding::Finding;
use crate::members::{items_at, table_at, text_at};
use crate::part::{of_part, of_type, word};
use crate::rows::row_at;
use crate::subject::{Row, Subject};
use crate::words::Words;
use std::alloc::AllocError;
use toml::{Table, Value};

/// Adds each place of a document where a key is missing or unknown, where a value is of another type,
/// and where a text is none of its words.
///
/// # Errors
///
/// Only if memory runs out.
pub fn shape<'a>(found: &mut Vec<Finding<'a>>, document: &'a Table) -> Result<(), AllocError>
    ensures { OnOk result
        (findings_of found.new.items
        ≡ findings_of found.old.items ++ spec.shape (table_view document.now)) }
{
    of_part(found, Subject::Module, Part::Module, document)?;
    costs(found, document)?;
    partitions(found, items_at(document, "partition"))?;
    windows(found, items_at(document, "window"))?;
    channels(found, items_at(document, "channel"))
}

/// Adds what is wrong with the costs.
fn costs<'a>(found: &mut Vec<Finding<'a>>, document: &'a Table) -> Result<(), AllocError>
    ensures { OnOk result
        (findings_of found.new.items
        ≡ findings_of found.old.items ++ spec.costs (table_view document.now)) }
{
    match table_at(document, "cost") {
        Some(table) => of_part(found, Subject::Costs, Part::Costs, table),
        None => Ok(()),
    }
}

/// Adds what is wrong with the partitions.
#[tactic(auto, using(std::proofs::lemmas::List::drop_more, std::proofs::lemmas::List::append_assoc, crate::proofs::Steps::append_nil))]
fn partitions<'a>(found: &mut Vec<Finding<'a>>, values: &'a [Value]) -> Result<(), AllocError>
    ensures { OnOk result
        (findings_of found.new.items
        ≡ findings_of found.old.items ++ spec.each spec.partition 0 (items_view values.now)) }
{
    for (index, value) in values.iter().enumerate() {
        partition(found, index, value)?;
    }
    Ok(())
}

/// Adds what is wrong with a partition.
fn partition<'a>(
    found: &mut Vec<Finding<'a>>,
    index: usize,
    value: &'a Value,
) -> Result<(), AllocError>
    ensures { OnOk result
        (findings_of found.new.items
        ≡ findings_of found.old.items ++ spec.partition index (value_view value.now)) }
{
    match value.as_table() {
        None => of_type(
            found,
            Subject::Partition(unnamed(index)),
            None,
            "table",
            value,
        ),
        Some(table) => partition_table(found, row_at(index, "name", table), table),
    }
}

fn partition_table<'a>(
    found: &mut Vec<Finding<'a>>,
    row: Row<'a>,
    table: &'a Table,
) -> Result<(), AllocError>
    ensures { OnOk result
        (findings_of found.new.items
        ≡ findings_of found.old.items ++ spec.partition_table (row_of row.entry) (table_view table.now)) }
{
    of_part(found, Subject::Partition(row), Part::Partition, table)?;
    health(found, row, table)?;
    ports(found, row, items_at(table, "port"))
}

/// Adds the values of a health table that are no texts.
fn health<'a>(
    found: &mut Vec<Finding<'a>>,
    row: Row<'a>,
    table: &'a Table,
) -> Result<(), AllocError>
    ensures { OnOk result
        (findings_of found.new.items
        ≡ findings_of found.old.items ++ spec.health (row_of row.entry) (table_view table.now)) }
{
    match table_at(table, "hm") {
        None => Ok(()),
        Some(errors) => health_members(found, Subject::Health(row), errors),
    }
}

fn health_members<'a>(
    found: &mut Vec<Finding<'a>>,
    subject: Subject<'a>,
    table: &'a Table,
) -> Result<(), AllocError>
    ensures { OnOk result
        (findings_of found.new.items
        ≡ findings_of found.old.items ++ spec.health_members (subject_of subject.entry) (table_view table.now)) }
{
    for (key, value) in table {
        of_type(found, subject, Some(key.as_str()), "string", value)?;
    }
    Ok(())
}

/// Adds what is wrong with the ports of a partition.
#[tactic(auto, using(std::proofs::lemmas::List::drop_more, std::proofs::lemmas::List::append_assoc, crate::proofs::Steps::append_nil))]
fn ports<'a>(
    found: &mut Vec<Finding<'a>>,
    partition: Row<'a>,
    values: &'a [Value],
) -> Result<(), AllocError>
    ensures { OnOk result
        (findings_of found.new.items
        ≡ findings_of found.old.items
        ++ spec.each (spec.port (row_of partition.entry)) 0 (items_view values.now)) }
{
    for (index, value) in values.iter().enumerate() {
        port(found, partition, index, value)?;
    }
    Ok(())
}

/// Adds what is wrong with a port.
fn port<'a>(
    found: &mut Vec<Finding<'a>>,
    partition: Row<'a>,
    index: usize,
    value: &'a Value,
) -> Result<(), AllocError>
    ensures { OnOk result
        (findings_of found.new.items
        ≡ findings_of found.old.items ++ spec.port (row_of partition.entry) index (value_view value.now)) }
{
    match value.as_table() {
        None => {
            let port = unnamed(index);
            of_type(
                found,
                Subject::Port { port, partition },
                None,
                "table",
                value,
            )
        }
        Some(table) => {
            let port = row_at(index, "name", table);
            port_table(found, Subject::Port { port, partition }, table)
        }
    }
}

fn port_table<'a>(
    found: &mut Vec<Finding<'a>>,
    subject: Subject<'a>,
    table: &'a Table,
) -> Result<(), AllocError>
    ensures { OnOk result
        (findings_of found.new.items
        ≡ findings_of found.old.items ++ spec.port_table (subject_of subject.entry) (table_view table.now)) }
{
    of_part(found, subject, part_of_kind(text_at(table, "kind")), table)?;
    word(found, subject, "kind", Words::Kind, table)?;
    word(found, subject, "direction", Words::Direction, table)?;
    word(found, subject, "discipline", Words::Discipline, table)
}

/// The part that a port of a kind is. One of a kind that is not known may have the keys of both.
fn part_of_kind(kind: Option<&str>) -> Part
    ensures { result ≡ spec.part_of_kind (option_copied kind.entry) }
{
    match kind {
        Some("SAMPLING") => Part::SamplingPort,
        Some("QUEUING") => Part::QueuingPort,
        _ => Part::Port,
    }
}

/// Adds what is wrong with the windows.
#[tactic(auto, using(std::proofs::lemmas::List::drop_more, std::proofs::lemmas::List::append_assoc, crate::proofs::Steps::append_nil))]
fn windows<'a>(found: &mut Vec<Finding<'a>>, values: &'a [Value]) -> Result<(), AllocError>
    ensures { OnOk result
        (findings_of found.new.items
        ≡ findings_of found.old.items ++ spec.each spec.window 0 (items_view values.now)) }
{
    for (index, value) in values.iter().enumerate() {
        window(found, index, value)?;
    }
    Ok(())
}

/// Adds what is wrong with a window.
fn window<'a>(
    found: &mut Vec<Finding<'a>>,
    index: usize,
    value: &'a Value,
) -> Result<(), AllocError>
    ensures { OnOk result
        (findings_of found.new.items
        ≡ findings_of found.old.items ++ spec.window index (value_view value.now)) }
{
    match value.as_table() {
        None => of_type(found, Subject::Window(unnamed(index)), None, "table", value),
        Some(table) => {
            let row = row_at(index, "partition", table);
            of_part(found, Subject::Window(row), Part::Window, table)
        }
    }
}

/// Adds what is wrong with the channels.
#[tactic(auto, using(std::proofs::lemmas::List::drop_more, std::proofs::lemmas::List::append_assoc, crate::proofs::Steps::append_nil))]
fn channels<'a>(found: &mut Vec<Finding<'a>>, values: &'a [Value]) -> Result<(), AllocError>
    ensures { OnOk result
        (findings_of found.new.items
        ≡ findings_of found.old.items ++ spec.each spec.channel 0 (items_view values.now)) }
{
    for (index, value) in values.iter().enumerate() {
        channel(found, index, value)?;
    }
    Ok(())
}

/// Adds what is wrong with a channel.
fn channel<'a>(
    found: &mut Vec<Finding<'a>>,
    index: usize,
    value: &'a Value,
) -> Result<(), AllocError>
    ensures { OnOk result
        (findings_of found.new.items
        ≡ findings_of found.old.items ++ spec.channel index (value_view value.now)) }
{
    match value.as_table() {
        None => of_type(
            found,
            Subject::Channel(unnamed(index)),
            None,
            "table",
            value,
        ),
        Some(table) => channel_table(found, row_at(index, "name", table), table),
    }
}

fn channel_table<'a>(
    found: &mut Vec<Finding<'a>>,
    row: Row<'a>,
    table: &'a Table,
) -> Result<(), AllocError>
    ensures { OnOk result
        (findings_of found.new.items
        ≡ findings_of found.old.items ++ spec.channel_table (row_of row.entry) (table_view table.now)) }
{
    of_part(found, Subject::Channel(row), Part::Channel, table)?;
    destinations(found, row, items_at(table, "destinations"))
}

/// Adds the destinations of a channel that are no texts.
#[tactic(auto, using(std::proofs::lemmas::List::drop_more, std::proofs::lemmas::List::append_assoc, crate::proofs::Steps::append_nil))]
fn destinations<'a>(
    found: &mut Vec<Finding<'a>>,
    channel: Row<'a>,
    values: &'a [Value],
) -> Result<(), AllocError>
    ensures { OnOk result
        (findings_of found.new.items
        ≡ findings_of found.old.items
        ++ spec.each (spec.destination (row_of channel.entry)) 0 (items_view values.now)) }
{
    for (index, value) in values.iter().enumerate() {
        of_type(
            found,
            Subject::Destination(index, channel),
            None,
            "string",
            value,
        )?;
    }
    Ok(())
}

/// A row without a name.
fn unnamed(index: usize) -> Row<'static>
    ensures { row_of result ≡ spec.unnamed index }
{
    Row { index, name: None }
}
