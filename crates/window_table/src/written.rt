//! A module table as its text says it: names are texts and numbers any.

ghost use Rattle.std.specs.Prelude.{◌≡◌, option_map, map};
ghost use Rattle.toml.specs.View.{table_view, items_view};
ghost use Rattle.module_meaning.specs.TableRules.{action_at, health_of, sampling_of, queuing_of, kind_of, port_of, partition_of, window_of, channel_of, costs_of, integers_at, optional_costs, table_text_of, tables_of, texts_of};
ghost use Rattle.window_table.specs.Answers.{Reads};
ghost use Rattle.window_table.specs.Views.{kind_text, port_text, partition_text, window_text, channel_text, table_text};

use crate::fault::TableFault;
use crate::keys::{COST_NAMES, Part};
use crate::members::{
    array, boolean, has_only, has_texts_only, integer, optional_array, optional_table, subtable,
    text,
};
use crate::words::{direction, discipline, module_action, partition_action};
use apex_types::{Discipline, HealthTable, ModuleAction, PartitionAction, PortDirection};
use std::alloc::Global;
use toml::{Table, Value};

/// The members of only one kind of port.
#[derive(Clone, Copy)]
pub enum WrittenKind {
    Sampling { refresh: i64 },
    Queuing { depth: i64, discipline: Discipline },
}

/// A port.
#[derive(Clone, Copy)]
pub struct WrittenPort<'a> {
    pub name: &'a str,
    pub kind: WrittenKind,
    pub direction: PortDirection,
    pub words: i64,
}

/// A partition: without a health table if the text's table does not have exactly the seven errors,
/// each with a known action.
#[derive(Drop)]
pub struct WrittenPartition<'a> {
    pub name: &'a str,
    pub period: i64,
    pub duration: i64,
    pub health: Option<HealthTable>,
    pub ports: Vec<WrittenPort<'a>>,
}

/// A window.
#[derive(Clone, Copy)]
pub struct WrittenWindow<'a> {
    pub partition: &'a str,
    pub offset: i64,
    pub length: i64,
    pub release: bool,
}

/// A channel.
#[derive(Drop)]
pub struct WrittenChannel<'a> {
    pub name: &'a str,
    pub source: &'a str,
    pub destinations: Vec<&'a str>,
}

/// A module table: without an action on a module fault if the text's action is unknown, and without
/// costs if the text writes none, otherwise with the number of each key in order.
#[derive(Drop)]
pub struct WrittenTable<'a> {
    pub frame: i64,
    pub fault: Option<ModuleAction>,
    pub costs: Option<Vec<i64>>,
    pub partitions: Vec<WrittenPartition<'a>>,
    pub windows: Vec<WrittenWindow<'a>>,
    pub channels: Vec<WrittenChannel<'a>>,
}

/// The action at an error's name.
fn action(table: &Table, error: &str) -> Option<PartitionAction>
    ensures { result ≡ action_at error.now (table_view table.now) }
{
    partition_action(text(table, error)?)
}

/// The health table, if it has exactly the seven errors, each with a known action.
#[tactic(auto, unfolding(module_meaning::specs::TableRules::health_of))]
fn read_health(table: &Table) -> Option<HealthTable>
    ensures { result ≡ health_of (table_view table.now) }
{
    let health = HealthTable {
        deadline_missed: action(table, "DEADLINE_MISSED")?,
        application_error: action(table, "APPLICATION_ERROR")?,
        numeric_error: action(table, "NUMERIC_ERROR")?,
        illegal_request: action(table, "ILLEGAL_REQUEST")?,
        stack_overflow: action(table, "STACK_OVERFLOW")?,
        memory_violation: action(table, "MEMORY_VIOLATION")?,
        hardware_fault: action(table, "HARDWARE_FAULT")?,
    };
    has_only(table, Part::Health).then_some(health)
}

#[tactic(auto, unfolding(module_meaning::specs::TableRules::sampling_of))]
fn read_sampling(table: &Table) -> Option<WrittenKind>
    ensures { option_map kind_text result ≡ sampling_of (table_view table.now) }
{
    let refresh = integer(table, "refresh")?;
    has_only(table, Part::SamplingPort).then_some(WrittenKind::Sampling { refresh })
}

#[tactic(auto, unfolding(module_meaning::specs::TableRules::queuing_of))]
fn read_queuing(table: &Table) -> Option<WrittenKind>
    ensures { option_map kind_text result ≡ queuing_of (table_view table.now) }
{
    let depth = integer(table, "depth")?;
    let discipline = discipline(text(table, "discipline")?)?;
    has_only(table, Part::QueuingPort).then_some(WrittenKind::Queuing { depth, discipline })
}

#[tactic(auto, unfolding(module_meaning::specs::TableRules::kind_of))]
fn read_kind(table: &Table) -> Option<WrittenKind>
    ensures { option_map kind_text result ≡ kind_of (table_view table.now) }
{
    let kind = text(table, "kind")?;
    if kind == "SAMPLING" {
        read_sampling(table)
    } else if kind == "QUEUING" {
        read_queuing(table)
    } else {
        None
    }
}

#[tactic(auto, unfolding(module_meaning::specs::TableRules::port_of))]
fn read_port(table: &Table) -> Option<WrittenPort<'_>>
    ensures { option_map port_text result ≡ port_of (table_view table.now) }
{
    let name = text(table, "name")?;
    let kind = read_kind(table)?;
    let direction = direction(text(table, "direction")?)?;
    let words = integer(table, "words")?;
    Some(WrittenPort {
        name,
        kind,
        direction,
        words,
    })
}

fn read_ports(alloc: Global, values: &[Value]) -> Result<Vec<WrittenPort<'_>>, TableFault>
    ensures { Reads (λ v. map port_text v.items) result
        (tables_of port_of (items_view values.now)) }
{
    let mut ports = Vec::new(alloc);
    for value in values {
        let Some(table) = value.as_table() else {
            return Err(TableFault::Shape)
        };
        let Some(port) = read_port(table) else {
            return Err(TableFault::Shape)
        };
        if ports.push(port).is_err() {
            return Err(TableFault::Memory);
        }
    }
    Ok(ports)
}

#[tactic(auto, unfolding(module_meaning::specs::TableRules::partition_of))]
fn read_partition(alloc: Global, table: &Table) -> Result<WrittenPartition<'_>, TableFault>
    ensures { Reads partition_text result (partition_of (table_view table.now)) }
{
    let name = text(table, "name").ok_or(TableFault::Shape)?;
    let period = integer(table, "period").ok_or(TableFault::Shape)?;
    let duration = integer(table, "duration").ok_or(TableFault::Shape)?;
    let errors = subtable(table, "hm").ok_or(TableFault::Shape)?;
    let values = optional_array(table, "port").ok_or(TableFault::Shape)?;
    if !has_only(table, Part::Partition) || !has_texts_only(errors) {
        return Err(TableFault::Shape);
    }
    let health = read_health(errors);
    let ports = read_ports(alloc, values)?;
    Ok(WrittenPartition {
        name,
        period,
        duration,
        health,
        ports,
    })
}

fn read_partitions(alloc: Global, values: &[Value]) -> Result<Vec<WrittenPartition<'_>>, TableFault>
    ensures { Reads (λ v. map partition_text v.items) result
        (tables_of partition_of (items_view values.now)) }
{
    let mut partitions = Vec::new(alloc);
    for value in values {
        let Some(table) = value.as_table() else {
            return Err(TableFault::Shape)
        };
        let partition = match read_partition(alloc, table) {
            Ok(partition) => partition,
            Err(fault) => return Err(fault),
        };
        if partitions.push(partition).is_err() {
            return Err(TableFault::Memory);
        }
    }
    Ok(partitions)
}

#[tactic(auto, unfolding(module_meaning::specs::TableRules::window_of))]
fn read_window(table: &Table) -> Option<WrittenWindow<'_>>
    ensures { option_map window_text result ≡ window_of (table_view table.now) }
{
    let partition = text(table, "partition")?;
    let offset = integer(table, "offset")?;
    let length = integer(table, "length")?;
    let release = boolean(table, "release")?;
    has_only(table, Part::Window).then_some(WrittenWindow {
        partition,
        offset,
        length,
        release,
    })
}

fn read_windows(alloc: Global, values: &[Value]) -> Result<Vec<WrittenWindow<'_>>, TableFault>
    ensures { Reads (λ v. map window_text v.items) result
        (tables_of window_of (items_view values.now)) }
{
    let mut windows = Vec::new(alloc);
    for value in values {
        let Some(table) = value.as_table() else {
            return Err(TableFault::Shape)
        };
        let Some(window) = read_window(table) else {
            return Err(TableFault::Shape)
        };
        if windows.push(window).is_err() {
            return Err(TableFault::Memory);
        }
    }
    Ok(windows)
}

fn read_destinations(alloc: Global, values: &[Value]) -> Result<Vec<&str>, TableFault>
    ensures { Reads (λ v. map (λ d. d.now) v.items) result (texts_of (items_view values.now)) }
{
    let mut destinations = Vec::new(alloc);
    for value in values {
        let Some(end) = value.as_str() else {
            return Err(TableFault::Shape)
        };
        if destinations.push(end).is_err() {
            return Err(TableFault::Memory);
        }
    }
    Ok(destinations)
}

#[tactic(auto, unfolding(module_meaning::specs::TableRules::channel_of))]
fn read_channel(alloc: Global, table: &Table) -> Result<WrittenChannel<'_>, TableFault>
    ensures { Reads channel_text result (channel_of (table_view table.now)) }
{
    let name = text(table, "name").ok_or(TableFault::Shape)?;
    let source = text(table, "source").ok_or(TableFault::Shape)?;
    let values = array(table, "destinations").ok_or(TableFault::Shape)?;
    if !has_only(table, Part::Channel) {
        return Err(TableFault::Shape);
    }
    let destinations = read_destinations(alloc, values)?;
    Ok(WrittenChannel {
        name,
        source,
        destinations,
    })
}

fn read_channels(alloc: Global, values: &[Value]) -> Result<Vec<WrittenChannel<'_>>, TableFault>
    ensures { Reads (λ v. map channel_text v.items) result
        (tables_of channel_of (items_view values.now)) }
{
    let mut channels = Vec::new(alloc);
    for value in values {
        let Some(table) = value.as_table() else {
            return Err(TableFault::Shape)
        };
        let channel = match read_channel(alloc, table) {
            Ok(channel) => channel,
            Err(fault) => return Err(fault),
        };
        if channels.push(channel).is_err() {
            return Err(TableFault::Memory);
        }
    }
    Ok(channels)
}

/// The integers at these keys.
fn read_numbers(alloc: Global, table: &Table, keys: &[&str]) -> Result<Vec<i64>, TableFault>
    ensures { Reads (λ v. v.items) result
        (integers_at (map (λ key. key.now) keys.now) (table_view table.now)) }
{
    let mut numbers = Vec::new(alloc);
    for key in keys {
        let Some(number) = integer(table, key) else {
            return Err(TableFault::Shape)
        };
        if numbers.push(number).is_err() {
            return Err(TableFault::Memory);
        }
    }
    Ok(numbers)
}

/// The costs, if there are exactly the fifteen keys.
#[tactic(auto, unfolding(module_meaning::specs::TableRules::costs_of))]
fn read_costs(alloc: Global, table: &Table) -> Result<Vec<i64>, TableFault>
    ensures { Reads (λ v. v.items) result (costs_of (table_view table.now)) }
{
    let numbers = read_numbers(alloc, table, &COST_NAMES)?;
    if !has_only(table, Part::Cost) {
        return Err(TableFault::Shape);
    }
    Ok(numbers)
}

/// The costs of a table that may write none.
fn read_optional_costs(alloc: Global, table: Option<&Table>) -> Result<Option<Vec<i64>>, TableFault>
    ensures { Reads (λ o. option_map (λ v. v.items) o) result
        (optional_costs (option_map (λ t. table_view t.now) table.entry)) }
{
    match table {
        Some(table) => Ok(Some(read_costs(alloc, table)?)),
        None => Ok(None),
    }
}

/// The table that a document describes, if its keys, types and words are those of a module table.
#[tactic(auto, unfolding(module_meaning::specs::TableRules::table_text_of))]
pub fn read_written(alloc: Global, table: &Table) -> Result<WrittenTable<'_>, TableFault>
    ensures { Reads table_text result (table_text_of (table_view table.now)) }
{
    let frame = integer(table, "frame").ok_or(TableFault::Shape)?;
    let fault = text(table, "fault").ok_or(TableFault::Shape)?;
    let costs = optional_table(table, "cost").ok_or(TableFault::Shape)?;
    let costs = read_optional_costs(alloc, costs)?;
    let partitions = array(table, "partition").ok_or(TableFault::Shape)?;
    let windows = array(table, "window").ok_or(TableFault::Shape)?;
    let channels = optional_array(table, "channel").ok_or(TableFault::Shape)?;
    if !has_only(table, Part::Table) {
        return Err(TableFault::Shape);
    }
    Ok(WrittenTable {
        frame,
        fault: module_action(fault),
        costs,
        partitions: read_partitions(alloc, partitions)?,
        windows: read_windows(alloc, windows)?,
        channels: read_channels(alloc, channels)?,
    })
}
