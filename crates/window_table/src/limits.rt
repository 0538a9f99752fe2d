//! The rows of partitions, within their limits, and the other limits.

ghost use Rattle.std.specs.Prelude.{◌≡◌, ◌||◌, map, nat_abs, pos, not, None, Some, IfOk, option_map, if◌then◌else◌, int_lt, false, unwrap_or};
ghost use Rattle.std.specs.List.{list_any};
ghost use Rattle.apex_types.specs.NameText.{is_name};
ghost use Rattle.module_meaning.specs.TableRules.{has_many_ports, is_outside, exceeds_kind, exceeds_port, exceeds_partition, exceeds_times, exceeds_window, exceeds_channel, exceeds_counts, exceeds_rows, kind_row, port_row, partition_row, all_ignored, cost_row, costs_or_written, has_costs_outside, is_outside_cost};
ghost use Rattle.window_table.specs.Answers.{RefusesLimit};
ghost use Rattle.window_table.specs.Views.{kind_text, port_text, partition_text, window_text, channel_text, table_text, partition_view};

use crate::fault::TableFault;
use crate::table::PartitionRow;
use crate::written::{
    WrittenChannel, WrittenKind, WrittenPartition, WrittenPort, WrittenTable, WrittenWindow,
};
use apex_types::limits::{
    MOST_CHANNELS, MOST_COST, MOST_DEPTH, MOST_DESTINATIONS, MOST_FRAME_TICKS, MOST_PARTITIONS,
    MOST_PORTS, MOST_TICKS, MOST_WINDOWS, MOST_WORDS,
};
use apex_types::{Costs, HealthTable, Name, PartitionAction, PortKind, PortRow, TickCost};
use std::alloc::Global;

/// The placeholder for a health table with an unknown action, until the table is refused.
const ALL_IGNORED: HealthTable = HealthTable {
    deadline_missed: PartitionAction::Ignore,
    application_error: PartitionAction::Ignore,
    numeric_error: PartitionAction::Ignore,
    illegal_request: PartitionAction::Ignore,
    stack_overflow: PartitionAction::Ignore,
    memory_violation: PartitionAction::Ignore,
    hardware_fault: PartitionAction::Ignore,
};

fn is_outside(low: i64, high: i64, number: i64) -> bool
    ensures { result ≡ int_lt number low || int_lt high number }
{
    number < low || high < number
}

/// The kind of a port, if its numbers are within their limits.
#[tactic(auto, unfolding(module_meaning::specs::TableRules::exceeds_kind))]
fn kind_row(kind: WrittenKind) -> Option<PortKind>
    ensures { result
        ≡ (if exceeds_kind (kind_text kind) then None else Some (kind_row (kind_text kind))) }
{
    match kind {
        WrittenKind::Sampling { refresh } => {
            if is_outside(0, MOST_TICKS as i64, refresh) {
                return None;
            }
            Some(PortKind::Sampling {
                refresh: refresh as u64,
            })
        }
        WrittenKind::Queuing { depth, discipline } => {
            if is_outside(1, MOST_DEPTH as i64, depth) {
                return None;
            }
            Some(PortKind::Queuing {
                depth: depth as u8,
                discipline,
            })
        }
    }
}

/// The row of a port, if its name and numbers are within their limits.
#[tactic(auto, unfolding(module_meaning::specs::TableRules::exceeds_port))]
fn port_row(port: &WrittenPort<'_>) -> Option<PortRow>
    ensures { result
        ≡ (if exceeds_port (port_text port.now) then None else Some
        (port_row (port_text port.now))) }
{
    let name = Name::new(port.name.as_bytes())?;
    if is_outside(1, MOST_WORDS as i64, port.words) {
        return None;
    }
    let kind = kind_row(port.kind)?;
    Some(PortRow {
        name,
        kind,
        direction: port.direction,
        words: port.words as u8,
    })
}

#[tactic(auto, using(std::proofs::lemmas::List::drop_more))]
fn port_rows(alloc: Global, ports: &[WrittenPort<'_>]) -> Result<Vec<PortRow>, TableFault>
    ensures kept { IfOk result
        (λ r. (list_any exceeds_port (map port_text ports.now) ≡ false)
        × (map port_row (map port_text ports.now) ≡ r.items)) }
    ensures refused { RefusesLimit result (list_any exceeds_port (map port_text ports.now)) }
{
    let mut rows = Vec::new(alloc);
    for port in ports {
        let row = port_row(port).ok_or(TableFault::Limit)?;
        if rows.push(row).is_err() {
            return Err(TableFault::Memory);
        }
    }
    Ok(rows)
}

fn health_row(health: Option<HealthTable>) -> HealthTable
    ensures { result ≡ unwrap_or health all_ignored }
{
    match health {
        Some(known) => known,
        None => ALL_IGNORED,
    }
}

fn has_many_ports(partition: &WrittenPartition<'_>) -> bool
    ensures { result ≡ has_many_ports (partition_text partition.now) }
{
    partition.ports.len() > MOST_PORTS as usize
}

fn exceeds_times(frame: i64, partition: &WrittenPartition<'_>) -> bool
    ensures { result ≡ exceeds_times frame (partition_text partition.now) }
{
    is_outside(1, frame, partition.period) || is_outside(0, partition.period, partition.duration)
}

/// The row of a partition, if its name, numbers and ports are within their limits.
#[tactic(auto, unfolding(module_meaning::specs::TableRules::exceeds_partition))]
fn partition_row(
    alloc: Global,
    frame: i64,
    partition: &WrittenPartition<'_>,
) -> Result<PartitionRow, TableFault>
    requires { is_outside 1 (pos 16777216) frame ≡ false }
    ensures kept { IfOk result
        (λ r. (exceeds_partition frame (partition_text partition.now) ≡ false)
        × (partition_row (partition_text partition.now) ≡ partition_view r)) }
    ensures refused { RefusesLimit result (exceeds_partition frame (partition_text partition.now)) }
{
    let name = Name::new(partition.name.as_bytes()).ok_or(TableFault::Limit)?;
    if exceeds_times(frame, partition) || has_many_ports(partition) {
        return Err(TableFault::Limit);
    }
    let ports = port_rows(alloc, partition.ports.as_slice())?;
    Ok(PartitionRow {
        name,
        period: partition.period as u32,
        duration: partition.duration as u32,
        health: health_row(partition.health),
        ports,
    })
}

/// The rows of the partitions, if they are within their limits.
#[tactic(auto, using(std::proofs::lemmas::List::drop_more))]
pub fn partition_rows(
    alloc: Global,
    frame: i64,
    partitions: &[WrittenPartition<'_>],
) -> Result<Vec<PartitionRow>, TableFault>
    requires { is_outside 1 (pos 16777216) frame ≡ false }
    ensures kept { IfOk result
        (λ r. (list_any (exceeds_partition frame) (map partition_text partitions.now) ≡ false)
        × (map partition_row (map partition_text partitions.now) ≡ map partition_view r.items)) }
    ensures refused { RefusesLimit result
        (list_any (exceeds_partition frame) (map partition_text partitions.now)) }
{
    let mut rows = Vec::new(alloc);
    for partition in partitions {
        let row = partition_row(alloc, frame, partition)?;
        if rows.push(row).is_err() {
            return Err(TableFault::Memory);
        }
    }
    Ok(rows)
}

#[tactic(auto, unfolding(module_meaning::specs::TableRules::exceeds_window))]
fn exceeds_window(window: &WrittenWindow<'_>) -> bool
    ensures { result ≡ exceeds_window (window_text window.now) }
{
    window.offset < 0 || window.length < 1
}

#[tactic(auto, unfolding(module_meaning::specs::TableRules::exceeds_channel))]
fn exceeds_channel(channel: &WrittenChannel<'_>) -> bool
    ensures { result ≡ exceeds_channel (channel_text channel.now) }
{
    Name::new(channel.name.as_bytes()).is_none()
        || channel.destinations.is_empty()
        || channel.destinations.len() > MOST_DESTINATIONS as usize
}

#[tactic(auto, unfolding(module_meaning::specs::TableRules::is_outside_cost))]
fn is_outside_cost(number: i64) -> bool
    ensures { result ≡ is_outside_cost number }
{
    is_outside(1, i64::from(MOST_COST), number)
}

#[tactic(auto, unfolding(module_meaning::specs::TableRules::is_outside_cost))]
fn ticks_row(number: i64) -> u32
    requires { is_outside_cost number ≡ false }
    ensures { result ≡ nat_abs number }
{
    number as u32
}

/// The cost of a number of ticks, if it is within its limits.
fn cost_row(number: i64) -> Option<TickCost>
    ensures { result ≡ (if is_outside_cost number then None else Some (cost_row number)) }
{
    if is_outside_cost(number) {
        return None;
    }
    TickCost::new(ticks_row(number))
}

/// The costs in the order of their keys, if each is within its limits.
#[tactic(auto, using(std::proofs::lemmas::List::drop_more))]
fn cost_rows(alloc: Global, numbers: &[i64]) -> Result<Vec<TickCost>, TableFault>
    ensures kept { IfOk result
        (λ r. (list_any is_outside_cost numbers.now ≡ false)
        × (map cost_row numbers.now ≡ r.items)) }
    ensures refused { RefusesLimit result (list_any is_outside_cost numbers.now) }
{
    let mut rows = Vec::new(alloc);
    for number in numbers {
        let row = cost_row(*number).ok_or(TableFault::Limit)?;
        if rows.push(row).is_err() {
            return Err(TableFault::Memory);
        }
    }
    Ok(rows)
}

/// The costs of a table, if each is within its limits; those that are written of Pal if the table
/// writes none.
pub fn table_costs(alloc: Global, costs: &Option<Vec<i64>>) -> Result<Costs, TableFault>
    ensures kept { IfOk result
        (λ row. (has_costs_outside (option_map (λ v. v.items) costs.now) ≡ false)
        × (row ≡ costs_or_written (option_map (λ v. v.items) costs.now))) }
    ensures refused { RefusesLimit result
        (has_costs_outside (option_map (λ v. v.items) costs.now)) }
{
    let costs = match costs {
        None => None,
        Some(numbers) => Costs::from_order(&cost_rows(alloc, numbers)?),
    };
    Ok(costs.unwrap_or(Costs::written()))
}

/// Whether the frame or a count of the whole table is outside its limits.
#[tactic(auto, unfolding(module_meaning::specs::TableRules::exceeds_counts))]
pub fn exceeds_counts(table: &WrittenTable<'_>) -> bool
    ensures { result ≡ exceeds_counts (table_text table.now) }
{
    is_outside(1, MOST_FRAME_TICKS as i64, table.frame)
        || table.partitions.is_empty()
        || table.partitions.len() > MOST_PARTITIONS as usize
        || table.windows.is_empty()
        || table.windows.len() > MOST_WINDOWS as usize
        || table.channels.len() > MOST_CHANNELS as usize
}

#[tactic(auto, using(std::proofs::lemmas::List::drop_more))]
fn exceeds_windows(windows: &[WrittenWindow<'_>]) -> bool
    ensures { result ≡ list_any exceeds_window (map window_text windows.now) }
{
    for window in windows {
        if exceeds_window(window) {
            return true;
        }
    }
    false
}

#[tactic(auto, using(std::proofs::lemmas::List::drop_more))]
fn exceeds_channels(channels: &[WrittenChannel<'_>]) -> bool
    ensures { result ≡ list_any exceeds_channel (map channel_text channels.now) }
{
    for channel in channels {
        if exceeds_channel(channel) {
            return true;
        }
    }
    false
}

/// Returns true if a number of a window, or a name or a count of a channel is outside its limits.
#[tactic(auto, unfolding(module_meaning::specs::TableRules::exceeds_rows))]
pub fn exceeds_rows(table: &WrittenTable<'_>) -> bool
    ensures { result ≡ exceeds_rows (table_text table.now) }
{
    exceeds_windows(table.windows.as_slice()) || exceeds_channels(table.channels.as_slice())
}
