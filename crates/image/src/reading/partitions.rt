//! A partition's row of the module table.

ghost use Rattle.std.specs.Prelude.{◌≡◌, ◌≤◌, ◌<◌, IfOk};
ghost use Rattle.std.specs.List.{list_any};
ghost use Rattle.std.specs.Str.{bytes_eq};
ghost use Rattle.machine_meaning.specs.ImageReading.{is_port, is_partition, fresh_name_at, health_at, sampling_at, queuing_at, kind_at, port_at, partition_at};
ghost use Rattle.image.specs.Items.{items_of, partition_of};
ghost use Rattle.image.specs.Views.{Gives};

use crate::fault::ImageFault;
use crate::item::PartitionItem;
use crate::reading::choices::{direction_at, discipline_at, partition_action_at};
use crate::reading::numbers::{name_at, same_name, u8_within, u32_within, u64_within};
use crate::reading::rows::{Row, list_at};
use apex_types::limits::{MOST_DEPTH, MOST_PORTS, MOST_TICKS};
use apex_types::{HealthTable, Limits, Name, PortKind, PortRow};
use std::alloc::Global;
use window_table::PartitionRow;

#[tactic(auto, unfolding(machine_meaning::specs::ImageReading::health_at))]
fn health_at(bytes: &[u8]) -> Result<(HealthTable, &[u8]), ImageFault>
    ensures { Gives (λ x. (x.0, x.1.now)) result (health_at bytes.now) }
{
    let (deadline_missed, rest) = partition_action_at(bytes)?;
    let (application_error, rest) = partition_action_at(rest)?;
    let (numeric_error, rest) = partition_action_at(rest)?;
    let (illegal_request, rest) = partition_action_at(rest)?;
    let (stack_overflow, rest) = partition_action_at(rest)?;
    let (memory_violation, rest) = partition_action_at(rest)?;
    let (hardware_fault, rest) = partition_action_at(rest)?;
    let table = HealthTable {
        deadline_missed,
        application_error,
        numeric_error,
        illegal_request,
        stack_overflow,
        memory_violation,
        hardware_fault,
    };
    Ok((table, rest))
}

#[tactic(auto, unfolding(machine_meaning::specs::ImageReading::sampling_at))]
fn sampling_at(bytes: &[u8]) -> Result<(PortKind, &[u8]), ImageFault>
    ensures { Gives (λ x. (x.0, x.1.now)) result (sampling_at bytes.now) }
{
    let (refresh, rest) = u64_within(bytes, 0, MOST_TICKS)?;
    let (_, rest) = u8_within(rest, 0, 0)?;
    let (_, rest) = u8_within(rest, 0, 0)?;
    Ok((PortKind::Sampling { refresh }, rest))
}

#[tactic(auto, unfolding(machine_meaning::specs::ImageReading::queuing_at))]
fn queuing_at(bytes: &[u8]) -> Result<(PortKind, &[u8]), ImageFault>
    ensures { Gives (λ x. (x.0, x.1.now)) result (queuing_at bytes.now) }
{
    let (_, rest) = u64_within(bytes, 0, 0)?;
    let (depth, rest) = u8_within(rest, 1, MOST_DEPTH)?;
    let (discipline, rest) = discipline_at(rest)?;
    Ok((PortKind::Queuing { depth, discipline }, rest))
}

/// The fields of the kind of this number.
#[tactic(auto, unfolding(machine_meaning::specs::ImageReading::kind_at))]
fn kind_at(number: u8, bytes: &[u8]) -> Result<(PortKind, &[u8]), ImageFault>
    ensures { Gives (λ x. (x.0, x.1.now)) result (kind_at number bytes.now) }
{
    if number == 0 {
        sampling_at(bytes)
    } else {
        queuing_at(bytes)
    }
}

fn is_port(rows: &[PortRow], name: &Name) -> bool
    ensures { result ≡ is_port rows.now name.now }
{
    rows.iter().any(|row| same_name(&row.name, name))
}

#[tactic(auto, unfolding(machine_meaning::specs::ImageReading::fresh_name_at))]
fn port_name_at<'a>(before: &[PortRow], bytes: &'a [u8]) -> Result<(Name, &'a [u8]), ImageFault>
    ensures { Gives (λ x. (x.0, x.1.now)) result (fresh_name_at (is_port before.now) bytes.now) }
{
    match name_at(bytes) {
        Ok((name, _)) if is_port(before, &name) => Err(ImageFault::Order),
        found => found,
    }
}

impl Row for PortRow {
    ghost reads = { port_at };

    #[tactic(auto, unfolding(machine_meaning::specs::ImageReading::port_at))]
    fn read<'a>(
        limits: Limits,
        before: &[PortRow],
        bytes: &'a [u8],
    ) -> Result<(PortRow, &'a [u8]), ImageFault> {
        let (name, rest) = match port_name_at(before, bytes) {
            Ok(found) => found,
            Err(fault) => return Err(fault),
        };
        let (number, rest) = u8_within(rest, 0, 1)?;
        let (direction, rest) = direction_at(rest)?;
        let (words, rest) = u8_within(rest, 1, limits.words)?;
        let (kind, rest) = kind_at(number, rest)?;
        let row = PortRow {
            name,
            kind,
            direction,
            words,
        };
        Ok((row, rest))
    }
}

fn is_partition(items: &[PartitionItem], name: &Name) -> bool
    ensures { result ≡ list_any (λ it. bytes_eq it.row.name name.now) items.now }
{
    items.iter().any(|item| same_name(&item.row.name, name))
}

#[tactic(auto, using(crate::proofs::Names::partition_names), unfolding(machine_meaning::specs::ImageReading::fresh_name_at))]
fn partition_name_at<'a>(
    before: &[PartitionItem],
    bytes: &'a [u8],
) -> Result<(Name, &'a [u8]), ImageFault>
    ensures { Gives (λ x. (x.0, x.1.now)) result
        (fresh_name_at (is_partition (items_of before.now)) bytes.now) }
{
    match name_at(bytes) {
        Ok((name, _)) if is_partition(before, &name) => Err(ImageFault::Order),
        found => found,
    }
}

/// A partition's row; its period is from 1 to `frame` ticks.
#[tactic(auto, unfolding(machine_meaning::specs::ImageReading::partition_at))]
pub fn partition_at<'a>(
    alloc: Global,
    limits: Limits,
    frame: u32,
    before: &[PartitionItem],
    bytes: &'a [u8],
) -> Result<(PartitionRow, &'a [u8]), ImageFault>
    ensures period { IfOk result (λ x. 0 < x.0.period) }
    ensures exact { Gives (λ x. (partition_of x.0, x.1.now)) result
        (partition_at limits frame (items_of before.now) bytes.now) }
{
    let (name, rest) = match partition_name_at(before, bytes) {
        Ok(found) => found,
        Err(fault) => return Err(fault),
    };
    let (period, rest) = u32_within(rest, 1, frame)?;
    let (duration, rest) = u32_within(rest, 0, period)?;
    let (health, rest) = health_at(rest)?;
    let (ports, rest) = list_at(alloc, limits, rest, 0, MOST_PORTS as u32)?;
    let row = PartitionRow {
        name,
        period,
        duration,
        health,
        ports,
    };
    Ok((row, rest))
}
