//! Rows of the module table.

ghost use Rattle.std.specs.Prelude.{◌≡◌, ◌++◌, OnOk};
ghost use Rattle.machine_meaning.specs.ImageSpelling.{health, port_kind, port_fields, port, partition, window, channel_end, channel};
ghost use Rattle.image.specs.Items.{partition_of, channel_of};

use crate::writing::numbers::{
    number_of_direction, number_of_discipline, number_of_partition_action, put_name,
};
use crate::writing::rows::{Spelled, put_list};
use apex_types::{ChannelEnd, HealthTable, PortKind, PortRow, WindowRow};
use std::alloc::AllocError;
use window_table::{ChannelRow, PartitionRow};

#[tactic(auto, unfolding(machine_meaning::specs::ImageSpelling::health))]
fn put_health(out: &mut Vec<u8>, table: &HealthTable) -> Result<(), AllocError>
    ensures { OnOk result (out.new.items ≡ out.old.items ++ health table.now) }
{
    out.extend_from_slice(&[
        number_of_partition_action(table.deadline_missed),
        number_of_partition_action(table.application_error),
        number_of_partition_action(table.numeric_error),
        number_of_partition_action(table.illegal_request),
        number_of_partition_action(table.stack_overflow),
        number_of_partition_action(table.memory_violation),
        number_of_partition_action(table.hardware_fault),
    ])
}

#[tactic(auto, unfolding(machine_meaning::specs::ImageSpelling::port_fields))]
fn put_port_fields(out: &mut Vec<u8>, kind: PortKind) -> Result<(), AllocError>
    ensures { OnOk result (out.new.items ≡ out.old.items ++ port_fields kind) }
{
    match kind {
        PortKind::Sampling { refresh } => {
            out.extend_from_slice(&refresh.to_le_bytes())?;
            out.extend_from_slice(&[0, 0])
        }
        PortKind::Queuing { depth, discipline } => {
            out.extend_from_slice(&0u64.to_le_bytes())?;
            out.extend_from_slice(&[depth, number_of_discipline(discipline)])
        }
    }
}

fn number_of_kind(kind: PortKind) -> u8
    ensures { result ≡ port_kind kind }
{
    match kind {
        PortKind::Sampling { .. } => 0,
        PortKind::Queuing { .. } => 1,
    }
}

impl Spelled for PortRow {
    ghost spelled = { port };

    #[tactic(auto, unfolding(machine_meaning::specs::ImageSpelling::port))]
    fn write(&self, out: &mut Vec<u8>) -> Result<(), AllocError> {
        put_name(out, &self.name)?;
        let direction = number_of_direction(self.direction);
        out.extend_from_slice(&[number_of_kind(self.kind), direction, self.words])?;
        put_port_fields(out, self.kind)
    }
}

#[tactic(auto, unfolding(machine_meaning::specs::ImageSpelling::partition))]
pub fn put_partition(out: &mut Vec<u8>, row: &PartitionRow) -> Result<(), AllocError>
    ensures { OnOk result (out.new.items ≡ out.old.items ++ partition (partition_of row.now)) }
{
    put_name(out, &row.name)?;
    out.extend_from_slice(&row.period.to_le_bytes())?;
    out.extend_from_slice(&row.duration.to_le_bytes())?;
    put_health(out, &row.health)?;
    put_list(out, &row.ports)
}

impl Spelled for WindowRow {
    ghost spelled = { window };

    #[tactic(auto, unfolding(machine_meaning::specs::ImageSpelling::window))]
    fn write(&self, out: &mut Vec<u8>) -> Result<(), AllocError> {
        out.push(self.partition.0)?;
        out.extend_from_slice(&self.offset.to_le_bytes())?;
        out.extend_from_slice(&self.length.to_le_bytes())?;
        out.push(u8::from(self.release))?;
        Ok(())
    }
}

impl Spelled for ChannelEnd {
    ghost spelled = { channel_end };

    #[tactic(auto, unfolding(machine_meaning::specs::ImageSpelling::channel_end))]
    fn write(&self, out: &mut Vec<u8>) -> Result<(), AllocError> {
        match *self {
            ChannelEnd::Device => out.extend_from_slice(&[0, 0]),
            ChannelEnd::Port(partition, port) => out.extend_from_slice(&[partition.0, port.0]),
        }
    }
}

impl Spelled for ChannelRow {
    ghost spelled = { λ row. channel (channel_of row) };

    #[tactic(auto, unfolding(machine_meaning::specs::ImageSpelling::channel))]
    fn write(&self, out: &mut Vec<u8>) -> Result<(), AllocError> {
        put_name(out, &self.name)?;
        self.source.write(out)?;
        put_list(out, &self.destinations)
    }
}
