//! The names for a replay text.

ghost use Rattle.std.specs.Prelude.{◌≡◌, IfOk, map};
ghost use Rattle.image.specs.Items.{partition_of};
ghost use Rattle.isolation.specs.ReplayText.{is_destination};
ghost use Rattle.image_findings.specs.Views.{names_of, receiver_of};
ghost use Rattle.image_findings.specs.Named as spec;

use crate::names::{Names, Receiver, TextKind};
use apex_types::{PortDirection, PortRow};
use std::alloc::{AllocError, Global};
use window_table::PartitionRow;

/// The names of a partition for a replay text: its ports, and its own.
///
/// # Errors
///
/// Only if memory runs out.
pub fn input_names<'a>(alloc: Global, row: &'a PartitionRow) -> Result<Names<'a>, AllocError>
    ensures { IfOk result (λ names. names_of names ≡ spec.input_names (partition_of row.now)) }
{
    let mut partitions = Vec::new(alloc);
    partitions.push(row.name.as_str())?;
    Ok(Names {
        kind: TextKind::Inputs,
        receivers: receivers(alloc, row.ports.as_slice())?,
        partitions,
    })
}

#[tactic(auto, using(std::proofs::lemmas::List::drop_more, std::proofs::lemmas::List::append_assoc, crate::proofs::Loops::append_nil))]
fn receivers<'a>(alloc: Global, ports: &'a [PortRow]) -> Result<Vec<Receiver<'a>>, AllocError>
    ensures { IfOk result
        (λ receivers. map receiver_of receivers.items ≡ map spec.port_receiver ports.now) }
{
    let mut receivers = Vec::with_capacity(alloc, ports.len())?;
    for port in ports {
        receivers.push(receiver(port))?;
    }
    Ok(receivers)
}

fn receiver<'a>(port: &'a PortRow) -> Receiver<'a>
    ensures { receiver_of result ≡ spec.port_receiver port.now }
{
    Receiver {
        name: port.name.as_str(),
        is_open: is_destination(port.direction),
        most: port.words,
    }
}

fn is_destination(direction: PortDirection) -> bool
    ensures { result ≡ is_destination direction }
{
    match direction {
        PortDirection::Source => false,
        PortDirection::Destination => true,
    }
}
