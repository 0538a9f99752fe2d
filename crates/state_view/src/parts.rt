//! The rows of one part of a partition.

ghost use Rattle.std.specs.Prelude.{◌≡◌, ◌++◌, OnOk};
ghost use Rattle.image.specs.Items.{item_of};
ghost use Rattle.partition.specs.Members.{member_of};
ghost use Rattle.partition_base.specs.contracts.machine.PartitionProcessorExecutor.TheImpl.{ghosts as machine};
ghost use Rattle.state_rows.specs.Rows.{rows_in};
ghost use Rattle.state_rows.specs.States.{object_rows, placed, port_rows};
ghost use Rattle.state_view.specs.Parts as meaning;

use crate::errors::write_errors;
use crate::heading::Heading;
use crate::lists::write_ready;
use crate::member::{write_data, write_member};
use crate::mode::write_mode;
use crate::objects::write_objects;
use crate::port_rows::write_ports;
use crate::processes::write_processes;
use crate::runners::write_runners;
use image::PartitionItem;
use partition::{Kernel, Partition};
use partition_base::PartitionProcessor;
use regions::PartitionMem;
use state_rows::Form;
use std::alloc::AllocError;

/// A part of the rows of a partition: those of some kinds.
#[derive(Clone, Copy)]
pub enum Part {
    All,
    Mode,
    Processes,
    Ready,
    Objects,
    Ports,
    ObjectsAndPorts,
    Errors,
    Data,
    Runners,
    Nothing,
}

/// The part with the rows of a kind, which have this first key.
pub fn part_with(key: &str) -> Part
    ensures { result ≡ meaning.part_with key.now }
{
    match key {
        "mode" => Part::Mode,
        "process" | "waits" => Part::Processes,
        "ready" => Part::Ready,
        "semaphore" | "event" | "buffer" | "blackboard" => Part::Objects,
        "sampling" | "queuing" => Part::Ports,
        "message" | "waiter" => Part::ObjectsAndPorts,
        "error" => Part::Errors,
        "data" => Part::Data,
        "runner" | "stack" => Part::Runners,
        _ => Part::Nothing,
    }
}

/// Appends the rows of the objects and of the ports.
fn write_objects_and_ports(
    of: &Heading,
    kernel: &Kernel,
    text: &mut Vec<u8>,
) -> Result<(), AllocError>
    ensures { OnOk result
        (text.new.items
        ≡ text.old.items
        ++ rows_in of.now.form
        (object_rows of.now.name kernel.now.processes kernel.now.objects
        ++ placed (port_rows of.now.name kernel.now.processes) kernel.now.ports.ports)) }
{
    let processes = kernel.processes();
    write_objects(of, processes, kernel.objects(), text)?;
    write_ports(of, processes, kernel.ports(), text)
}

/// Appends the rows of a part of a kernel.
fn write_kernel_part(
    of: &Heading,
    part: Part,
    kernel: &Kernel,
    text: &mut Vec<u8>,
) -> Result<(), AllocError>
    ensures { OnOk result
        (text.new.items
        ≡ text.old.items
        ++ rows_in of.now.form (meaning.kernel_part part of.now.name kernel.now)) }
{
    let processes = kernel.processes();
    match part {
        Part::Mode => write_mode(of, kernel, text),
        Part::Processes => write_processes(of, processes, text),
        Part::Ready => write_ready(of, processes, text),
        Part::Objects => write_objects(of, processes, kernel.objects(), text),
        Part::Ports => write_ports(of, processes, kernel.ports(), text),
        Part::ObjectsAndPorts => write_objects_and_ports(of, kernel, text),
        Part::Errors => write_errors(of, processes, kernel.errors(), text),
        Part::All | Part::Data | Part::Runners | Part::Nothing => Ok(()),
    }
}

/// Appends the rows of a part of a partition's state; `item` is its item of the image.
pub fn write_part(
    form: Form,
    part: Part,
    item: &PartitionItem,
    partition: &Partition<PartitionProcessor>,
    memory: &PartitionMem,
    text: &mut Vec<u8>,
) -> Result<(), AllocError>
    ensures { OnOk result
        (text.new.items
        ≡ text.old.items
        ++ rows_in form
        (meaning.member_part part (item_of item.now) (member_of machine partition.now memory.now))) }
{
    let kernel = partition.kernel();
    let name = kernel.name();
    let of = Heading { form, name };
    match part {
        Part::All => write_member(form, item, partition, memory, text),
        Part::Data => write_data(&of, memory, text),
        Part::Runners => {
            let code = item.section.code.as_slice();
            let rows = kernel.processes().rows();
            write_runners(&of, code, partition.executor(), memory, rows, text)
        }
        _ => write_kernel_part(&of, part, kernel, text),
    }
}
