//! The rows of a partition.

ghost use Rattle.std.specs.Prelude.{◌≡◌, ◌++◌, OnOk};
ghost use Rattle.image.specs.Items.{item_of};
ghost use Rattle.partition.specs.Members.{member_of};
ghost use Rattle.partition_base.specs.Machines.{controls_of};
ghost use Rattle.partition_base.specs.contracts.machine.PartitionProcessorExecutor.TheImpl.{ghosts as machine};
ghost use Rattle.state_rows.specs.Rows.{rows_in};
ghost use Rattle.state_rows.specs.States as meaning;

use crate::errors::write_errors;
use crate::heading::Heading;
use crate::lists::write_ready;
use crate::mode::write_mode;
use crate::objects::write_objects;
use crate::port_rows::write_ports;
use crate::processes::write_processes;
use crate::runners::write_runners;
use crate::words::write_words;
use image::PartitionItem;
use partition::{Kernel, Partition};
use partition_base::PartitionProcessor;
use regions::PartitionMem;
use state_rows::Form;
use std::alloc::AllocError;

/// Appends the rows of a partition's kernel.
fn write_kernel(of: &Heading, kernel: &Kernel, text: &mut Vec<u8>) -> Result<(), AllocError>
    ensures { OnOk result
        (text.new.items
        ≡ text.old.items ++ rows_in of.now.form (meaning.kernel_rows of.now.name kernel.now)) }
{
    let processes = kernel.processes();
    write_mode(of, kernel, text)?;
    write_processes(of, processes, text)?;
    write_ready(of, processes, text)?;
    write_objects(of, processes, kernel.objects(), text)?;
    write_ports(of, processes, kernel.ports(), text)?;
    write_errors(of, processes, kernel.errors(), text)
}

/// Appends the rows of the data.
pub(crate) fn write_data(
    of: &Heading,
    memory: &PartitionMem,
    text: &mut Vec<u8>,
) -> Result<(), AllocError>
    ensures { OnOk result
        (text.new.items
        ≡ text.old.items
        ++ rows_in of.now.form (meaning.data_rows of.now.name memory.now.words)) }
{
    write_words(of, "data", &[], memory.data(), text)
}

/// Appends the rows of a partition of this kernel and processor.
fn write_world(
    of: &Heading,
    code: &[[u8; 16]],
    kernel: &Kernel,
    processor: &PartitionProcessor,
    memory: &PartitionMem,
    text: &mut Vec<u8>,
) -> Result<(), AllocError>
    ensures { OnOk result
        (text.new.items
        ≡ text.old.items
        ++ rows_in of.now.form
        (meaning.world_rows of.now.name code.now kernel.now memory.now.words
        (controls_of processor.now memory.now))) }
{
    let processes = kernel.processes();
    let rows = processes.rows();
    write_kernel(of, kernel, text)?;
    write_data(of, memory, text)?;
    write_runners(of, code, processor, memory, rows, text)?;
    Ok(())
}

/// Appends the rows of a partition's state; `item` is its item of the image.
pub fn write_member(
    form: Form,
    item: &PartitionItem,
    partition: &Partition<PartitionProcessor>,
    memory: &PartitionMem,
    text: &mut Vec<u8>,
) -> Result<(), AllocError>
    ensures { OnOk result
        (text.new.items
        ≡ text.old.items
        ++ rows_in form
        (meaning.member_rows (item_of item.now) (member_of machine partition.now memory.now))) }
{
    let kernel = partition.kernel();
    let processor = partition.executor();
    let name = kernel.name();
    let of = Heading { form, name };
    let code = item.section.code.as_slice();
    write_world(&of, code, kernel, processor, memory, text)
}
