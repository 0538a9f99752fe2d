//! Replay texts: the meaning of the lines of a text for one partition.

ghost use Rattle.std.specs.Prelude.{◌≡◌, ◌≤◌, ℤ, List, Some, Ok, Err, All, length, IfOk, IfErr, if◌then◌else◌};
ghost use Rattle.apex_types.specs.Limits.{MOST_PORTS, MOST_WORDS};
ghost use Rattle.apex_types.specs.declared.device.DeviceFault.TheVariants as fault;
ghost use Rattle.apex_types.specs.declared.row.PortRow.{PortRow};
ghost use Rattle.module_meaning.specs.DeviceText as meant;
ghost use Rattle.module_meaning.specs.DeviceText.{first_from, is_room};
ghost use Rattle.engine_meaning.specs.Digits.{same};
ghost use Rattle.image.specs.Items.{partition_of};
ghost use Rattle.isolation.specs.declared.input.Input.TheVariants.{PartitionFault};
ghost use Rattle.isolation.specs.InputText.{AreInOrder};
ghost use Rattle.isolation.specs.ReplayText as replay;
ghost use Rattle.isolation.specs.ReplayText.{is_destination, replay_verdict, taken_message};
ghost use Rattle.module_base.specs.Refusals.{IsRefusal};
ghost use Rattle.module_base.specs.Rows.{HasPorts};
ghost use Rattle.module_base.specs.Seen.{fitting, seen};

use crate::fault::DeviceTextFault;
use crate::line::{MessageWords, Written};
use crate::read::{TakesLines, is_room, read_lines};
use apex_types::{DeviceFault, Name, PortDirection, PortId, PortRow, Ticks};
use isolation::{Input, InputLine};
use std::alloc::Global;
use window_table::PartitionRow;

/// The lines of a replay text for a partition's row, in the order of their ticks. A row of an image
/// has the ports that are asked for.
///
/// # Errors
///
/// The fault of the first wrong line, or out of memory.
pub fn read_inputs(
    alloc: Global,
    row: &PartitionRow,
    text: &[u8],
) -> Result<Vec<InputLine>, DeviceTextFault>
    requires { HasPorts (partition_of row.now) }
    ensures accepted { IfOk result
        (λ lines. replay_verdict (partition_of row.now) text.now ≡ Ok lines.items) }
    ensures order { IfOk result (λ lines. AreInOrder 0 lines.items) }
    ensures refused { IfErr result
        (λ fault. IsRefusal (replay_verdict (partition_of row.now) text.now) fault) }
{
    read_lines(alloc, b"ARRIVE".as_slice(), row, text)
}

impl TakesLines for PartitionRow {
    ghost use Rattle.image.specs.Items.{partition_of};
    ghost use Rattle.isolation.specs.ReplayText.{named as named_in};
    ghost use Rattle.module_base.specs.Rows.{HasPorts};

    type Line = InputLine;

    ghost is_readable = { λ row. HasPorts (partition_of row) };

    ghost named = { λ row. named_in (partition_of row) };

    ghost tick_of = { λ line. line.tick.0 };

    fn take(&self, count: usize, tick: Ticks, written: Written) -> Result<InputLine, DeviceFault> {
        taken(self, count, tick, written)
    }

    fn tick(line: &InputLine) -> Ticks {
        line.tick
    }
}

/// The line of an input of the partition, by the names in it.
fn taken(
    row: &PartitionRow,
    count: usize,
    tick: Ticks,
    written: Written,
) -> Result<InputLine, DeviceFault>
    requires { HasPorts (partition_of row.now) }
    ensures { (w : meant.Written) → written ≡ seen w
        → result ≡ replay.named (partition_of row.now) count tick.0 w }
{
    match written {
        Written::Message(port, words) => message(row.ports.as_slice(), count, tick, port, words),
        Written::ModuleFault => within(is_room(count), tick, Input::ModuleFault),
        Written::PartitionFault(partition) => own_fault(&row.name, count, tick, partition),
    }
}

/// A message at the port with this name.
#[tactic(auto, using(std::proofs::lemmas::List::drop_more), unfolding(module_meaning::specs::DeviceText::first_from))]
fn message(
    ports: &[PortRow],
    count: usize,
    tick: Ticks,
    name: Name,
    words: MessageWords,
) -> Result<InputLine, DeviceFault>
    requires count { length ports.now ≤ MOST_PORTS }
    requires words { All (λ (x : PortRow). x.words ≤ MOST_WORDS) ports.now }
    ensures { (ws : List ℤ) → words ≡ fitting ws
        → result ≡ taken_message count tick.0 ws (first_from 1 (λ x. same x.name name) ports.now) }
{
    for (place, row) in ports.iter().enumerate() {
        if row.name.as_bytes() == name.as_bytes() {
            let port = PortId(place as u8 + 1);
            return message_at(count, tick, port, row, words);
        }
    }
    Err(DeviceFault::Name)
}

/// A message at this port, which must be a destination.
#[tactic(auto, using(crate::proofs::Lawful::long_arrival))]
fn message_at(
    count: usize,
    tick: Ticks,
    port: PortId,
    row: &PortRow,
    words: MessageWords,
) -> Result<InputLine, DeviceFault>
    requires { row.now.words ≤ MOST_WORDS }
    ensures { (ws : List ℤ) → words ≡ fitting ws
        → result ≡ taken_message count tick.0 ws (Some (port.0, row.now)) }
{
    if !is_destination(row.direction) {
        return Err(DeviceFault::Name);
    }
    match words {
        MessageWords::Few(words) => {
            let fits = is_room(count) && words.len() <= usize::from(row.words);
            within(fits, tick, Input::Arrive(port, words))
        }
        MessageWords::TooMany => Err(DeviceFault::Size),
    }
}

fn is_destination(direction: PortDirection) -> bool
    ensures { result ≡ is_destination direction }
{
    match direction {
        PortDirection::Source => false,
        PortDirection::Destination => true,
    }
}

/// A fault of the partition, which must be named by its own name.
fn own_fault(own: &Name, count: usize, tick: Ticks, name: Name) -> Result<InputLine, DeviceFault>
    ensures { result
        ≡ (if same own.now name then replay.within (is_room count)
        tick.0 PartitionFault else Err fault.Name) }
{
    if own.as_bytes() == name.as_bytes() {
        within(is_room(count), tick, Input::PartitionFault)
    } else {
        Err(DeviceFault::Name)
    }
}

/// The line of an input, unless too many lines precede it or its message is too long.
fn within(fits: bool, tick: Ticks, input: Input) -> Result<InputLine, DeviceFault>
    ensures { result ≡ replay.within fits tick.0 input }
{
    if fits {
        Ok(InputLine { tick, input })
    } else {
        Err(DeviceFault::Size)
    }
}
