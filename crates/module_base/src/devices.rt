//! Device texts: the meaning of the lines of a text for an image.

ghost use Rattle.std.specs.Prelude.{◌≡◌, ◌<◌, ℤ, List, Some, Ok, IfOk, IfErr};
ghost use Rattle.module_meaning.specs.DeviceText as meant;
ghost use Rattle.module_meaning.specs.DeviceText.{first_from, words_of_end, words_of_ends, words_of_port};
ghost use Rattle.machine_meaning.specs.MachineMeaning.{verdict_for};
ghost use Rattle.engine_meaning.specs.Digits.{same};
ghost use Rattle.module_meaning.specs.Table.{at_number, is_device};
ghost use Rattle.image.specs.Items.{channel_of};
ghost use Rattle.image.specs.Views.{image_of};
ghost use Rattle.module_base.specs.Refusals.{IsRefusal};
ghost use Rattle.module_base.specs.Seen.{fitting, seen};
ghost use Rattle.module_base.specs.Views.{rows_in, channels_in};

use crate::fault::DeviceTextFault;
use crate::line::{MessageWords, Written};
use crate::read::{TakesLines, is_room, read_lines};
use apex_types::{
    ChannelEnd, ChannelIndex, DeviceFault, DeviceInput, DeviceLine, Name, PartitionId, PortId,
    PortRow, Ticks,
};
use image::Image;
use std::alloc::Global;
use window_table::ChannelRow;

/// The lines of a device text for an image.
///
/// # Errors
///
/// The fault of the first wrong line, or out of memory.
pub fn read_devices(
    alloc: Global,
    image: &Image,
    text: &[u8],
) -> Result<Vec<DeviceLine>, DeviceTextFault>
    ensures accepted { IfOk result
        (λ lines. verdict_for (image_of image.now) text.now ≡ Ok lines.items) }
    ensures refused { IfErr result
        (λ fault. IsRefusal (verdict_for (image_of image.now) text.now) fault) }
{
    read_lines(alloc, b"MSG".as_slice(), image, text)
}

impl TakesLines for Image {
    ghost use Rattle.module_meaning.specs.DeviceText.{named as named_in};
    ghost use Rattle.module_base.specs.Views.{rows_in, channels_in};

    type Line = DeviceLine;

    ghost is_readable = { λ _. Unit {0} };

    ghost named = { λ image. named_in (rows_in image) (channels_in image) };

    ghost tick_of = { λ line. line.tick.0 };

    fn take(&self, count: usize, tick: Ticks, written: Written) -> Result<DeviceLine, DeviceFault> {
        taken(self, count, tick, written)
    }

    fn tick(line: &DeviceLine) -> Ticks {
        line.tick
    }
}

/// The line of a device for an image, by the names in it.
fn taken(
    image: &Image,
    count: usize,
    tick: Ticks,
    written: Written,
) -> Result<DeviceLine, DeviceFault>
    ensures { (w : meant.Written) → written ≡ seen w
        → result ≡ meant.named (rows_in image.now) (channels_in image.now) count tick.0 w }
{
    match written {
        Written::Message(channel, words) => message(image, count, tick, channel, words),
        Written::ModuleFault => within(is_room(count), tick, DeviceInput::ModuleFault),
        Written::PartitionFault(partition) => partition_fault(image, count, tick, partition),
    }
}

/// A message of the channel with this name.
#[tactic(auto, using(std::proofs::lemmas::List::drop_more, crate::proofs::Lawful::few_channels), unfolding(module_meaning::specs::DeviceText::first_from))]
fn message(
    image: &Image,
    count: usize,
    tick: Ticks,
    name: Name,
    words: MessageWords,
) -> Result<DeviceLine, DeviceFault>
    ensures { (ws : List ℤ) → words ≡ fitting ws
        → result
        ≡ meant.taken_message (rows_in image.now) count tick.0 ws
        (first_from 0 (λ c. same c.name name) (channels_in image.now)) }
{
    for (place, channel) in image.channels.iter().enumerate() {
        if channel.name.as_bytes() == name.as_bytes() {
            let index = ChannelIndex(place as u8);
            return message_by(image, count, tick, index, channel, words);
        }
    }
    Err(DeviceFault::Name)
}

/// A message of this channel, whose source must be the device.
#[tactic(auto, using(crate::proofs::Lawful::long_message))]
fn message_by(
    image: &Image,
    count: usize,
    tick: Ticks,
    index: ChannelIndex,
    channel: &ChannelRow,
    words: MessageWords,
) -> Result<DeviceLine, DeviceFault>
    ensures { (ws : List ℤ) → words ≡ fitting ws
        → result
        ≡ meant.taken_message (rows_in image.now) count tick.0 ws
        (Some (index.0, channel_of channel.now)) }
{
    if !is_device(channel.source) {
        return Err(DeviceFault::Name);
    }
    let most = words_of_ends(image, channel.destinations.as_slice());
    match words {
        MessageWords::Few(words) => {
            let fits = is_room(count) && words.len() <= usize::from(most);
            within(fits, tick, DeviceInput::Message(index, words))
        }
        MessageWords::TooMany => Err(DeviceFault::Size),
    }
}

/// A fault of the partition with this name.
#[tactic(auto, using(std::proofs::lemmas::List::drop_more, crate::proofs::Lawful::few_partitions), unfolding(module_meaning::specs::DeviceText::first_from))]
fn partition_fault(
    image: &Image,
    count: usize,
    tick: Ticks,
    name: Name,
) -> Result<DeviceLine, DeviceFault>
    ensures { result
        ≡ meant.taken_fault count tick.0
        (first_from 1 (λ p. same p.name name) (rows_in image.now)) }
{
    for (place, partition) in image.partitions.iter().enumerate() {
        if partition.row.name.as_bytes() == name.as_bytes() {
            let partition = PartitionId(place as u8 + 1);
            return within(is_room(count), tick, DeviceInput::PartitionFault(partition));
        }
    }
    Err(DeviceFault::Name)
}

/// The line of an input, unless too many lines precede it or its message is too long.
fn within(fits: bool, tick: Ticks, input: DeviceInput) -> Result<DeviceLine, DeviceFault>
    ensures { result ≡ meant.within fits tick.0 input }
{
    if fits {
        Ok(DeviceLine { tick, input })
    } else {
        Err(DeviceFault::Size)
    }
}

fn is_device(end: ChannelEnd) -> bool
    ensures { result ≡ is_device end }
{
    match end {
        ChannelEnd::Device => true,
        ChannelEnd::Port(_, _) => false,
    }
}

/// The most words of a message to the first of these ends.
fn words_of_ends(image: &Image, ends: &[ChannelEnd]) -> u8
    ensures { result ≡ words_of_ends (rows_in image.now) ends.now }
{
    match ends.first() {
        Some(end) => words_of_end(image, *end),
        None => 0,
    }
}

/// The most words of a message to this end.
fn words_of_end(image: &Image, end: ChannelEnd) -> u8
    ensures { result ≡ words_of_end (rows_in image.now) end }
{
    let ChannelEnd::Port(partition, port) = end else {
        return 0;
    };
    let Some(place) = partition.place() else {
        return 0;
    };
    match image.partitions.get(usize::from(place)) {
        Some(item) => words_of_port(item.row.ports.as_slice(), port),
        None => 0,
    }
}

#[tactic(auto, using(crate::proofs::Lawful::from_place))]
fn words_of_port(ports: &[PortRow], port: PortId) -> u8
    ensures { result ≡ words_of_port (at_number ports.now port.0) }
{
    let Some(place) = port.place() else {
        return 0;
    };
    match ports.get(usize::from(place)) {
        Some(row) => row.words,
        None => 0,
    }
}
