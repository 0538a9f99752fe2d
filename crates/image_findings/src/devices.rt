//! The names for a device text.

ghost use Rattle.std.specs.Prelude.{◌≡◌, IfOk, map};
ghost use Rattle.image.specs.Items.{channel_of, channels_of, items_of};
ghost use Rattle.image.specs.Views.{image_of};
ghost use Rattle.machine_meaning.specs.MachineMeaning.{row_of_item};
ghost use Rattle.module_base.specs.Views.{rows_in};
ghost use Rattle.module_meaning.specs.DeviceText.{words_of_end, words_of_ends, words_of_port};
ghost use Rattle.module_meaning.specs.Table.{at_number, is_device};
ghost use Rattle.image_findings.specs.Views.{names_of, receiver_of};
ghost use Rattle.image_findings.specs.Named as spec;

use crate::names::{Names, Receiver, TextKind};
use apex_types::{ChannelEnd, PortId, PortRow};
use image::{Image, PartitionItem};
use std::alloc::{AllocError, Global};
use window_table::ChannelRow;

/// The names of an image for its device text: its channels and its partitions.
///
/// # Errors
///
/// Only if memory runs out.
pub fn device_names<'a>(alloc: Global, image: &'a Image) -> Result<Names<'a>, AllocError>
    ensures { IfOk result (λ names. names_of names ≡ spec.device_names (image_of image.now)) }
{
    Ok(Names {
        kind: TextKind::Devices,
        receivers: receivers(alloc, image, image.channels.as_slice())?,
        partitions: partition_names(alloc, image.partitions.as_slice())?,
    })
}

#[tactic(auto, using(std::proofs::lemmas::List::drop_more, std::proofs::lemmas::List::append_assoc, crate::proofs::Loops::append_nil))]
fn receivers<'a>(
    alloc: Global,
    image: &Image,
    channels: &'a [ChannelRow],
) -> Result<Vec<Receiver<'a>>, AllocError>
    ensures { IfOk result
        (λ receivers. map receiver_of receivers.items
        ≡ map (spec.channel_receiver (rows_in image.now)) (channels_of channels.now)) }
{
    let mut receivers = Vec::with_capacity(alloc, channels.len())?;
    for channel in channels {
        receivers.push(receiver(image, channel))?;
    }
    Ok(receivers)
}

fn receiver<'a>(image: &Image, channel: &'a ChannelRow) -> Receiver<'a>
    ensures { receiver_of result
        ≡ spec.channel_receiver (rows_in image.now) (channel_of channel.now) }
{
    Receiver {
        name: channel.name.as_str(),
        is_open: is_device(channel.source),
        most: words_of_ends(image, channel.destinations.as_slice()),
    }
}

#[tactic(auto, using(std::proofs::lemmas::List::drop_more, std::proofs::lemmas::List::append_assoc, crate::proofs::Loops::append_nil))]
fn partition_names<'a>(
    alloc: Global,
    items: &'a [PartitionItem],
) -> Result<Vec<&'a str>, AllocError>
    ensures { IfOk result
        (λ names. map (λ name. name.now) names.items
        ≡ spec.partition_names (map row_of_item (items_of items.now))) }
{
    let mut names = Vec::with_capacity(alloc, items.len())?;
    for item in items {
        names.push(item.row.name.as_str())?;
    }
    Ok(names)
}

fn is_device(end: ChannelEnd) -> bool
    ensures { result ≡ is_device end }
{
    match end {
        ChannelEnd::Device => true,
        ChannelEnd::Port(_, _) => false,
    }
}

/// The most words of a message to the first of these ends.
fn words_of_ends(image: &Image, ends: &[ChannelEnd]) -> u8
    ensures { result ≡ words_of_ends (rows_in image.now) ends.now }
{
    match ends.first() {
        Some(end) => words_of_end(image, *end),
        None => 0,
    }
}

/// The most words of a message to this end.
fn words_of_end(image: &Image, end: ChannelEnd) -> u8
    ensures { result ≡ words_of_end (rows_in image.now) end }
{
    let ChannelEnd::Port(partition, port) = end else {
        return 0;
    };
    let Some(place) = partition.place() else {
        return 0;
    };
    match image.partitions.get(usize::from(place)) {
        Some(item) => words_of_port(item.row.ports.as_slice(), port),
        None => 0,
    }
}

#[tactic(auto, using(module_base::proofs::Lawful::from_place))]
fn words_of_port(ports: &[PortRow], port: PortId) -> u8
    ensures { result ≡ words_of_port (at_number ports.now port.0) }
{
    let Some(place) = port.place() else {
        return 0;
    };
    match ports.get(usize::from(place)) {
        Some(row) => row.words,
        None => 0,
    }
}
