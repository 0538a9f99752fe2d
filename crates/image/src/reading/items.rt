//! Partitions with the sections compiled from their sources.

ghost use Rattle.std.specs.Prelude.{◌≡◌, ◌<◌, []};
ghost use Rattle.machine_meaning.specs.ImageReading.{section_at, item_at, items_at, list_at};
ghost use Rattle.image.specs.Items.{section_of, item_of, items_of};
ghost use Rattle.image.specs.Views.{Gives};

use crate::fault::ImageFault;
use crate::item::PartitionItem;
use crate::reading::bodies::{bodies_at, code_at};
use crate::reading::numbers::u32_within;
use crate::reading::objects::objects_at;
use crate::reading::partitions::partition_at;
use apex_types::{Limits, Section};
use std::alloc::Global;

/// The section of a partition with a period of `unit` ticks.
#[tactic(auto, unfolding(machine_meaning::specs::ImageReading::section_at))]
fn section_at(
    alloc: Global,
    limits: Limits,
    unit: u32,
    bytes: &[u8],
) -> Result<(Section, &[u8]), ImageFault>
    requires { 0 < unit }
    ensures { Gives (λ x. (section_of x.0, x.1.now)) result (section_at limits unit bytes.now) }
{
    let (objects, rest) = objects_at(alloc, limits, bytes)?;
    let (bodies, rest) = bodies_at(alloc, limits, unit, rest)?;
    let (code, rest) = code_at(alloc, limits, &bodies, rest)?;
    let section = Section {
        initial: objects.initial,
        semaphores: objects.semaphores,
        events: objects.events,
        buffers: objects.buffers,
        blackboards: objects.blackboards,
        routines: bodies.routines,
        processes: bodies.processes,
        init: bodies.init,
        handler: bodies.handler,
        code,
    };
    Ok((section, rest))
}

#[tactic(auto, unfolding(machine_meaning::specs::ImageReading::item_at))]
fn item_at<'a>(
    alloc: Global,
    limits: Limits,
    frame: u32,
    before: &[PartitionItem],
    bytes: &'a [u8],
) -> Result<(PartitionItem, &'a [u8]), ImageFault>
    ensures { Gives (λ x. (item_of x.0, x.1.now)) result
        (item_at limits frame (items_of before.now) bytes.now) }
{
    let (row, rest) = match partition_at(alloc, limits, frame, before, bytes) {
        Ok(found) => found,
        Err(fault) => return Err(fault),
    };
    let (section, rest) = section_at(alloc, limits, row.period, rest)?;
    Ok((PartitionItem { row, section }, rest))
}

fn items_at(
    alloc: Global,
    limits: Limits,
    frame: u32,
    count: u32,
    bytes: &[u8],
) -> Result<(Vec<PartitionItem>, &[u8]), ImageFault>
    ensures { Gives (λ x. (items_of x.0.items, x.1.now)) result
        (items_at (item_at limits frame) count [] bytes.now) }
{
    let mut items: Vec<PartitionItem> = Vec::new(alloc);
    let mut rest = bytes;
    for _ in 0..count {
        let (item, after) = match item_at(alloc, limits, frame, &items, rest) {
            Ok(found) => found,
            Err(fault) => return Err(fault),
        };
        items.push(item)?;
        rest = after;
    }
    Ok((items, rest))
}

/// The partitions, at least one, in a major frame of `frame` ticks.
#[tactic(auto, unfolding(machine_meaning::specs::ImageReading::list_at))]
pub fn item_list_at(
    alloc: Global,
    limits: Limits,
    frame: u32,
    bytes: &[u8],
) -> Result<(Vec<PartitionItem>, &[u8]), ImageFault>
    ensures { Gives (λ x. (items_of x.0.items, x.1.now)) result
        (list_at 1 limits.partitions (item_at limits frame) bytes.now) }
{
    let (count, rest) = u32_within(bytes, 1, u32::from(limits.partitions))?;
    items_at(alloc, limits, frame, count, rest)
}
