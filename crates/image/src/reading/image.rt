//! All fields of an image.

ghost use Rattle.std.specs.Prelude.{◌≡◌};
ghost use Rattle.machine_meaning.specs.ImageReading.{magic_at, version_at, fields_at};
ghost use Rattle.image.specs.Views.{Gives, fields_of};

use crate::fault::ImageFault;
use crate::item::PartitionItem;
use crate::reading::channels::channel_list_at;
use crate::reading::choices::module_action_at;
use crate::reading::costs::own_fields_at;
use crate::reading::items::item_list_at;
use crate::reading::numbers::{bytes_at, u16_at, u32_within};
use crate::reading::rows::list_at;
use apex_types::limits::{MOST_FRAME_TICKS, MOST_WINDOWS};
use apex_types::{
    FIRST_VERSION, ImageVersion, MAGIC, ModuleAction, SECOND_VERSION, THIRD_VERSION, WindowRow,
};
use std::alloc::Global;
use window_table::ChannelRow;

/// All fields of an image: each is within its limit; the rules of the module table are not judged.
#[derive(Drop)]
pub struct Fields {
    pub frame: u32,
    pub fault: ModuleAction,
    pub version: ImageVersion,
    pub partitions: Vec<PartitionItem>,
    pub windows: Vec<WindowRow>,
    pub channels: Vec<ChannelRow>,
}

#[tactic(auto, unfolding(machine_meaning::specs::ImageReading::magic_at))]
fn magic_at(bytes: &[u8]) -> Result<(&[u8], &[u8]), ImageFault>
    ensures { Gives (λ x. (x.0.now, x.1.now)) result (magic_at bytes.now) }
{
    let (text, rest) = bytes_at(8, bytes)?;
    if text != MAGIC.as_slice() {
        return Err(ImageFault::Foreign);
    }
    Ok((text, rest))
}

#[tactic(auto, unfolding(machine_meaning::specs::ImageReading::version_at))]
fn version_at(bytes: &[u8]) -> Result<(u16, &[u8]), ImageFault>
    ensures { Gives (λ x. (x.0, x.1.now)) result (version_at bytes.now) }
{
    let (_, rest) = magic_at(bytes)?;
    let (number, rest) = u16_at(rest)?;
    if number != FIRST_VERSION && number != SECOND_VERSION && number != THIRD_VERSION {
        return Err(ImageFault::Foreign);
    }
    Ok((number, rest))
}

/// The fields of an image, and the bytes after them.
#[tactic(auto, unfolding(machine_meaning::specs::ImageReading::fields_at))]
pub fn fields_at(alloc: Global, bytes: &[u8]) -> Result<(Fields, &[u8]), ImageFault>
    ensures { Gives (λ x. (fields_of x.0, x.1.now)) result (fields_at bytes.now) }
{
    let (number, rest) = version_at(bytes)?;
    let (frame, rest) = u32_within(rest, 1, MOST_FRAME_TICKS)?;
    let (fault, rest) = module_action_at(rest)?;
    let (version, rest) = own_fields_at(alloc, number, rest)?;
    let limits = version.limits();
    let (partitions, rest) = item_list_at(alloc, limits, frame, rest)?;
    let (windows, rest) = list_at(alloc, limits, rest, 1, MOST_WINDOWS as u32)?;
    let (channels, rest) = channel_list_at(alloc, limits, rest)?;
    let fields = Fields {
        frame,
        fault,
        version,
        partitions,
        windows,
        channels,
    };
    Ok((fields, rest))
}
