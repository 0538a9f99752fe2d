//! The values that an image spells.

ghost use Rattle.machine_meaning.specs.ImageLimits.{IsLawful};
ghost use Rattle.machine_laws.specs.LawfulFact.{lawful_prop};
ghost use Rattle.image.specs.Items.{image_from};

use crate::item::PartitionItem;
use apex_types::{ImageVersion, ModuleAction};
use window_table::{ChannelRow, Schedule};

/// An image of a version: a module table with the section of each partition, in the order of the table.
/// Each value is within its limit, and the rules of the module table are kept.
#[derive(Drop)]
pub struct Image {
    pub schedule: Schedule,
    pub fault: ModuleAction,
    pub version: ImageVersion,
    pub partitions: Vec<PartitionItem>,
    pub channels: Vec<ChannelRow>,
    ghost lawful: { IsLawful (image_from schedule fault version partitions.items channels.items) } by { lawful_prop (image_from schedule fault version partitions.items channels.items) },
}
