//! The partitions of an image by their names.

ghost use Rattle.std.specs.Prelude.{◌≡◌, ◌≤◌, ◌<◌, length, option_map, IfSome};
ghost use Rattle.image.specs.Views.{image_of};
ghost use Rattle.isolation.specs.Replays.{numbered};

use apex_types::PartitionId;
use image::Image;

/// The number of the partition with this name, if the image has one.
#[tactic(auto, using(std::proofs::lemmas::List::drop_more, lone_partition::proofs::Lawful::items_of_image_few), unfolding(module_meaning::specs::DeviceText::first_from))]
pub fn numbered(image: &Image, name: &str) -> Option<PartitionId>
    ensures number { option_map (λ p. p.0) result
        ≡ option_map (λ found. found.0) (numbered (image_of image.now) name.now) }
    ensures there { IfSome result (λ p. 0 < p.0) }
    ensures within { IfSome result (λ p. p.0 ≤ length image.now.partitions.items) }
{
    for (place, item) in image.partitions.iter().enumerate() {
        if item.row.name.as_bytes() == name.as_bytes() {
            return Some(PartitionId(place as u8 + 1));
        }
    }
    None
}
