//! Reading an image from its bytes.

ghost use Rattle.std.specs.Prelude.{◌≡◌, Ok, Err, if◌then◌else◌};
ghost use Rattle.machine_meaning.specs.ImageLimits.{IsWithinLimits};
ghost use Rattle.machine_meaning.specs.ImageReading.{Limit, image_at, keeps_table_rules};
ghost use Rattle.image.specs.Views.{Gives, fields_of, image_of};

use crate::fault::ImageFault;
use crate::reading::image::{Fields, fields_at};
use crate::rules::keeps_rules;
use crate::value::Image;
use std::alloc::Global;
use window_table::{Schedule, has_wrong_window};

/// The image of fields that are within their limits, if they keep the rules of the module table.
fn judge(alloc: Global, fields: Fields) -> Result<Image, ImageFault>
    requires { IsWithinLimits (fields_of fields) }
    ensures { Gives image_of result
        (if keeps_table_rules (fields_of fields) then Ok (fields_of fields) else Err Limit) }
{
    let Fields {
        frame,
        fault,
        version,
        partitions,
        windows,
        channels,
    } = fields;
    if has_wrong_window(frame, partitions.len(), windows.as_slice()) {
        return Err(ImageFault::Limit);
    }
    let schedule = Schedule { frame, windows };
    if !keeps_rules(alloc, &schedule, partitions.as_slice(), channels.as_slice())? {
        return Err(ImageFault::Limit);
    }
    Ok(Image {
        schedule,
        fault,
        version,
        partitions,
        channels,
    })
}

/// The image that the bytes spell.
///
/// # Errors
///
/// The first fault in reading the bytes from left to right, or `Memory` if memory runs out.
#[tactic(auto, unfolding(machine_meaning::specs::ImageReading::image_at))]
pub fn load_image(alloc: Global, bytes: &[u8]) -> Result<Image, ImageFault>
    ensures { Gives image_of result (image_at bytes.now) }
{
    let (fields, rest) = fields_at(alloc, bytes)?;
    if !rest.is_empty() {
        return Err(ImageFault::Trailing);
    }
    judge(alloc, fields)
}
