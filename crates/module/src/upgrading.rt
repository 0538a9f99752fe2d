//! Upgrading an image to the newest version.

ghost use Rattle.std.specs.Prelude.{◌≡◌, Err, IfErr, IfOk, IfSome};
ghost use Rattle.machine_meaning.specs.ImageReading.{image_at};
ghost use Rattle.image.specs.Named.{named};
ghost use Rattle.module.specs.Upgrades.{IsUpgraded};

use image::{ImageFault, load_image, write_image};
use std::alloc::Global;

/// The bytes of the image as one of the newest version. It has the same costs, and means the same.
///
/// # Errors
///
/// The first fault in reading the bytes from left to right, or `Memory` if memory runs out.
pub fn upgrade(alloc: Global, image: &[u8]) -> Result<Vec<u8>, ImageFault>
    ensures upgraded { IfOk result (λ bytes. IsUpgraded image.now bytes.items) }
    ensures refused { IfErr result
        (λ fault. IfSome (named fault) (λ f. image_at image.now ≡ Err f)) }
{
    let image = load_image(alloc, image)?;
    Ok(write_image(alloc, &image.upgraded())?)
}
