//! An image as one of the newest version.

ghost use Rattle.std.specs.Prelude.{◌≡◌};
ghost use Rattle.machine_meaning.specs.Image.{upgraded};
ghost use Rattle.image.specs.Views.{image_of};

use crate::value::Image;
use apex_types::ImageVersion;

impl Image {
    /// The same image as one of the third version, with the same costs. Takes no memory.
    pub fn upgraded(self) -> Image
        ensures { image_of result ≡ upgraded (image_of self) }
    {
        let Image {
            schedule,
            fault,
            version,
            partitions,
            channels,
        } = self;
        let costs = version.costs();
        Image {
            schedule,
            fault,
            version: ImageVersion::Third { costs },
            partitions,
            channels,
        }
    }
}
