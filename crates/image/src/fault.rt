//! Why an image could not be read or written.

ghost use Rattle.std.specs.Prelude.{◌≡◌};
ghost use Rattle.image.specs.Views.{number_of};
ghost use Rattle.image.specs.declared.fault.ImageFault.TheVariants.{Memory};

use std::alloc::{AllocError, AllocFailed};
use thiserror::Error;

/// The fault of an image: the first fault from left to right.
#[derive(Clone, Copy, Debug, PartialEq, Eq, Error)]
pub enum ImageFault {
    /// A field is not all there.
    #[error("the image is truncated")]
    Truncated,
    /// The image begins with another magic or version.
    #[error("the bytes are no image of version 1, 2 or 3")]
    Foreign,
    /// A value is outside its limit, or breaks a rule of the module table.
    #[error("a value is outside its limit")]
    Limit,
    /// A name was used before among its kind, or a window begins before the end of the one before.
    #[error("a name stands twice, or windows are out of order")]
    Order,
    /// Bytes follow the last field.
    #[error("bytes stand after the last field")]
    Trailing,
    /// There is no memory.
    #[error("out of memory")]
    Memory,
}

impl ImageFault {
    /// The fault's number, 1 to 6.
    pub fn number(self) -> u8
        ensures { result ≡ number_of self }
    {
        match self {
            ImageFault::Truncated => 1,
            ImageFault::Foreign => 2,
            ImageFault::Limit => 3,
            ImageFault::Order => 4,
            ImageFault::Trailing => 5,
            ImageFault::Memory => 6,
        }
    }
}

impl From<AllocError> for ImageFault {
    ghost from_gives = { λ _ e. e ≡ Memory };

    fn from(_error: AllocError) -> ImageFault {
        ImageFault::Memory
    }
}

impl<T: Drop> From<AllocFailed<T>> for ImageFault {
    ghost from_gives = { λ _ e. e ≡ Memory };

    fn from(_error: AllocFailed<T>) -> ImageFault {
        ImageFault::Memory
    }
}
