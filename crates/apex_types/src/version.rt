//! The versions of an image.

use crate::cost::Costs;
use crate::limits::{
    FIRST_MOST_PARTITIONS, FIRST_MOST_PROCESSES, FIRST_MOST_WORDS, MOST_PARTITIONS, MOST_PROCESSES,
    MOST_WORDS,
};

/// The bytes that every image begins with.
pub const MAGIC: [u8; 8] = *b"AP653IMG";

/// The number of the first version.
pub const FIRST_VERSION: u16 = 1;

/// The number of the second version.
pub const SECOND_VERSION: u16 = 2;

/// The number of the third version.
pub const THIRD_VERSION: u16 = 3;

/// The version of an image, with what only images of this version have. An image of the first
/// version has no costs: its constructs cost what is written of Pal. An image of the third has
/// larger limits.
#[derive(Clone, Copy)]
pub enum ImageVersion {
    First,
    Second { costs: Costs },
    Third { costs: Costs },
}

/// The limits that are not the same in every version of an image.
#[derive(Clone, Copy)]
pub struct Limits {
    /// The most partitions of a module.
    pub partitions: u8,
    /// The most processes of a partition.
    pub processes: u8,
    /// The most words of a message.
    pub words: u8,
}

impl ImageVersion {
    ghost use Rattle.std.specs.Prelude.{◌≡◌};
    ghost use Rattle.apex_types.specs.Versions.{costs_of, limits_of, number_of};

    /// The number of the version, as the image has it.
    pub fn number(self) -> u16
        ensures { result ≡ number_of self }
    {
        match self {
            ImageVersion::First => FIRST_VERSION,
            ImageVersion::Second { .. } => SECOND_VERSION,
            ImageVersion::Third { .. } => THIRD_VERSION,
        }
    }

    /// What constructs and instructions cost in a module with an image of this version.
    pub fn costs(self) -> Costs
        ensures { result ≡ costs_of self }
    {
        match self {
            ImageVersion::First => Costs::written(),
            ImageVersion::Second { costs } | ImageVersion::Third { costs } => costs,
        }
    }

    /// The limits of a module with an image of this version.
    pub fn limits(self) -> Limits
        ensures { result ≡ limits_of self }
    {
        match self {
            ImageVersion::First | ImageVersion::Second { .. } => Limits {
                partitions: FIRST_MOST_PARTITIONS,
                processes: FIRST_MOST_PROCESSES,
                words: FIRST_MOST_WORDS,
            },
            ImageVersion::Third { .. } => Limits {
                partitions: MOST_PARTITIONS,
                processes: MOST_PROCESSES,
                words: MOST_WORDS as u8,
            },
        }
    }
}
