//! The regions of a partition's memory, and the rights to each.

ghost use Rattle.std.specs.Prelude.{⊤, ◌≡◌, [], ◌∷◌, codes};
ghost use Rattle.regions.specs.Rights.{is_readable, is_writable, region_at, rights_of};

use bitflags::{Flag, Flags, bitflag_items};

/// The rights to the words of a region.
#[derive(Clone, Copy)]
pub struct Rights(u8);

bitflag_items! {
    impl Rights: u8 {
        const READ = 1;
        const WRITE = 2;
        const EXECUTE = 4;
    }
}

impl Flags for Rights {
    type Bits = u8;

    ghost exact = { ⊤ };

    ghost table = { (codes "READ", 1) ∷ (codes "WRITE", 2) ∷ (codes "EXECUTE", 4) ∷ [] };

    ghost set_of = { λ rights. rights.0 };

    fn flags<'a>() -> &'a [Flag<Rights>] {
        Rights::FLAGS
    }

    fn bits(&self) -> u8 {
        self.0
    }

    fn from_bits_retain(bits: u8) -> Rights {
        Rights(bits)
    }
}

/// A region of a partition's memory.
#[derive(Clone, Copy, PartialEq, Eq)]
pub enum Region {
    /// The instructions.
    Code,
    /// The partition's data, which all its processes share.
    Data,
    /// The stack of the current runner.
    Stack,
}

impl Region {
    /// The region of a number, or `None` if no region has that number.
    pub fn from_number(number: u32) -> Option<Region>
        ensures { result ≡ region_at number }
    {
        match number {
            0 => Some(Region::Code),
            1 => Some(Region::Data),
            2 => Some(Region::Stack),
            _ => None,
        }
    }

    /// The rights to the words of the region.
    pub fn rights(self) -> Rights
        ensures { result.0 ≡ rights_of self }
    {
        match self {
            Region::Code => Rights::EXECUTE,
            Region::Data | Region::Stack => Rights::READ.union(Rights::WRITE),
        }
    }

    /// Returns true if the words of the region may be read.
    pub(crate) fn is_readable(self) -> bool
        ensures { result ≡ is_readable self }
    {
        self.rights().contains(Rights::READ)
    }

    /// Returns true if the words of the region may be written.
    pub(crate) fn is_writable(self) -> bool
        ensures { result ≡ is_writable self }
    {
        self.rights().contains(Rights::WRITE)
    }
}
