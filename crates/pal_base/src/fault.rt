//! Refusals of a source text.

ghost use Rattle.std.specs.Prelude.{◌≡◌, ◌≤◌};
ghost use Rattle.pal_base.specs.declared.fault.Refusal.TheVariants.{Memory};
ghost use Rattle.pal_base.specs.Numbers.{refusal_number};

use std::alloc::{AllocError, AllocFailed};
use thiserror::Error;

/// Why a source text is refused. If several reasons apply, the first in this list is returned.
#[derive(Clone, Copy, Debug, PartialEq, Eq)]
pub enum Refusal {
    /// A byte is not ASCII, or the text is longer than 1,048,576 bytes.
    Text = 1,
    /// The text is not in the grammar.
    Grammar = 2,
    /// A name is unknown, or is declared twice.
    Name = 3,
    /// The number or the kind of arguments or targets is wrong, or a name is of the wrong kind.
    Kind = 4,
    /// A number, a count or a frame is outside its limit.
    Limit = 5,
    /// A process's period is not a multiple of its partition's.
    Period = 6,
    /// Memory ran out.
    Memory = 7,
}

impl Refusal {
    /// The number of the refusal, from 1 to 7.
    pub fn number(self) -> u8
        ensures low { 1 ≤ result }
        ensures high { result ≤ 7 }
        ensures number { result ≡ refusal_number self }
    {
        self as u8
    }
}

/// A refusal of a source text, and the line that it is about, from 1. If memory ran out, `line`
/// is 0.
#[derive(Clone, Copy, Debug, Error)]
#[error("refused by {refusal:?} in line {line}")]
pub struct PalFault {
    pub refusal: Refusal,
    pub line: u32,
}

impl PalFault {
    /// Memory ran out.
    pub const MEMORY: Self = PalFault {
        refusal: Refusal::Memory,
        line: 0,
    };

    /// The number of the refusal, from 1 to 7.
    pub fn number(&self) -> u8
        ensures { result ≡ refusal_number self.now.refusal }
    {
        self.refusal.number()
    }
}

impl From<AllocError> for PalFault {
    ghost from_gives = { λ _ e. e.refusal ≡ Memory };

    fn from(_: AllocError) -> Self {
        PalFault::MEMORY
    }
}

impl<T: Drop> From<AllocFailed<T>> for PalFault {
    ghost from_gives = { λ _ e. e.refusal ≡ Memory };

    fn from(_: AllocFailed<T>) -> Self {
        PalFault::MEMORY
    }
}
