//! Why a module table is refused.

use std::alloc::{AllocError, AllocFailed};
use thiserror::Error;

/// Why a module table is refused: the first broken rule in this order.
#[derive(Clone, Copy, Debug, PartialEq, Eq, Error)]
pub enum TableFault {
    #[error("not a TOML document")]
    Document,
    #[error("a key is missing, unknown or of the wrong type, or a word is none of its words")]
    Shape,
    #[error("a number, a count or a name is outside its limits")]
    Limit,
    #[error("a name stands twice, or names nothing")]
    Name,
    #[error("a window begins before the end of the one before it, or ends past the frame")]
    Overlap,
    #[error("the frame is no multiple of a period")]
    Period,
    #[error("the windows of a partition offer less than its duration in one of its periods")]
    Duration,
    #[error("a partition has no release window")]
    Release,
    #[error("a channel connects what does not go together")]
    Ends,
    #[error("a health table has not exactly the seven errors, or an action is unknown")]
    Health,
    /// Memory ran out. This says nothing of the table.
    #[error("out of memory")]
    Memory,
}

impl From<AllocError> for TableFault {
    ghost use Rattle.std.specs.Prelude.{◌≡◌};
    ghost use Rattle.window_table.specs.declared.fault.TableFault.TheVariants.{Memory};

    ghost from_gives = { λ _ e. e ≡ Memory };

    fn from(_error: AllocError) -> TableFault {
        TableFault::Memory
    }
}

impl TableFault {
    ghost use Rattle.std.specs.Prelude.{◌≡◌};
    ghost use Rattle.window_table.specs.Answers.{number_of};

    /// The number of the refusal, 1 to 11.
    pub fn number(self) -> u8
        ensures { result ≡ number_of self }
    {
        match self {
            TableFault::Document => 1,
            TableFault::Shape => 2,
            TableFault::Limit => 3,
            TableFault::Name => 4,
            TableFault::Overlap => 5,
            TableFault::Period => 6,
            TableFault::Duration => 7,
            TableFault::Release => 8,
            TableFault::Ends => 9,
            TableFault::Health => 10,
            TableFault::Memory => 11,
        }
    }
}
