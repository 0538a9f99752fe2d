//! The shares of a run: what its module does, and the ticks that are counted.

ghost use Rattle.std.specs.Prelude.{◌≡◌, ◌≤◌};
ghost use Rattle.apex_types.specs.Limits.{MOST_TICKS};

use crate::counted::Counted;
use crate::owner::{Owner, Stop};
use apex_types::Ticks;
use apex_types::limits::MOST_TICKS;
use window_table::Schedule;

/// What the module does, as the lines so far show it, and the ticks that are counted.
#[derive(Drop)]
pub struct Shares {
    pub(crate) schedule: Schedule,
    /// The partitions of the module table, in its order.
    pub(crate) owners: Vec<Owner>,
    /// The processes that stopped running in the tick of the last lines.
    pub(crate) stopped: Vec<Stop>,
    /// The tick of the last lines: the first one that is not counted.
    pub(crate) tick: Ticks,
    /// The tick at which the frames begin.
    pub(crate) origin: Ticks,
    pub(crate) is_down: bool,
    /// The first tick that counts.
    pub(crate) from: Ticks,
    pub(crate) counted: Counted,
    ghost past: { origin.0 ≤ tick.0 },
    ghost within: { tick.0 ≤ MOST_TICKS },
}

impl Shares {
    /// The partitions of the module table, in its order.
    pub fn owners(&self) -> &[Owner]
        ensures { result.now ≡ self.now.owners.items }
    {
        self.owners.as_slice()
    }

    /// The ticks that are counted: those before the tick of the last lines.
    pub fn counted(&self) -> &Counted
        ensures { result.now ≡ self.now.counted }
    {
        &self.counted
    }
}
