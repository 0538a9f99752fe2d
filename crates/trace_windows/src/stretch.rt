//! Ticks of one owner.

ghost use Rattle.std.specs.Prelude.{◌≡◌};

use apex_types::PartitionId;
use trace_stays::Span;

/// Ticks that follow one another: those of a window, or those between two windows.
#[derive(Clone, Copy)]
pub struct Stretch {
    /// The partition in whose window they are, by its number in the module table; `None` for ticks in
    /// no window.
    pub owner: Option<PartitionId>,
    /// Whether the first one is the beginning of a window that is a release point.
    pub is_release: bool,
    pub span: Span,
}

impl Stretch {
    ghost use Rattle.trace_windows.specs.Stretches.{is_of};

    /// Returns true for ticks in a window of the partition at this place of the module table.
    pub fn is_of(&self, place: usize) -> bool
        ensures { result ≡ is_of place self.now.owner }
    {
        match self.owner {
            Some(owner) => match owner.place() {
                Some(other) => usize::from(other) == place,
                None => false,
            },
            None => false,
        }
    }
}
