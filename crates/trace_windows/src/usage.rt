//! What the processor did in a tick.

ghost use Rattle.std.specs.Prelude.{◌≡◌};

use apex_types::{PartitionId, Subject};
use trace_stays::is_same_subject;

/// What the processor did in a tick.
#[derive(Clone, Copy)]
pub enum Use {
    /// It worked for this process of the partition, for its initialisation or its error handler.
    Process(PartitionId, Subject),
    /// The tick was in a window of this partition, and none of its processes worked.
    Idle(PartitionId),
    /// The tick was in no window.
    Unowned,
    /// The module was shut down.
    Down,
}

impl Use {
    ghost use Rattle.trace_windows.specs.Uses.{is_idle_at, is_same, place_of_use};

    /// The place in the module table of the partition in whose window the tick was; `None` for a
    /// tick in no window, or after a shutdown.
    pub fn place(&self) -> Option<usize>
        ensures { result ≡ place_of_use self.now }
    {
        match self {
            Use::Process(partition, _) | Use::Idle(partition) => {
                let place = partition.place()?;
                Some(usize::from(place))
            }
            Use::Unowned | Use::Down => None,
        }
    }

    /// Returns true if the tick was idle, in a window of the partition at this place.
    pub fn is_idle_at(&self, place: usize) -> bool
        ensures { result ≡ is_idle_at place self.now }
    {
        match self {
            Use::Idle(_) => self.place() == Some(place),
            _ => false,
        }
    }

    /// Returns true if the processor did the same.
    pub fn is_same(&self, other: &Use) -> bool
        ensures { result ≡ is_same self.now other.now }
    {
        match (self, other) {
            (Use::Process(one, who), Use::Process(other, whom)) => {
                one.0 == other.0 && is_same_subject(who, whom)
            }
            (Use::Idle(one), Use::Idle(other)) => one.0 == other.0,
            (Use::Unowned, Use::Unowned) => true,
            (Use::Down, Use::Down) => true,
            _ => false,
        }
    }
}
