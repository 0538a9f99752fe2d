//! The messages of ports and channels, partition by partition.

ghost use Rattle.std.specs.Prelude.{◌≡◌, ◌<◌, ◌↔◌, ◌++◌, ◌∷◌, [], ℕ, Some, length, slice_get, IsTrue, MatchOption, OnErr, OnOk};
ghost use Rattle.trace_view.specs.Traffic.{IsCounted, IsNoneOf, IsOf, totals_at};

use crate::messages::{Messages, Route};
use crate::report::{PartitionTotal, RouteTotal};
use apex_types::{EventKind, Name};
use std::alloc::Global;
use trace_stays::MemoryFull;

/// The messages of a port or a channel of a partition.
#[derive(Clone, Copy)]
pub struct Passage {
    pub partition: Name,
    pub route: Route,
    pub messages: Messages,
}

impl Passage {
    /// Returns true if these are the messages of this port or channel of this partition.
    fn is_of(&self, partition: &Name, route: &Route) -> bool
        ensures { IsTrue result ↔ IsOf partition.now route.now self.now }
    {
        self.partition.as_bytes() == partition.as_bytes() && is_same(&self.route, route)
    }
}

/// Returns true if both are the same port, or the same channel.
fn is_same(one: &Route, other: &Route) -> bool
    ensures { IsTrue result ↔ (one.now ≡ other.now) }
{
    match (one, other) {
        (Route::Port(one), Route::Port(other)) => one.as_bytes() == other.as_bytes(),
        (Route::Channel(one), Route::Channel(other)) => one.as_bytes() == other.as_bytes(),
        _ => false,
    }
}

/// The numbers of messages at each port and each channel of each partition, in the order of their
/// first lines.
#[derive(Drop)]
pub struct Traffic {
    passages: Vec<Passage>,
}

impl Traffic {
    /// No messages.
    pub fn new(alloc: Global) -> Traffic
        ensures { result.passages.items ≡ [] }
    {
        Traffic {
            passages: Vec::new(alloc),
        }
    }

    /// Counts the message of a line at this port or channel of this partition.
    ///
    /// # Errors
    ///
    /// Memory ran out. Then nothing is counted.
    pub fn count(
        &mut self,
        partition: &Name,
        route: &Route,
        kind: &EventKind,
    ) -> Result<(), MemoryFull>
        ensures counted { OnOk result
            (IsCounted partition.now route.now kind.now self.old.passages.items
            self.new.passages.items) }
        ensures kept { OnErr result (self.new.passages.items ≡ self.old.passages.items) }
    {
        match self.place_of(partition, route) {
            Some(place) => self.passages[place].messages.count(kind),
            None => {
                let mut messages = Messages::new();
                messages.count(kind);
                self.passages.push(Passage {
                    partition: *partition,
                    route: *route,
                    messages,
                })?;
            }
        }
        Ok(())
    }

    /// The place where the messages of this port or channel are counted; `None` if they are not
    /// counted.
    fn place_of(&self, partition: &Name, route: &Route) -> Option<usize>
        ensures { MatchOption result
            (IsNoneOf partition.now route.now self.now.passages.items)
            (λ place. (one : Passage)
            × ((slice_get self.now.passages.items place ≡ Some one)
            × IsOf partition.now route.now one)) }
    {
        for (place, passage) in self.passages.iter().enumerate() {
            if passage.is_of(partition, route) {
                return Some(place);
            }
        }
        None
    }

    /// Adds the totals of a partition.
    ///
    /// # Errors
    ///
    /// Memory ran out.
    #[tactic(auto, using(std::proofs::lemmas::List::drop_more))]
    pub fn add_totals(
        &self,
        partition: &PartitionTotal,
        totals: &mut Vec<RouteTotal>,
    ) -> Result<(), MemoryFull>
        ensures { OnOk result
            (totals.new.items
            ≡ totals.old.items ++ totals_at partition.now self.now.passages.items) }
    {
        for passage in &self.passages {
            if passage.partition.as_bytes() == partition.name.as_bytes() {
                totals.push(RouteTotal {
                    partition: partition.name,
                    route: passage.route,
                    messages: passage.messages,
                })?;
            }
        }
        Ok(())
    }
}
