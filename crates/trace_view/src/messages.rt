//! The numbers of messages.

ghost use Rattle.std.specs.Prelude.{◌≡◌};
ghost use Rattle.trace_view.specs.Counting.{route_of};

use apex_types::{EventKind, Name};

/// A port or channel where messages pass.
#[derive(Clone, Copy)]
pub enum Route {
    /// A port of the partition.
    Port(Name),
    /// A channel by which messages of the partition leave the module.
    Channel(Name),
}

/// The numbers of messages that passed.
#[derive(Clone, Copy)]
pub struct Messages {
    /// Messages that left the port.
    pub moved: u64,
    /// Messages that reached the port.
    pub arrived: u64,
    /// Messages that found the port full.
    pub lost: u64,
    /// Messages that left the module.
    pub out: u64,
}

impl Messages {
    ghost use Rattle.trace_view.specs.Counting.{with_message};

    /// No messages.
    pub fn new() -> Messages
        ensures { result ≡ record { moved = 0; arrived = 0; lost = 0; out = 0 } }
    {
        Messages {
            moved: 0,
            arrived: 0,
            lost: 0,
            out: 0,
        }
    }

    /// Counts the message of such a line; other lines have no message.
    pub fn count(&mut self, kind: &EventKind)
        ensures { self.new ≡ with_message kind.now self.old }
    {
        match kind {
            EventKind::Move(_, _) => self.moved = self.moved.saturating_add(1),
            EventKind::Arrive(_, _) => self.arrived = self.arrived.saturating_add(1),
            EventKind::Lost(_, _) => self.lost = self.lost.saturating_add(1),
            EventKind::Out(_, _) => self.out = self.out.saturating_add(1),
            _ => {}
        }
    }
}

/// The port or channel where the message of such a line passes; `None` for a line without a
/// message.
pub fn route_of(kind: &EventKind) -> Option<Route>
    ensures { result ≡ route_of kind.now }
{
    match kind {
        EventKind::Move(port, _) | EventKind::Arrive(port, _) | EventKind::Lost(port, _) => {
            Some(Route::Port(*port))
        }
        EventKind::Out(channel, _) => Some(Route::Channel(*channel)),
        _ => None,
    }
}
