//! The numbers of ticks of a process in each state.

ghost use Rattle.std.specs.Prelude.{◌≡◌};

use apex_types::ProcessState;
use trace_stays::{Span, Stay};

/// The ticks of a process in each state.
#[derive(Clone, Copy)]
pub struct StateTicks {
    pub running: u64,
    pub ready: u64,
    pub waiting: u64,
    pub dormant: u64,
}

impl StateTicks {
    ghost use Rattle.trace_view.specs.Counting.{with_stay};

    /// No ticks in any state.
    pub fn new() -> StateTicks
        ensures { result ≡ record { running = 0; ready = 0; waiting = 0; dormant = 0 } }
    {
        StateTicks {
            running: 0,
            ready: 0,
            waiting: 0,
            dormant: 0,
        }
    }

    /// Adds those ticks of a stay that lie in the window.
    pub fn add(&mut self, stay: Stay, window: Span)
        ensures { self.new ≡ with_stay window stay self.old }
    {
        let ticks = stay.span.within(window).ticks();
        match stay.state {
            ProcessState::Running => self.running = self.running.saturating_add(ticks),
            ProcessState::Ready => self.ready = self.ready.saturating_add(ticks),
            ProcessState::Waiting => self.waiting = self.waiting.saturating_add(ticks),
            ProcessState::Dormant => self.dormant = self.dormant.saturating_add(ticks),
        }
    }
}
