//! Stays in a state, and in a mode.

ghost use Rattle.std.specs.Prelude.{◌≡◌, None, option_map};
ghost use Rattle.trace_stays.specs.Stays.{left_at, running_left_at};

use crate::next::Next;
use crate::span::Span;
use apex_types::{Mode, ProcessState, Ticks};

/// A process stays in a state for these ticks.
#[derive(Clone, Copy, PartialEq, Eq)]
pub struct Stay {
    pub state: ProcessState,
    pub span: Span,
}

/// A partition stays in a mode for these ticks.
#[derive(Clone, Copy, PartialEq, Eq)]
pub struct ModeStay {
    pub mode: Mode,
    pub span: Span,
}

/// The state of a process, and the first tick that counts for it.
#[derive(Clone, Copy)]
struct Held {
    state: ProcessState,
    since: Ticks,
}

impl Held {
    ghost use Rattle.trace_stays.specs.Stays.{stay_of, stay_until};

    /// The first tick that no longer counts for the state, if a line of this tick ends it. A tick
    /// counts once, so a stay ends where it began, at the earliest.
    fn until(self, next: Next, tick: Ticks) -> Ticks
        ensures { result.0 ≡ stay_until self next tick.0 }
    {
        Ticks(self.since.0.max(left_at(self.state, next, tick).0))
    }

    fn stay(self, until: Ticks) -> Stay
        ensures { result ≡ stay_of self until.0 }
    {
        Stay {
            state: self.state,
            span: Span {
                from: self.since,
                until,
            },
        }
    }
}

/// The first tick that no longer counts for RUNNING, if a line of this tick says where the process
/// goes.
///
/// The process has done its last work in this tick, unless it becomes READY, since then another one
/// was chosen before the tick's work, or is gone before this work.
fn running_left_at(next: Next, tick: Ticks) -> Ticks
    ensures { result.0 ≡ running_left_at next tick.0 }
{
    match next {
        Next::Enters(ProcessState::Ready) | Next::Cleared => tick,
        _ => Ticks(tick.0.saturating_add(1)),
    }
}

/// The first tick that no longer counts for a state, if a line of this tick says where the process
/// goes.
fn left_at(state: ProcessState, next: Next, tick: Ticks) -> Ticks
    ensures { result.0 ≡ left_at state next tick.0 }
{
    match state {
        ProcessState::Running => running_left_at(next, tick),
        ProcessState::Dormant | ProcessState::Ready | ProcessState::Waiting => tick,
    }
}

/// The state of one process as the lines so far show it. A process that has no line yet, or whose
/// partition has started again, is in none.
#[derive(Clone, Copy)]
pub struct StateWatch {
    held: Option<Held>,
}

impl StateWatch {
    ghost use Rattle.trace_stays.specs.Stays.{held_behind, stay_ended, stay_left};

    /// A process without a line.
    pub fn new() -> StateWatch
        ensures { result.held ≡ None }
    {
        StateWatch { held: None }
    }

    /// The state that the last line shows.
    pub fn state(&self) -> Option<ProcessState>
        ensures { result ≡ option_map (λ held. held.state) self.now.held }
    {
        match self.held {
            Some(held) => Some(held.state),
            None => None,
        }
    }

    /// A line of this tick says where the process goes. Returns the stay that is over.
    pub fn turn(&mut self, next: Next, tick: Ticks) -> Option<Stay>
        ensures ended { result ≡ stay_ended self.old.held next tick.0 }
        ensures held { self.new.held ≡ held_behind self.old.held next tick.0 }
    {
        let (since, ended) = match self.held {
            Some(held) => {
                let until = held.until(next, tick);
                (until, Some(held.stay(until)))
            }
            None => (tick, None),
        };
        self.held = match next {
            Next::Enters(state) => Some(Held { state, since }),
            Next::Gone | Next::Cleared => None,
        };
        ended
    }

    /// The stay that is not over where the trace ends.
    pub fn last_stay(&self, until: Ticks) -> Option<Stay>
        ensures { result ≡ stay_left self.now.held until.0 }
    {
        match self.held {
            Some(held) => Some(held.stay(Ticks(held.since.0.max(until.0)))),
            None => None,
        }
    }
}

/// The mode of a partition, and the first tick that counts for it.
#[derive(Clone, Copy)]
struct HeldMode {
    mode: Mode,
    since: Ticks,
}

/// The mode of one partition as the lines so far show it.
#[derive(Clone, Copy)]
pub struct ModeWatch {
    held: Option<HeldMode>,
}

impl ModeWatch {
    ghost use Rattle.trace_stays.specs.Stays.{mode_behind, mode_ended};

    /// A partition without a mode.
    pub fn new() -> ModeWatch
        ensures { result.held ≡ None }
    {
        ModeWatch { held: None }
    }

    /// A line of this tick says that the partition enters a mode. Returns the stay that is over.
    pub fn enter(&mut self, mode: Mode, tick: Ticks) -> Option<ModeStay>
        ensures ended { result ≡ mode_ended self.old.held tick.0 }
        ensures held { self.new.held ≡ mode_behind self.old.held mode tick.0 }
    {
        let ended = self.last_stay(tick);
        let since = match ended {
            Some(stay) => stay.span.until,
            None => tick,
        };
        self.held = Some(HeldMode { mode, since });
        ended
    }

    /// The stay that is not over where the trace ends.
    pub fn last_stay(&self, until: Ticks) -> Option<ModeStay>
        ensures { result ≡ mode_ended self.now.held until.0 }
    {
        match self.held {
            Some(held) => Some(ModeStay {
                mode: held.mode,
                span: Span {
                    from: held.since,
                    until: Ticks(held.since.0.max(until.0)),
                },
            }),
            None => None,
        }
    }
}
