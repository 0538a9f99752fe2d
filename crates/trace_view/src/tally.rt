//! The numbers of one process.

ghost use Rattle.std.specs.Prelude.{◌≡◌, ◌+◌, Some};

use crate::extent::has_tick;
use crate::extremes::Extremes;
use crate::refusals::Refusals;
use crate::states::StateTicks;
use apex_types::{ProcessState, ReturnCode, Ticks};
use trace_stays::{Span, Stay};

/// A process enters a state, or is gone.
#[derive(Clone, Copy)]
pub struct Turn {
    /// The tick of the line that says so.
    pub tick: Ticks,
    /// The stay that is over; none if the process was in no state.
    pub ended: Option<Stay>,
    /// The state that begins; none if the process is gone, since its partition starts again.
    pub next: Option<ProcessState>,
}

/// The ticks from the READY of an activation, as a turn measures them.
#[derive(Clone, Copy)]
pub enum Measured {
    /// To its first RUNNING.
    ToRunning(u64),
    /// To the end of its last stay before WAITING or DORMANT.
    ToEnd(u64),
}

/// An activation that is not over.
#[derive(Clone, Copy)]
struct Activation {
    /// The tick of its READY line.
    ready: Ticks,
    /// True if it has been RUNNING.
    has_run: bool,
}

/// The numbers of one process.
#[derive(Clone, Copy)]
pub struct Tally {
    pub ticks: StateTicks,
    /// The number of times that it became READY without being preempted.
    pub activations: u64,
    /// The ticks from the READY of an activation to its first RUNNING.
    pub to_running: Option<Extremes>,
    /// The ticks from the READY of an activation to the end of its last stay before WAITING or
    /// DORMANT.
    pub to_end: Option<Extremes>,
    pub deadlines_missed: u64,
    pub refusals: Refusals,
    /// The application messages that it sent.
    pub reports: u64,
    activation: Option<Activation>,
}

impl Tally {
    ghost use Rattle.trace_view.specs.Counting.{capped, with_answer};
    ghost use Rattle.trace_view.specs.Tallies.{begun, ended_running, measured, measured_end, measured_run, nothing_counted, over, run, turned, with_ended};

    /// A process without counts.
    pub fn new() -> Tally
        ensures { result ≡ nothing_counted }
    {
        Tally {
            ticks: StateTicks::new(),
            activations: 0,
            to_running: None,
            to_end: None,
            deadlines_missed: 0,
            refusals: Refusals::new(),
            reports: 0,
            activation: None,
        }
    }

    /// Counts a turn of the process, and returns the time that it measures. Only the ticks and the
    /// activations of the window count.
    pub fn turn(&mut self, turn: Turn, window: Span) -> Option<Measured>
        ensures turned { self.new ≡ turned window turn self.old }
        ensures measured { result ≡ measured turn.next turn self.old.activation }
    {
        if let Some(stay) = turn.ended {
            self.stay(stay, window);
        }
        match turn.next {
            Some(ProcessState::Ready) => {
                self.become_ready(turn, window);
                None
            }
            Some(ProcessState::Running) => self.run(turn.tick),
            Some(ProcessState::Waiting | ProcessState::Dormant) => self.end(turn.end()),
            None => {
                self.activation = None;
                None
            }
        }
    }

    /// Counts a stay. Only its ticks in the window count.
    pub fn stay(&mut self, stay: Stay, window: Span)
        ensures { self.new ≡ with_ended window (Some stay) self.old }
    {
        self.ticks.add(stay, window);
    }

    /// Counts a service that ended with this code.
    pub fn answer(&mut self, code: ReturnCode)
        ensures { self.new ≡ record self.old { refusals = with_answer code self.old.refusals } }
    {
        self.refusals.count(code);
    }

    /// Counts an application message.
    pub fn report(&mut self)
        ensures { self.new ≡ record self.old { reports = capped (self.old.reports + 1) } }
    {
        self.reports = self.reports.saturating_add(1);
    }

    /// Counts a missed deadline.
    pub fn miss(&mut self)
        ensures { self.new
            ≡ record self.old { deadlines_missed = capped (self.old.deadlines_missed + 1) } }
    {
        self.deadlines_missed = self.deadlines_missed.saturating_add(1);
    }

    /// The process becomes READY. It begins an activation, unless it is preempted.
    fn become_ready(&mut self, turn: Turn, window: Span)
        ensures { self.new ≡ begun (ended_running turn.ended) window turn self.old }
    {
        if turn.was_running() {
            return;
        }
        if has_tick(window, turn.tick) {
            self.activations = self.activations.saturating_add(1);
            self.activation = Some(Activation {
                ready: turn.tick,
                has_run: false,
            });
        } else {
            self.activation = None;
        }
    }

    /// The process becomes RUNNING. Returns the time to it, if it is the first RUNNING of an
    /// activation.
    fn run(&mut self, tick: Ticks) -> Option<Measured>
        ensures tally { self.new ≡ run self.old.activation tick.0 self.old }
        ensures measured { result ≡ measured_run self.old.activation tick.0 }
    {
        let activation = self.activation?;
        if activation.has_run {
            return None;
        }
        let ticks = tick.0.saturating_sub(activation.ready.0);
        self.to_running = Some(Extremes::with(self.to_running, ticks));
        self.activation = Some(Activation {
            ready: activation.ready,
            has_run: true,
        });
        Some(Measured::ToRunning(ticks))
    }

    /// The activation ends before this tick. Returns the time to it, if there is an activation.
    fn end(&mut self, end: Ticks) -> Option<Measured>
        ensures tally { self.new ≡ over self.old.activation end.0 self.old }
        ensures measured { result ≡ measured_end self.old.activation end.0 }
    {
        let activation = self.activation?;
        let ticks = end.0.saturating_sub(activation.ready.0);
        self.to_end = Some(Extremes::with(self.to_end, ticks));
        self.activation = None;
        Some(Measured::ToEnd(ticks))
    }
}

impl Turn {
    ghost use Rattle.trace_view.specs.Tallies.{ended_at, ended_running};

    /// Returns true if the process was RUNNING.
    fn was_running(self) -> bool
        ensures { result ≡ ended_running self.ended }
    {
        match self.ended {
            Some(stay) => stay.state == ProcessState::Running,
            None => false,
        }
    }

    /// The tick where the stay ended; that of the line if the process was in no state.
    fn end(self) -> Ticks
        ensures { result.0 ≡ ended_at self.ended self.tick.0 }
    {
        match self.ended {
            Some(stay) => stay.span.until,
            None => self.tick,
        }
    }
}
