//! The response times of one process.

ghost use Rattle.std.specs.Prelude.{◌≡◌, [], ℕ, List, OnOk};
ghost use Rattle.trace_view.specs.Percentiles.{AreTimes, IsSpread, with_end, with_running};

use crate::tally::Measured;
use crate::times::{Spread, Times};
use std::alloc::Global;
use trace_stays::MemoryFull;

/// The percentiles of the response times of a process.
#[derive(Clone, Copy)]
pub struct ResponseSpreads {
    /// Of the ticks from the READY of an activation to its first RUNNING.
    pub to_running: Spread,
    /// Of the ticks from the READY of an activation to its end.
    pub to_end: Spread,
}

/// The response times of a process, each with how often it was measured.
#[derive(Drop)]
pub struct Responses {
    to_running: Times,
    to_end: Times,
}

impl Responses {
    ghost use Rattle.trace_view.specs.Spreads.{spreads_of};

    /// Nothing was measured.
    pub fn new(alloc: Global) -> Responses
        ensures to_running { AreTimes [] result.to_running.counts.entries }
        ensures to_end { AreTimes [] result.to_end.counts.entries }
    {
        Responses {
            to_running: Times::new(alloc),
            to_end: Times::new(alloc),
        }
    }

    /// Takes one more time.
    ///
    /// # Errors
    ///
    /// Memory ran out, or 64 bits cannot count one time more.
    pub fn take(&mut self, measured: Measured) -> Result<(), MemoryFull>
        ensures to_running { OnOk result
            ((times : List ℕ) → AreTimes times self.old.to_running.counts.entries
            → AreTimes (with_running measured times) self.new.to_running.counts.entries) }
        ensures to_end { OnOk result
            ((times : List ℕ) → AreTimes times self.old.to_end.counts.entries
            → AreTimes (with_end measured times) self.new.to_end.counts.entries) }
    {
        match measured {
            Measured::ToRunning(time) => self.to_running.take(time),
            Measured::ToEnd(time) => self.to_end.take(time),
        }
    }

    /// The percentiles of the times that were taken.
    pub fn spreads(&self) -> ResponseSpreads
        ensures value { result ≡ spreads_of self.now }
        ensures to_running { (times : List ℕ) → AreTimes times self.now.to_running.counts.entries
            → IsSpread times result.to_running }
        ensures to_end { (times : List ℕ) → AreTimes times self.now.to_end.counts.entries
            → IsSpread times result.to_end }
    {
        ResponseSpreads {
            to_running: self.to_running.spread(),
            to_end: self.to_end.spread(),
        }
    }
}
