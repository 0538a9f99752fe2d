//! The numbers of ticks of a partition in each mode.

ghost use Rattle.std.specs.Prelude.{◌≡◌};

use apex_types::Mode;
use trace_stays::{ModeStay, Span};

/// The ticks of a partition in each mode.
#[derive(Clone, Copy)]
pub struct ModeTicks {
    pub normal: u64,
    pub cold_start: u64,
    pub warm_start: u64,
    pub idle: u64,
}

impl ModeTicks {
    ghost use Rattle.trace_view.specs.Counting.{with_mode_stay};

    /// No ticks in any mode.
    pub fn new() -> ModeTicks
        ensures { result ≡ record { normal = 0; cold_start = 0; warm_start = 0; idle = 0 } }
    {
        ModeTicks {
            normal: 0,
            cold_start: 0,
            warm_start: 0,
            idle: 0,
        }
    }

    /// Adds those ticks of a stay that lie in the window.
    pub fn add(&mut self, stay: ModeStay, window: Span)
        ensures { self.new ≡ with_mode_stay window stay self.old }
    {
        let ticks = stay.span.within(window).ticks();
        match stay.mode {
            Mode::Normal => self.normal = self.normal.saturating_add(ticks),
            Mode::ColdStart => self.cold_start = self.cold_start.saturating_add(ticks),
            Mode::WarmStart => self.warm_start = self.warm_start.saturating_add(ticks),
            Mode::Idle => self.idle = self.idle.saturating_add(ticks),
        }
    }
}
