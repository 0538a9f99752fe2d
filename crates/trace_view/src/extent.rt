//! The lines and ticks that were counted.

ghost use Rattle.std.specs.Prelude.{◌≡◌};
ghost use Rattle.trace_view.specs.Tallies.{has_tick};

use apex_types::Ticks;
use trace_stays::Span;

/// The lines and ticks that were counted.
#[derive(Clone, Copy)]
pub struct Extent {
    pub lines: u64,
    /// The tick of the first line that was counted.
    pub first: Option<Ticks>,
    /// The tick of the last line that was counted.
    pub last: Option<Ticks>,
    /// The ticks that the numbers are of.
    pub window: Span,
}

impl Extent {
    ghost use Rattle.trace_view.specs.Extents.{closed, opened, with_line};

    /// No lines yet. Without an end all ticks from the first on count.
    pub fn new(from: Ticks, to: Option<Ticks>) -> Extent
        ensures { result ≡ opened from to }
    {
        let until = match to {
            Some(until) => until,
            None => Ticks(u64::MAX),
        };
        Extent {
            lines: 0,
            first: None,
            last: None,
            window: Span { from, until },
        }
    }

    /// Counts a line of this tick, if the tick is in the window.
    pub fn count(&mut self, tick: Ticks)
        ensures { self.new ≡ with_line tick self.old }
    {
        if has_tick(self.window, tick) {
            self.lines = self.lines.saturating_add(1);
            self.first = match self.first {
                Some(first) => Some(first),
                None => Some(tick),
            };
            self.last = Some(tick);
        }
    }

    /// All lines are counted. A window without an end ends after the last line, or where it begins
    /// if no line is counted.
    pub fn close(&mut self, to: Option<Ticks>)
        ensures { self.new ≡ closed to self.old }
    {
        let until = match (to, self.last) {
            (Some(until), _) => until,
            (None, Some(last)) => Ticks(last.0.saturating_add(1)),
            (None, None) => self.window.from,
        };
        self.window = Span {
            from: self.window.from,
            until,
        };
    }
}

/// Returns true if the window has this tick.
pub fn has_tick(window: Span, tick: Ticks) -> bool
    ensures { result ≡ has_tick window tick.0 }
{
    window.from.0 <= tick.0 && tick.0 < window.until.0
}
