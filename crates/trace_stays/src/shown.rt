//! The ticks of a trace that are shown.

ghost use Rattle.std.specs.Prelude.{◌≡◌, ◌≤◌};
ghost use Rattle.trace_stays.specs.Shown.{between, end_of, is_before_end, open_ticks, shown_from, shown_ticks, with_read};

use crate::span::Span;
use apex_types::Ticks;

/// The ticks of a trace that are shown, while its lines are read.
#[derive(Clone, Copy)]
pub struct ShownTicks {
    from: Ticks,
    /// The tick before which they end; without it they end after the last line.
    to: Option<Ticks>,
    /// The tick after the last line's, and `from` at the least.
    behind: Ticks,
}

impl ShownTicks {
    /// The ticks from one on and before the other; without that, up to the tick of the last line.
    pub fn new(from: Ticks, to: Option<Ticks>) -> ShownTicks
        ensures { result ≡ shown_from from to }
    {
        ShownTicks {
            from,
            to,
            behind: from,
        }
    }

    /// A line of this tick is read. Returns true if it is before the end of the ticks; otherwise
    /// nothing changes.
    pub fn read(&mut self, tick: Ticks) -> bool
        ensures before { result ≡ is_before_end self.old.to tick.0 }
        ensures read { self.new ≡ with_read tick.0 self.old }
    {
        let is_before_end = match self.to {
            Some(to) => tick.0 < to.0,
            None => true,
        };
        if is_before_end {
            self.behind = Ticks(self.behind.0.max(tick.0.saturating_add(1)));
        }
        is_before_end
    }

    /// The ticks that are shown whatever lines follow.
    pub fn open(&self) -> Span
        ensures value { result ≡ open_ticks self.now }
        ensures in_order { result.from.0 ≤ result.until.0 }
    {
        self.before(Ticks(u64::MAX))
    }

    /// The ticks that are shown of a trace that ends here. They never end before they begin.
    pub fn span(&self) -> Span
        ensures value { result ≡ shown_ticks self.now }
        ensures in_order { result.from.0 ≤ result.until.0 }
    {
        self.before(self.behind)
    }

    /// The ticks that are shown; they end before `last` if no end is given.
    fn before(&self, last: Ticks) -> Span
        ensures { result ≡ between self.now.from (end_of self.now.to last.0) }
    {
        let until = match self.to {
            Some(to) => to,
            None => last,
        };
        Span {
            from: self.from,
            until: Ticks(self.from.0.max(until.0)),
        }
    }
}
