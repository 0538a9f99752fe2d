//! Ticks that follow one another.

ghost use Rattle.std.specs.Prelude.{◌≡◌, ◌≤◌, ◌<◌, ◌↔◌, true};

use apex_types::Ticks;

/// The ticks from `from` on and before `until`; none if `until` is not later.
#[derive(Clone, Copy, PartialEq, Eq)]
pub struct Span {
    pub from: Ticks,
    pub until: Ticks,
}

impl Span {
    ghost use Rattle.trace_stays.specs.Stays.{ticks_of, common};

    /// The number of these ticks.
    pub fn ticks(self) -> u64
        ensures { result ≡ ticks_of self }
    {
        self.until.0.saturating_sub(self.from.0)
    }

    /// The ticks that are also among these others.
    pub fn within(self, other: Span) -> Span
        ensures { result ≡ common self other }
    {
        Span {
            from: Ticks(self.from.0.max(other.from.0)),
            until: Ticks(self.until.0.min(other.until.0)),
        }
    }

    /// Returns true if `tick` is one of the ticks.
    pub fn has(self, tick: Ticks) -> bool
        ensures { (result ≡ true) ↔ (self.from.0 ≤ tick.0) × (tick.0 < self.until.0) }
    {
        self.from.0 <= tick.0 && tick.0 < self.until.0
    }
}
