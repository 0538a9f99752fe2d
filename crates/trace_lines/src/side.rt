//! The two traces.

ghost use Rattle.std.specs.Prelude.{◌≡◌, ◌↔◌, IsTrue};

/// One of two traces.
#[derive(Clone, Copy, PartialEq, Eq)]
pub enum Side {
    First,
    Second,
}

impl Side {
    /// Returns true if both are the same trace.
    pub(crate) fn is(self, other: Side) -> bool
        ensures { IsTrue result ↔ (self ≡ other) }
    {
        match self {
            Side::First => matches!(other, Side::First),
            Side::Second => matches!(other, Side::Second),
        }
    }
}
