//! The least and the greatest of some times.

ghost use Rattle.std.specs.Prelude.{◌≡◌};

/// The least and the greatest of some numbers of ticks, one at least.
#[derive(Clone, Copy)]
pub struct Extremes {
    pub least: u64,
    pub greatest: u64,
}

impl Extremes {
    ghost use Rattle.trace_view.specs.Counting.{with_time};

    /// The least and the greatest of the numbers so far and one more.
    pub fn with(before: Option<Extremes>, ticks: u64) -> Extremes
        ensures { result ≡ with_time before ticks }
    {
        match before {
            Some(known) => Extremes {
                least: known.least.min(ticks),
                greatest: known.greatest.max(ticks),
            },
            None => Extremes {
                least: ticks,
                greatest: ticks,
            },
        }
    }
}
