//! The time axis.

ghost use Rattle.std.specs.Prelude.{◌≡◌, ◌+◌, ◌<◌, ◌≤◌, ◌/◌, IfSome};
ghost use Rattle.trace_stays.specs.Stays.{ticks_of};
ghost use Rattle.trace_picture.specs.Axis.{place};

use crate::length::Length;
use apex_types::Ticks;
use trace_stays::Span;

/// The place where the axis begins, in tenths of a pixel from the left.
pub const LEFT: u64 = 1_500;

/// The room after the axis, in tenths of a pixel.
const RIGHT: u64 = 300;

/// The length of the axis of a picture of the usual width, in tenths of a pixel.
pub const LONG: u32 = 10_200;

/// The most marks with numbers.
const MOST_MARKS: u64 = 10;

/// The powers of ten that marks are apart, with 2 and 5 times these.
static POWERS: [u64; 19] = [
    1,
    10,
    100,
    1_000,
    10_000,
    100_000,
    1_000_000,
    10_000_000,
    100_000_000,
    1_000_000_000,
    10_000_000_000,
    100_000_000_000,
    1_000_000_000_000,
    10_000_000_000_000,
    100_000_000_000_000,
    1_000_000_000_000_000,
    10_000_000_000_000_000,
    100_000_000_000_000_000,
    1_000_000_000_000_000_000,
];

/// The ticks of a picture, from the left to the right.
#[derive(Clone, Copy)]
pub struct Axis {
    pub span: Span,
    /// The length of the axis, in tenths of a pixel.
    pub long: u32,
}

impl Axis {
    /// The place where a tick begins. A tick before the first is at the left end, and a tick after
    /// the last at the right end.
    pub fn place(self, tick: Ticks) -> Length
        ensures { result.0 ≡ place self tick.0 }
    {
        let passed = tick
            .0
            .min(self.span.until.0)
            .saturating_sub(self.span.from.0);
        let all = u128::from(self.span.ticks().max(1));
        Length(LEFT + (u128::from(passed) * u128::from(self.long) / all) as u64)
    }

    /// The place where the axis ends.
    pub fn end(self) -> Length
        ensures { result.0 ≡ 1500 + self.long }
    {
        Length(LEFT + u64::from(self.long))
    }

    /// The width of a picture with this axis.
    pub fn wide(self) -> Length
        ensures { result.0 ≡ 1800 + self.long }
    {
        Length(LEFT + u64::from(self.long) + RIGHT)
    }

    /// The number of ticks between two marks: 1, 2 or 5 times a power of ten, the smallest that
    /// gives few marks.
    pub fn step(self) -> u64
        ensures some { 0 < result }
        ensures few { ticks_of self.span / result ≤ 10 }
    {
        let ticks = self.span.ticks();
        for power in &POWERS {
            if let Some(step) = step_with(ticks, *power) {
                return step;
            }
        }
        5_000_000_000_000_000_000
    }
}

/// 1, 2 or 5 times this power, the smallest that gives few marks.
fn step_with(ticks: u64, power: u64) -> Option<u64>
    requires some { 0 < power }
    requires small { power ≤ 1000000000000000000 }
    ensures { IfSome result (λ step. (0 < step) × (ticks / step ≤ 10)) }
{
    if ticks / power <= MOST_MARKS {
        Some(power)
    } else if ticks / (2 * power) <= MOST_MARKS {
        Some(2 * power)
    } else if ticks / (5 * power) <= MOST_MARKS {
        Some(5 * power)
    } else {
        None
    }
}
