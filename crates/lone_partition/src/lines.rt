//! Lines that act each in its own tick, in the order of their ticks.

ghost use Rattle.std.specs.Prelude.{◌≡◌, ◌≤◌, ◌<◌, ◌+◌, ℕ, length, drop, take};
ghost use Rattle.lone_partition.specs.Lines.{AreFrom, lines_in};

use apex_types::{DeviceLine, Ticks};
use isolation::InputLine;

/// A line that acts in one tick: a line of the devices, or an input of a partition.
pub trait HasTick {
    ghost tick_of: { Self → ℕ };

    /// The tick in which it acts.
    fn own_tick(&self) -> Ticks
        ensures { result.0 ≡ tick_of self.now };
}

impl HasTick for DeviceLine {
    ghost tick_of = { λ line. line.tick.0 };

    fn own_tick(&self) -> Ticks {
        Ticks(self.tick())
    }
}

impl HasTick for InputLine {
    ghost tick_of = { λ line. line.tick.0 };

    fn own_tick(&self) -> Ticks {
        self.tick
    }
}

/// Splits these lines, which are of `tick` or later ticks, into those of `tick` and the later ones.
pub fn split_tick<L: HasTick>(lines: &[L], tick: Ticks) -> (&[L], &[L])
    requires order { AreFrom L.tick_of tick.0 lines.now }
    ensures own { result.0.now ≡ lines_in L.tick_of tick.0 lines.now }
    ensures only { lines_in L.tick_of tick.0 result.0.now ≡ result.0.now }
    ensures later { AreFrom L.tick_of (tick.0 + 1) result.1.now }
    ensures rest { (t : ℕ) → tick.0 < t
        → lines_in L.tick_of t result.1.now ≡ lines_in L.tick_of t lines.now }
{
    lines.split_at(count_of_tick(lines, tick))
}

/// How many of these lines, which are of `tick` or later ticks, are of `tick`.
fn count_of_tick<L: HasTick>(lines: &[L], tick: Ticks) -> usize
    requires order { AreFrom L.tick_of tick.0 lines.now }
    ensures within { result ≤ length lines.now }
    ensures own { take result lines.now ≡ lines_in L.tick_of tick.0 lines.now }
    ensures later { AreFrom L.tick_of (tick.0 + 1) (drop result lines.now) }
    ensures rest { (t : ℕ) → tick.0 < t
        → lines_in L.tick_of t (drop result lines.now) ≡ lines_in L.tick_of t lines.now }
{
    let mut count = 0;
    while count < lines.len() && lines[count].own_tick() == tick {
        count += 1;
    }
    count
}

/// How many of `most` ticks, from `now` on, come before the first of these lines. The lines are of
/// the tick `now` or later.
pub fn until_line<L: HasTick>(lines: &[L], now: Ticks, most: u32) -> u32
    requires order { AreFrom L.tick_of now.0 lines.now }
    ensures within { result ≤ most }
    ensures from { AreFrom L.tick_of (now.0 + result) lines.now }
{
    match lines.first() {
        Some(line) => at_most(line.own_tick().0.saturating_sub(now.0), most),
        None => most,
    }
}

/// `ticks`, or `most` if there are more.
pub fn at_most(ticks: u64, most: u32) -> u32
    ensures within { result ≤ most }
    ensures ticks { result ≤ ticks }
    ensures some { 0 < ticks → 0 < most → 0 < result }
{
    if ticks < u64::from(most) {
        ticks as u32
    } else {
        most
    }
}
