//! Watchers of a run.

ghost use Rattle.std.specs.Prelude.{◌≡◌, ◌<◌, ◌≤◌, ◌^◌, [], ◌∷◌, None};
ghost use Rattle.module.specs.Watched.{Hears, Told};

/// The most ticks that are made between two offers of nothing.
pub const MOST_UNTOLD: u32 = 1 << 20;

/// Gets reports on how far a run is. Nothing of the run depends on it.
pub trait Watch {
    /// The reports so far, if the watcher makes them known.
    ghost told: { Self → Told } = { λ _. None };

    /// From now on reports are wanted.
    fn begin(&mut self)
        ensures { told self.new ≡ told self.old };

    /// `made` of the run's `ticks` ticks have run: called at least once in 2^20 ticks in which
    /// something happens, each time with more.
    fn reached(&mut self, made: u64, ticks: u64)
        ensures { Hears (told self.old) (told self.new) ((made, ticks) ∷ []) };

    /// How many ticks may run until the next report; no number is too small or too great.
    fn pause(&self) -> u32;
}

/// The ticks until the next report: as many as the watcher allows, at least one.
pub fn pause<W: Watch>(watch: &W) -> u64
    ensures some { 0 < result }
    ensures few { result ≤ 2 ^ 20 }
{
    u64::from(watch.pause().min(MOST_UNTOLD)).max(1)
}

/// Watches nothing.
#[derive(Clone, Copy)]
pub struct Unwatched;

impl Watch for Unwatched {
    fn begin(&mut self) {}

    fn reached(&mut self, _made: u64, _ticks: u64) {}

    fn pause(&self) -> u32 {
        u32::MAX
    }
}
