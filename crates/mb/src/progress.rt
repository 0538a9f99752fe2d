//! How far a run is, once a second on standard error.

use command_line::Watch;
use std::io::Write;
use std::time::{Duration, Instant};

/// The seconds between two lines.
const APART: u64 = 1;

/// The milliseconds between two looks at the clock.
const LOOKS_APART: u64 = 100;

/// The ticks before the second look at the clock, and the most between two looks.
const FIRST_PAUSE: u32 = 1 << 8;

const LONGEST_PAUSE: u32 = 1 << 16;

/// Reports how far a run is, if that is wanted.
#[derive(Drop)]
pub struct Progress<'a> {
    runtime: &'a HostRuntime,
    /// The time of the last line, or of the begin; none if no line is wanted.
    told: Option<Instant>,
    /// The time of the last look at the clock.
    looked: Option<Instant>,
    /// How many ticks may run until the next look.
    pause: u32,
}

impl<'a> Progress<'a> {
    /// No line is wanted yet.
    pub fn new(runtime: &'a HostRuntime) -> Self {
        Progress {
            runtime,
            told: None,
            looked: None,
            pause: FIRST_PAUSE,
        }
    }

    /// Chooses how many ticks may run until the next look, by how long the last ones took.
    fn look(&mut self, now: Instant) {
        if let Some(looked) = self.looked {
            self.pause = next_pause(self.pause, now.duration_since(looked));
        }
        self.looked = Some(now);
    }
}

/// How many ticks may run until the next look, where this many took so long.
fn next_pause(pause: u32, took: Duration) -> u32 {
    if took < Duration::from_millis(LOOKS_APART / 2) {
        pause.saturating_mul(2).min(LONGEST_PAUSE)
    } else if took < Duration::from_millis(LOOKS_APART) {
        pause
    } else if took < Duration::from_secs(APART) {
        (pause / 2).max(1)
    } else {
        (pause / 32).max(1)
    }
}

/// The share in tenths of a percent, rounded down.
fn tenths(made: u64, ticks: u64) -> u64 {
    made.saturating_mul(1000).checked_div(ticks).unwrap_or(1000)
}

impl<'a> Watch for Progress<'a> {
    fn begin(&mut self) {
        self.told = Instant::now(self.runtime).ok();
    }

    fn reached(&mut self, made: u64, ticks: u64) {
        let (Some(told), Ok(now)) = (self.told, Instant::now(self.runtime)) else {
            return;
        };
        self.look(now);
        if now.duration_since(told) < Duration::from_secs(APART) {
            return;
        }
        self.told = Some(now);
        let tenths = tenths(made, ticks);
        // If standard error does not take it, the run goes on without.
        let _ = writeln!(
            self.runtime.stderr(),
            "tick {made}, {}.{} %",
            tenths / 10,
            tenths % 10
        );
    }

    fn pause(&self) -> u32 {
        match self.told {
            Some(_) => self.pause,
            None => u32::MAX,
        }
    }
}
