//! The inputs of one partition, as they are collected in a run.

ghost use Rattle.std.specs.Prelude.{◌≡◌, ◌≤◌, ◌∷◌, [], length};
ghost use Rattle.apex_types.specs.Limits.{MOST_DEVICE_LINES};
ghost use Rattle.module.specs.Collecting.{AreCollected};

use crate::inputs_fault::InputsFault;
use apex_types::Ticks;
use apex_types::limits::MOST_DEVICE_LINES;
use isolation::{Input, InputLine};
use std::alloc::Global;

/// The most lines of a replay text.
const MOST_INPUTS: usize = MOST_DEVICE_LINES as usize;

/// The inputs of one partition so far, in their order.
#[derive(Drop)]
pub struct Collected {
    pub lines: Vec<InputLine>,
    ghost few: { length lines.items ≤ MOST_DEVICE_LINES },
}

impl Collected {
    /// No inputs so far.
    pub fn new(alloc: Global) -> Collected
        ensures { result.lines.items ≡ [] }
    {
        Collected {
            lines: Vec::new(alloc),
        }
    }

    /// Adds an input of this tick.
    #[tactic(auto, using(crate::proofs::Collecting::collecting))]
    pub fn push(&mut self, now: Ticks, input: Input) -> Result<(), InputsFault>
        ensures { AreCollected now.0 (input ∷ []) self.old.lines.items self.new.lines.items result }
    {
        if self.lines.len() >= MOST_INPUTS {
            return Err(InputsFault::TooMany);
        }
        self.lines.push(InputLine { tick: now, input })?;
        Ok(())
    }
}
