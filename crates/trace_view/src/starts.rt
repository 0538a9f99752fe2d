//! The starts of a partition.

ghost use Rattle.std.specs.Prelude.{◌≡◌};

use crate::conditions::Conditions;
use apex_types::{Mode, StartCondition};

/// How often a partition has started, by the mode of the start and by its condition.
#[derive(Clone, Copy)]
pub struct Starts {
    pub cold: u64,
    pub warm: u64,
    pub conditions: Conditions,
}

impl Starts {
    ghost use Rattle.trace_view.specs.Starts.{with_start};

    /// No starts.
    pub fn new() -> Starts
        ensures { result
            ≡ record {
              cold = 0;
              warm = 0;
              conditions =
                  record {
                    normal_start = 0;
                    partition_restart = 0;
                    hm_module_restart = 0;
                    hm_partition_restart = 0;
                  };
            } }
    {
        Starts {
            cold: 0,
            warm: 0,
            conditions: Conditions::new(),
        }
    }

    /// Counts a line that says that the partition enters this mode, with the condition that the
    /// lines before it show. NORMAL and IDLE are no starts.
    pub fn count(&mut self, mode: Mode, told: Option<StartCondition>)
        ensures { self.new ≡ with_start told mode self.old }
    {
        match mode {
            Mode::ColdStart => {
                self.cold = self.cold.saturating_add(1);
                self.conditions.count(told);
            }
            Mode::WarmStart => {
                self.warm = self.warm.saturating_add(1);
                self.conditions.count(told);
            }
            Mode::Normal | Mode::Idle => {}
        }
    }
}
