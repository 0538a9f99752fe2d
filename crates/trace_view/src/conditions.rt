//! The starts of a partition by their conditions.

ghost use Rattle.std.specs.Prelude.{◌≡◌};

use apex_types::StartCondition;

/// How often a partition has started, by the condition of the start.
#[derive(Clone, Copy)]
pub struct Conditions {
    pub normal_start: u64,
    pub partition_restart: u64,
    pub hm_module_restart: u64,
    pub hm_partition_restart: u64,
}

impl Conditions {
    ghost use Rattle.trace_view.specs.Starts.{with_condition};

    /// No starts.
    pub fn new() -> Conditions
        ensures { result
            ≡ record {
              normal_start = 0;
              partition_restart = 0;
              hm_module_restart = 0;
              hm_partition_restart = 0;
            } }
    {
        Conditions {
            normal_start: 0,
            partition_restart: 0,
            hm_module_restart: 0,
            hm_partition_restart: 0,
        }
    }

    /// Counts a start with this condition. A start that no line explains counts in none.
    pub fn count(&mut self, told: Option<StartCondition>)
        ensures { self.new ≡ with_condition told self.old }
    {
        match told {
            Some(StartCondition::NormalStart) => {
                self.normal_start = self.normal_start.saturating_add(1);
            }
            Some(StartCondition::PartitionRestart) => {
                self.partition_restart = self.partition_restart.saturating_add(1);
            }
            Some(StartCondition::HmModuleRestart) => {
                self.hm_module_restart = self.hm_module_restart.saturating_add(1);
            }
            Some(StartCondition::HmPartitionRestart) => {
                self.hm_partition_restart = self.hm_partition_restart.saturating_add(1);
            }
            None => {}
        }
    }
}
