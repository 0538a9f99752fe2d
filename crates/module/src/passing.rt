//! Ticks of a machine whose lines nobody wants.

ghost use Rattle.std.specs.Prelude.{◌≡◌, ◌≤◌, ◌<◌, ◌+◌, ◌-◌, ◌^◌, false, OnOk, IfErr};
ghost use Rattle.apex_types.specs.Limits.{MOST_TICKS};
ghost use Rattle.machine_meaning.specs.MachineMeaning.{machine_module};
ghost use Rattle.module_meaning.specs.Standing.{elapse};
ghost use Rattle.module.specs.Machines.{machine_of};
ghost use Rattle.module.specs.Written.{AreFrom};

use crate::fault::RunFault;
use crate::machine::Machine;
use crate::ticks::split_tick;
use crate::watching::Forgetful;
use apex_types::DeviceLine;
use lone_partition::at_most;

/// The most ticks that are made at once. Before a burst the windows are looked through in which its
/// partition stays the owner, as far as this.
pub(crate) const MOST_AT_ONCE: u32 = 1 << 20;

impl Machine {
    /// Makes so many ticks, with these lines of the devices, and keeps none of the lines of the trace.
    pub(crate) fn pass_over(&mut self, devices: &[DeviceLine], ticks: u64) -> Result<(), RunFault>
        requires sound { (machine_of self.old).failed ≡ false }
        requires order { AreFrom (machine_of self.old).standing.now devices.now }
        requires ticks { (machine_of self.old).standing.now + ticks ≤ MOST_TICKS }
        ensures image { OnOk result ((machine_of self.new).image ≡ (machine_of self.old).image) }
        ensures state { OnOk result
            ((machine_of self.new).standing
            ≡ (elapse (machine_module (machine_of self.old).image).plan devices.now ticks
            (machine_of self.old).standing).state) }
        ensures sound { OnOk result ((machine_of self.new).failed ≡ false) }
        ensures made { IfErr result (λ fault. ⊥) }
    {
        let mut nowhere = Forgetful;
        let mut left = ticks;
        let mut lines = devices;
        while left > 0 {
            let Some(_) = self.module.origin else {
                self.module.stay_down(left);
                return Ok(());
            };
            let count = self.advance(lines, at_most(left, MOST_AT_ONCE), &mut nowhere)?;
            if count > 0 {
                left -= u64::from(count);
                continue;
            }
            let (now, later) = split_tick(lines, self.now());
            self.tick(now, &mut nowhere)?;
            lines = later;
            left -= 1;
        }
        Ok(())
    }
}
