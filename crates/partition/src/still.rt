//! A partition in which nothing happens.

ghost use Rattle.std.specs.Prelude.{◌≡◌, ◌≤◌, ◌<◌, ◌+◌, ℕ, true};
ghost use Rattle.apex_types.specs.declared.identity.PortId.{PortId};
ghost use Rattle.apex_types.specs.Limits.{MOST_OBJECTS};
ghost use Rattle.kernel_meaning.specs.PortServices as arrival;
ghost use Rattle.kernel_meaning.specs.Kernel.{with_ports};
ghost use Rattle.kernel_meaning.specs.Step.{nothing};
ghost use Rattle.kernel_laws.specs.Quiet.{IsAtRest, IsStill};

use crate::kernel::Kernel;
use apex_types::{ListKey, Moment};

impl Kernel {
    /// Whether no process waits at the port at `place`.
    #[tactic(auto, using(crate::proofs::AtRest::nobody_enters))]
    fn nobody_waits(&self, place: u8) -> bool
        requires { place < MOST_OBJECTS }
        ensures { result ≡ true
            → arrival.admits (with_ports self.now) place ≡ nothing (with_ports self.now) }
    {
        self.processes.waiting_count(ListKey::Port(place)) == 0
    }

    /// Whether no message of the port at `place` can move, and no process that waits at it can
    /// enter.
    fn port_rests(&self, place: u8) -> bool
        requires { place < MOST_OBJECTS }
        ensures { result ≡ true → IsAtRest self.now (record { 0 = place + 1 }) }
    {
        match self.ports.is_source(place) {
            Some(true) => self.ports.message_count(place) == Some(0) && self.nobody_waits(place),
            _ => true,
        }
    }

    /// Whether [`Kernel::port_rests`] is true for all ports.
    fn ports_rest(&self) -> bool
        ensures { result ≡ true → (port : PortId) → IsAtRest self.now port }
    {
        for place in 0..self.ports.count() {
            if !self.port_rests(place) {
                return false;
            }
        }
        true
    }

    /// How many of `k` ticks, from `moment` on, pass in which nothing happens in the partition: no
    /// process runs or is chosen, nothing is due, no message can leave a port, and no process that
    /// waits at a port can enter it. 0 if something may happen at this tick.
    pub fn still_ticks(&self, moment: Moment, k: u32) -> u32
        ensures within { result ≤ k }
        ensures still { 0 < result
            → IsStill moment.at.origin.0 moment.at.now.0 (moment.at.now.0 + result) self.now }
    {
        if self.running().is_some() {
            return 0;
        }
        if !self.ports_rest() || !self.choice_stays() {
            return 0;
        }
        self.quiet_ticks(moment, k)
    }
}
