//! The states of a module before ticks at equal distances.

ghost use Rattle.std.specs.Prelude.{◌≡◌, ◌≢◌, ◌≤◌, ◌<◌, ◌+◌, ◌*◌, ◌/◌, ◌-◌, ◌^◌, suc, IfErr, OnOk, IsErrOf};
ghost use Rattle.apex_types.specs.Limits.{MOST_TICKS};
ghost use Rattle.module.specs.Machines.{fresh_machine, machine_of};
ghost use Rattle.module.specs.States as meant;
ghost use Rattle.module.specs.States.{Every};
ghost use Rattle.module.specs.Stating.{IsShown, number_in, texts_before, AreParted};
ghost use Rattle.module.specs.Written.{AreFrom};

use crate::fault::RunFault;
use crate::machine::Machine;
use crate::stating::{Shown, put_state};
use crate::ticks::from_tick;
use apex_types::{DeviceLine, Sink};

/// The ticks 0, `every`, 2 `every` and so on, up to `ticks`.
#[derive(Clone, Copy)]
pub struct Series {
    pub ticks: u64,
    pub every: u64,
}

/// Writes the states of a machine before these ticks, with these lines of the devices.
pub fn put_series<S: Sink>(
    machine: &mut Machine,
    devices: &[DeviceLine],
    series: Series,
    shown: Shown,
    text: &mut Vec<u8>,
    sink: &mut S,
) -> Result<bool, RunFault>
    requires few { series.ticks ≤ MOST_TICKS }
    requires fresh { machine_of machine.old ≡ fresh_machine (machine_of machine.old).image }
    requires order { AreFrom 0 devices.now }
    requires failures { S.failures sink.old < 2 ^ 64 - 1 }
    ensures text { IsShown (Every series.every) shown.form
        (number_in shown.only) (machine_of machine.old).image devices.now
        series.ticks (S.taken sink.old) (S.taken sink.new) result }
    ensures ok { OnOk result (S.failures sink.new ≡ S.failures sink.old) }
    ensures write { IsErrOf result RunFault.Write → S.failures sink.new ≡ S.failures sink.old + 1 }
    ensures quiet { IfErr result
        (λ fault. fault ≢ RunFault.Write → S.failures sink.new ≡ S.failures sink.old) }
{
    let spaced = Spaced {
        every: series.every,
        more: count_after(series),
    };
    put_spaced(machine, devices, spaced, shown, text, sink)
}

/// How many ticks there are after tick 0.
fn count_after(series: Series) -> u64
    ensures count { result ≡ series.ticks / series.every }
    ensures few { result * series.every ≤ series.ticks }
{
    if series.every == 0 {
        return 0;
    }
    series.ticks / series.every
}

/// Tick 0, and so many more, each so many ticks after the one before.
#[derive(Clone, Copy)]
struct Spaced {
    every: u64,
    more: u64,
}

/// Writes the states of a machine before these ticks, with these lines of the devices.
fn put_spaced<S: Sink>(
    machine: &mut Machine,
    devices: &[DeviceLine],
    spaced: Spaced,
    shown: Shown,
    text: &mut Vec<u8>,
    sink: &mut S,
) -> Result<bool, RunFault>
    requires few { spaced.more * spaced.every ≤ MOST_TICKS }
    requires fresh { machine_of machine.old ≡ fresh_machine (machine_of machine.old).image }
    requires order { AreFrom 0 devices.now }
    requires failures { S.failures sink.old < 2 ^ 64 - 1 }
    ensures text { AreParted
        (texts_before shown.form (number_in shown.only)
        (machine_of machine.old).image devices.now (meant.spaced spaced.every 0 (suc spaced.more))) (S.taken sink.old)
        (S.taken sink.new) result }
    ensures ok { OnOk result (S.failures sink.new ≡ S.failures sink.old) }
    ensures write { IsErrOf result RunFault.Write → S.failures sink.new ≡ S.failures sink.old + 1 }
    ensures quiet { IfErr result
        (λ fault. fault ≢ RunFault.Write → S.failures sink.new ≡ S.failures sink.old) }
{
    put_state(machine, shown, text, sink)?;
    let mut left = spaced.more;
    let mut lines = devices;
    while left > 0 {
        machine.pass_over(lines, spaced.every)?;
        lines = from_tick(lines, machine.now());
        put_state(machine, shown, text, sink)?;
        left -= 1;
    }
    Ok(true)
}
