//! The first state of a module in which a row has some words.

ghost use Rattle.std.specs.Prelude.{◌≡◌, ◌≢◌, ◌≤◌, ◌<◌, ◌+◌, ◌-◌, ◌^◌, ◌++◌, map, false, IfErr, IfOk, OnOk, IsErrOf};
ghost use Rattle.apex_types.specs.Limits.{MOST_TICKS};
ghost use Rattle.state_rows.specs.Rows.{rows_in};
ghost use Rattle.state_rows.specs.declared.row.Form.TheVariants.{Text};
ghost use Rattle.module.specs.Machines.{fresh_machine, machine_of};
ghost use Rattle.module.specs.States.{First, watched_of};
ghost use Rattle.module.specs.Stating.{IsBefore, IsFirst, IsShown, number_in, watches};
ghost use Rattle.module.specs.Written.{AreFrom};

use crate::asked::has_row;
use crate::fault::RunFault;
use crate::machine::Machine;
use crate::passing::MOST_AT_ONCE;
use crate::stating::{Shown, put_state};
use crate::ticks::from_tick;
use apex_types::{DeviceLine, PartitionId, Sink, Ticks};
use lone_partition::{at_most, until_line};
use state_rows::Form;
use std::alloc::AllocError;

/// How many ticks are made at most until a row of a partition begins with these words.
#[derive(Clone, Copy)]
pub struct Wait<'a> {
    pub ticks: u64,
    pub words: &'a [&'a str],
}

/// Writes the first state of a machine in which a row begins with some words, with these lines of the
/// devices. Returns whether there is one.
pub fn put_first<S: Sink>(
    machine: &mut Machine,
    devices: &[DeviceLine],
    wait: Wait<'_>,
    shown: Shown,
    text: &mut Vec<u8>,
    sink: &mut S,
) -> Result<bool, RunFault>
    requires few { wait.ticks ≤ MOST_TICKS }
    requires fresh { machine_of machine.old ≡ fresh_machine (machine_of machine.old).image }
    requires order { AreFrom 0 devices.now }
    requires failures { S.failures sink.old < 2 ^ 64 - 1 }
    ensures text { IsShown (First (map (λ a. a.now) wait.entry.words.now)) shown.form
        (number_in shown.only) (machine_of machine.old).image devices.now
        wait.entry.ticks (S.taken sink.old) (S.taken sink.new) result }
    ensures ok { OnOk result (S.failures sink.new ≡ S.failures sink.old) }
    ensures write { IsErrOf result RunFault.Write → S.failures sink.new ≡ S.failures sink.old + 1 }
    ensures quiet { IfErr result
        (λ fault. fault ≢ RunFault.Write → S.failures sink.new ≡ S.failures sink.old) }
{
    if !pass_to_first(machine, devices, wait, shown.only, text)? {
        return Ok(false);
    }
    put_state(machine, shown, text, sink)?;
    Ok(true)
}

/// Makes the ticks of a machine before its first state in which a row begins with some words, with
/// these lines of the devices. Returns whether there is one. Where nothing happens, and after a
/// shutdown, the rows of the partitions stay.
fn pass_to_first(
    machine: &mut Machine,
    devices: &[DeviceLine],
    wait: Wait<'_>,
    only: Option<PartitionId>,
    text: &mut Vec<u8>,
) -> Result<bool, RunFault>
    requires few { wait.ticks ≤ MOST_TICKS }
    requires fresh { machine_of machine.old ≡ fresh_machine (machine_of machine.old).image }
    requires order { AreFrom 0 devices.now }
    ensures image { OnOk result ((machine_of machine.new).image ≡ (machine_of machine.old).image) }
    ensures before { OnOk result (IsBefore (machine_of machine.old).image devices.now
        (machine_of machine.new)) }
    ensures first { IfOk result
        (λ found. IsFirst (map (λ a. a.now) wait.entry.words.now) (number_in only)
        (machine_of machine.old).image devices.now wait.entry.ticks
        (machine_of machine.new).standing.now found) }
    ensures memory { IfErr result (λ fault. fault ≡ RunFault.Memory) }
{
    let mut left = wait.ticks;
    let mut lines = devices;
    let mut found = machine.watches(wait.words, only, text)?;
    while left > 0 && !found && !machine.is_shut_down() {
        let quiet = until_line(lines, Ticks(machine.now()), at_most(left, MOST_AT_ONCE));
        let count = machine.skip(quiet);
        if count > 0 {
            left -= u64::from(count);
            continue;
        }
        machine.pass_over(lines, 1)?;
        lines = from_tick(lines, machine.now());
        found = machine.watches(wait.words, only, text)?;
        left -= 1;
    }
    Ok(found)
}

impl Machine {
    /// Whether a row of a partition, or of only the one with a number, begins with these words in the
    /// state that the module has now. The text of the rows is made in `text`.
    fn watches(
        &self,
        words: &[&str],
        only: Option<PartitionId>,
        text: &mut Vec<u8>,
    ) -> Result<bool, AllocError>
        ensures { IfOk result
            (λ found. found
            ≡ watches (map (λ a. a.now) words.now) (number_in only) (machine_of self.now).image
            (machine_of self.now).standing) }
    {
        text.clear();
        self.write_watched(words, only, text)?;
        Ok(has_row(words, text.as_slice()))
    }

    /// Appends the rows that are looked at for one with these words: of all partitions, or of only the
    /// one with a number.
    fn write_watched(
        &self,
        words: &[&str],
        only: Option<PartitionId>,
        text: &mut Vec<u8>,
    ) -> Result<(), AllocError>
        ensures { OnOk result
            (text.new.items
            ≡ text.old.items
            ++ rows_in Text
            (watched_of (map (λ a. a.now) words.now) (number_in only) (machine_of self.now).image
            (machine_of self.now).standing)) }
    {
        let module = &self.module;
        let items = module.image.partitions.as_slice();
        match only {
            None => module.members.write_all(Form::Text, words, items, text),
            Some(number) => module
                .members
                .write_one(Form::Text, words, items, number, text),
        }
    }
}
