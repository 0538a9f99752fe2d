//! Running an image: its partitions in their windows, tick by tick, and the text of their trace.

ghost use Rattle.std.specs.Prelude.{◌≡◌, ◌≢◌, ◌≤◌, ◌<◌, ◌+◌, ◌-◌, ◌^◌, Ok, map, IfOk, IfErr, OnOk, IsErrOf};
ghost use Rattle.std.specs.Io.KnownBytes.{Keeps};
ghost use Rattle.apex_types.specs.Limits.{MOST_TICKS};
ghost use Rattle.machine_meaning.specs.MachineMeaning.{verdict_for};
ghost use Rattle.machine_meaning.specs.ImageReading.{image_at};
ghost use Rattle.machine_meaning.specs.MachineMeaning.{machine_trace};
ghost use Rattle.image.specs.Views.{image_of};
ghost use Rattle.module.specs.Isolated.{IsIsolated};
ghost use Rattle.module.specs.SourcesIsolated.{IsSourceIsolated};
ghost use Rattle.module.specs.Machines.{fresh_machine, machine_of};
ghost use Rattle.module.specs.Promises.{Means};
ghost use Rattle.module.specs.Runs.{Runs};
ghost use Rattle.module.specs.Running.{RunsImage};
ghost use Rattle.module.specs.Watched.{IsToldAll, IsToldMade, IsToldRun, IsToldWhole};
ghost use Rattle.module.specs.Written.{AreFrom};

use crate::building::build;
use crate::fault::{BuildAndRunFault, RunFault};
use crate::machine::Machine;
use crate::ticks::split_tick;
use crate::watch::{MOST_UNTOLD, Unwatched, Watch, pause};
use apex_types::limits::MOST_TICKS;
use apex_types::{DeviceLine, Sink};
use image::load_image;
use std::alloc::Global;

/// Runs the image for `ticks` ticks with the device text, and writes the text of its trace into the
/// sink. After [`RunFault::Write`] the sink has failed once and has taken a prefix of that text;
/// every other refusal comes before the sink is asked to take anything.
///
/// What the trace shows of a partition is what [`replay`](crate::replay) writes for the inputs of
/// this run: its trace without the other partitions, whatever code they run.
///
/// # Errors
///
/// In this order: more ticks than 2^40; bytes that are no image; the lowest rule that the first
/// wrong line of the device text breaks. Out of memory may come before a later one is reached.
pub fn run<S: Sink>(
    alloc: Global,
    image: &[u8],
    devices: &[u8],
    ticks: u64,
    sink: &mut S,
) -> Result<(), RunFault>
    requires { S.failures sink.old < 2 ^ 64 - 1 }
    ensures trace { Runs (image_at image.now) devices.now ticks (S.taken sink.old)
        (S.taken sink.new) result }
    ensures isolated { OnOk result
        (IsIsolated (image_at image.now) devices.now ticks (S.taken sink.old) (S.taken sink.new)) }
    ensures ok { OnOk result (S.failures sink.new ≡ S.failures sink.old) }
    ensures write { IsErrOf result RunFault.Write → S.failures sink.new ≡ S.failures sink.old + 1 }
    ensures quiet { IfErr result
        (λ fault. fault ≢ RunFault.Write → S.failures sink.new ≡ S.failures sink.old) }
{
    run_watched(alloc, image, devices, ticks, sink, &mut Unwatched)
}

/// Runs the image as [`run`] does, and reports to a watcher how far the run is, in rising order:
/// after at most 2^20 ticks each time, or as many as the watcher allows, once the sink has taken
/// their text, and at the end.
///
/// # Errors
///
/// Those of [`run`].
#[tactic(auto, using(crate::proofs::Watched::not_begun))]
pub fn run_watched<S: Sink, W: Watch>(
    alloc: Global,
    image: &[u8],
    devices: &[u8],
    ticks: u64,
    sink: &mut S,
    watch: &mut W,
) -> Result<(), RunFault>
    requires { S.failures sink.old < 2 ^ 64 - 1 }
    ensures trace { Runs (image_at image.now) devices.now ticks (S.taken sink.old)
        (S.taken sink.new) result }
    ensures isolated { OnOk result
        (IsIsolated (image_at image.now) devices.now ticks (S.taken sink.old) (S.taken sink.new)) }
    ensures ok { OnOk result (S.failures sink.new ≡ S.failures sink.old) }
    ensures write { IsErrOf result RunFault.Write → S.failures sink.new ≡ S.failures sink.old + 1 }
    ensures quiet { IfErr result
        (λ fault. fault ≢ RunFault.Write → S.failures sink.new ≡ S.failures sink.old) }
    ensures followed { IsToldRun (image_at image.now) devices.now ticks (S.taken sink.old)
        (S.taken sink.new) (W.told watch.old) (W.told watch.new) }
    ensures whole { OnOk result
        (IsToldWhole (image_at image.now) devices.now ticks (W.told watch.old) (W.told watch.new)) }
{
    if ticks > MOST_TICKS {
        return Err(RunFault::Ticks);
    }
    let mut machine = Machine::load(alloc, load_image(alloc, image)?)?;
    let lines = machine.devices(alloc, devices)?;
    run_ticks(&mut machine, &lines, ticks, sink, watch)
}

/// `ticks`, or the most that are made between two offers of nothing.
fn at_once(ticks: u64) -> u32
    ensures { result ≤ ticks }
{
    if ticks < u64::from(MOST_UNTOLD) {
        ticks as u32
    } else {
        MOST_UNTOLD
    }
}

/// Offers nothing to a sink, which may use the time for what it has kept back.
fn offer_nothing<S: Sink>(sink: &mut S) -> Result<(), RunFault>
    requires { S.failures sink.old < 2 ^ 64 - 1 }
    ensures kept { Keeps (S.taken sink.old) (S.taken sink.new) }
    ensures quiet { OnOk result (S.failures sink.new ≡ S.failures sink.old) }
    ensures write { IfErr result (λ fault.
        (fault ≡ RunFault.Write) × (S.failures sink.new ≡ S.failures sink.old + 1)) }
{
    match sink.put(&[]) {
        Ok(_) => Ok(()),
        Err(_) => Err(RunFault::Write),
    }
}

/// `ticks` ticks of a machine, with these lines of the devices; after a shutdown nothing happens.
fn run_ticks<S: Sink, W: Watch>(
    machine: &mut Machine,
    devices: &[DeviceLine],
    ticks: u64,
    sink: &mut S,
    watch: &mut W,
) -> Result<(), RunFault>
    requires ticks { ticks ≤ MOST_TICKS }
    requires fresh { machine_of machine.old ≡ fresh_machine (machine_of machine.old).image }
    requires order { AreFrom 0 devices.now }
    requires failures { S.failures sink.old < 2 ^ 64 - 1 }
    ensures trace { RunsImage (machine_trace (machine_of machine.old).image devices.now ticks)
        (S.taken sink.old) (S.taken sink.new) result }
    ensures ok { OnOk result (S.failures sink.new ≡ S.failures sink.old) }
    ensures write { IsErrOf result RunFault.Write → S.failures sink.new ≡ S.failures sink.old + 1 }
    ensures followed { IsToldMade (machine_of machine.old).image devices.now ticks (S.taken sink.old)
        (S.taken sink.new) (W.told watch.old) (W.told watch.new) }
    ensures whole { OnOk result (IsToldAll (machine_of machine.old).image devices.now ticks
        (W.told watch.old) (W.told watch.new)) }
{
    let mut left = ticks;
    let mut lines = devices;
    while left > 0 && !machine.is_shut_down() {
        let stop = left.saturating_sub(pause(watch));
        while left > stop && !machine.is_shut_down() {
            let count = machine.advance(lines, at_once(left - stop), sink)?;
            if count > 0 {
                left -= u64::from(count);
                continue;
            }
            let (now, later) = split_tick(lines, machine.now());
            machine.tick(now, sink)?;
            lines = later;
            left -= 1;
        }
        offer_nothing(sink)?;
        watch.reached(machine.now(), ticks);
    }
    Ok(())
}

/// Builds a module table and its sources, and runs the image for `ticks` ticks with the device
/// text. The sink gets the text of the trace that the sources mean; a prefix of it if the sink
/// fails; nothing if they are refused.
///
/// What the trace shows of a partition depends on its own source and row, on its surroundings in
/// the module table, and on its inputs, whatever the sources of the others are.
pub fn build_and_run<S: Sink>(
    alloc: Global,
    table: &[u8],
    sources: &[&[u8]],
    devices: &[u8],
    ticks: u64,
    sink: &mut S,
) -> Result<(), BuildAndRunFault>
    requires { S.failures sink.old < 2 ^ 64 - 1 }
    ensures trace { Means table.now (map (λ s. s.now) sources.now) devices.now ticks
        (S.taken sink.old) (S.taken sink.new) result }
    ensures isolated { OnOk result
        (IsSourceIsolated table.now (map (λ s. s.now) sources.now) devices.now ticks
        (S.taken sink.old) (S.taken sink.new)) }
    ensures ok { OnOk result (S.failures sink.new ≡ S.failures sink.old) }
    ensures write { IsErrOf result (BuildAndRunFault.Run RunFault.Write)
        → S.failures sink.new ≡ S.failures sink.old + 1 }
    ensures quiet { IfErr result
        (λ fault.
        fault ≢ BuildAndRunFault.Run RunFault.Write → S.failures sink.new ≡ S.failures sink.old) }
{
    let image = match build(alloc, table, sources) {
        Ok(image) => image,
        Err(fault) => return Err(BuildAndRunFault::Build(fault)),
    };
    match run(alloc, image.as_slice(), devices, ticks, sink) {
        Ok(()) => Ok(()),
        Err(fault) => Err(BuildAndRunFault::Run(fault)),
    }
}
