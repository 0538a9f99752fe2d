//! A run that waits for a line.

ghost use Rattle.std.specs.Prelude.{◌≡◌, ◌≢◌, ◌≤◌, ◌<◌, ◌+◌, ◌-◌, ◌^◌, map, IfErr, OnOk, IsErrOf};
ghost use Rattle.apex_types.specs.Limits.{MOST_TICKS};
ghost use Rattle.machine_meaning.specs.ImageReading.{image_at};
ghost use Rattle.module.specs.Machines.{fresh_machine, machine_of};
ghost use Rattle.module.specs.Watched.{IsToldMade, IsToldRun};
ghost use Rattle.module.specs.Written.{AreFrom};
ghost use Rattle.command_line.specs.Stops.{EndsImage, RunsUntil};

use crate::stopping::stepping::{MOST_UNTOLD, hand_on, tell, tick_held, until_line};
use crate::stopping::words::has_line;
use apex_types::limits::MOST_TICKS;
use apex_types::{DeviceLine, Sink, WriterSink};
use image::load_image;
use module::{Machine, RunFault, Watch};
use std::alloc::Global;

/// How long a run waits for a line, and for which.
#[derive(Clone, Copy)]
pub struct Wait<'a> {
    /// The most ticks that it runs.
    pub ticks: u64,
    /// The words of the line after its tick; `_` matches any word.
    pub words: &'a [&'a str],
}

/// Runs the image with the device text, up to the end of the first tick with a line that it waits
/// for. Returns whether such a line came. Writes the text of the ticks that are run into the sink,
/// and reports to a watcher how far the run is, in rising order and once the sink has taken the text
/// of these ticks.
///
/// # Errors
///
/// Those of [`run`](module::run). After [`RunFault::Write`] the sink has failed once. After it, and
/// after [`RunFault::Memory`], the sink has taken a beginning of the text.
#[tactic(auto, using(module::proofs::Watched::not_begun))]
pub fn run_until<S: Sink, W: Watch>(
    alloc: Global,
    image: &[u8],
    devices: &[u8],
    wait: Wait<'_>,
    sink: &mut S,
    watch: &mut W,
) -> Result<bool, RunFault>
    requires { S.failures sink.old < 2 ^ 64 - 1 }
    ensures trace { RunsUntil (image_at image.now) devices.now
        (map (λ a. a.now) wait.entry.words.now) wait.entry.ticks (S.taken sink.old)
        (S.taken sink.new) result }
    ensures ok { OnOk result (S.failures sink.new ≡ S.failures sink.old) }
    ensures write { IsErrOf result RunFault.Write → S.failures sink.new ≡ S.failures sink.old + 1 }
    ensures quiet { IfErr result
        (λ fault. fault ≢ RunFault.Write → S.failures sink.new ≡ S.failures sink.old) }
    ensures followed { IsToldRun (image_at image.now) devices.now wait.entry.ticks
        (S.taken sink.old) (S.taken sink.new) (W.told watch.old) (W.told watch.new) }
{
    if wait.ticks > MOST_TICKS {
        return Err(RunFault::Ticks);
    }
    let mut machine = Machine::load(alloc, load_image(alloc, image)?)?;
    let lines = machine.devices(alloc, devices)?;
    ticks_until(alloc, &mut machine, &lines, wait, sink, watch)
}

/// `ticks`, or the most that are skipped between two offers of nothing.
fn at_once(ticks: u64) -> u32
    ensures { result ≤ ticks }
{
    ticks.min(MOST_UNTOLD) as u32
}

/// The ticks of a machine, with these lines of the devices, up to the first with a line that is
/// asked for; after a shutdown nothing happens.
fn ticks_until<S: Sink, W: Watch>(
    alloc: Global,
    machine: &mut Machine,
    devices: &[DeviceLine],
    wait: Wait<'_>,
    sink: &mut S,
    watch: &mut W,
) -> Result<bool, RunFault>
    requires ticks { wait.ticks ≤ MOST_TICKS }
    requires fresh { machine_of machine.old ≡ fresh_machine (machine_of machine.old).image }
    requires order { AreFrom 0 devices.now }
    requires failures { S.failures sink.old < 2 ^ 64 - 1 }
    ensures trace { EndsImage (map (λ a. a.now) wait.entry.words.now)
        (machine_of machine.old).image devices.now wait.entry.ticks (S.taken sink.old)
        (S.taken sink.new) result }
    ensures ok { OnOk result (S.failures sink.new ≡ S.failures sink.old) }
    ensures write { IsErrOf result RunFault.Write → S.failures sink.new ≡ S.failures sink.old + 1 }
    ensures quiet { IfErr result
        (λ fault. fault ≢ RunFault.Write → S.failures sink.new ≡ S.failures sink.old) }
    ensures followed { IsToldMade (machine_of machine.old).image devices.now wait.entry.ticks
        (S.taken sink.old) (S.taken sink.new) (W.told watch.old) (W.told watch.new) }
{
    let mut left = wait.ticks;
    let mut lines = devices;
    let mut told = 0;
    let mut held = WriterSink::new(Vec::new(alloc));
    while left > 0 && !machine.is_shut_down() {
        told = tell(told, machine.now(), wait.ticks, sink, watch)?;
        let quiet = until_line(machine, lines, at_once(left));
        let count = machine.skip(quiet);
        if count > 0 {
            left -= u64::from(count);
            continue;
        }
        lines = tick_held(machine, lines, &mut held)?;
        hand_on(held.writer.as_slice(), sink)?;
        if has_line(wait.words, held.writer.as_slice()) {
            return Ok(true);
        }
        held.writer.clear();
        left -= 1;
    }
    Ok(false)
}
