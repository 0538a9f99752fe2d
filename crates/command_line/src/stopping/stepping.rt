//! A tick of a run that waits for a line.

ghost use Rattle.std.specs.Prelude.{◌≡◌, ◌≤◌, ◌<◌, ◌+◌, ◌-◌, ◌^◌, [], false, IfErr, IfOk, OnErr, OnOk};
ghost use Rattle.std.specs.Io.KnownBytes.{Appends, Keeps};
ghost use Rattle.apex_types.specs.Line.{TakesBeginning};
ghost use Rattle.apex_types.specs.Limits.{MOST_TICKS};
ghost use Rattle.module.specs.Machines.{machine_of};
ghost use Rattle.module.specs.Written.{AreFrom};
ghost use Rattle.command_line.specs.StopSteps.{IsHeld, IsReported};

use apex_types::{DeviceLine, Sink, WriterSink, put_all};
use module::{Machine, RunFault, Watch, pause, split_tick};

/// How many of the next `most` ticks come before the first of these lines, which are of the next tick
/// or later.
pub fn until_line(machine: &Machine, lines: &[DeviceLine], most: u32) -> u32
    requires order { AreFrom (machine_of machine.now).standing.now lines.now }
    ensures within { result ≤ most }
    ensures from { AreFrom ((machine_of machine.now).standing.now + result) lines.now }
{
    match lines.first() {
        Some(line) => at_most(line.tick().saturating_sub(machine.now()), most),
        None => most,
    }
}

/// `ticks`, or `most` if there are more.
fn at_most(ticks: u64, most: u32) -> u32
    ensures within { result ≤ most }
    ensures ticks { result ≤ ticks }
{
    ticks.min(u64::from(most)) as u32
}

/// The text of a tick.
pub type Held = WriterSink<Vec<u8>>;

/// Makes the next tick, with its device lines, and holds the text of its lines. Returns the device
/// lines of later ticks.
///
/// # Errors
///
/// [`RunFault::Memory`] if there is no memory for the text.
pub fn tick_held<'a>(
    machine: &mut Machine,
    lines: &'a [DeviceLine],
    held: &mut Held,
) -> Result<&'a [DeviceLine], RunFault>
    requires order { AreFrom (machine_of machine.old).standing.now lines.now }
    requires sound { (machine_of machine.old).failed ≡ false }
    requires few { (machine_of machine.old).standing.now < MOST_TICKS }
    requires empty { held.old.writer.items ≡ [] }
    requires fresh { held.old.failures ≡ 0 }
    ensures held { IfOk result
        (λ left. IsHeld lines.now left.now (machine_of machine.old) (machine_of machine.new)
        held.new.writer.items) }
    ensures fresh { OnOk result (held.new.failures ≡ 0) }
    ensures memory { IfErr result (λ fault. fault ≡ RunFault.Memory) }
{
    let (now, later) = split_tick(lines, machine.now());
    match machine.tick(now, held) {
        Ok(()) => Ok(later),
        Err(_) => Err(RunFault::Memory),
    }
}

/// Hands the text of a tick on.
///
/// # Errors
///
/// [`RunFault::Write`] if the sink fails.
pub fn hand_on<S: Sink>(text: &[u8], sink: &mut S) -> Result<(), RunFault>
    requires { S.failures sink.old < 2 ^ 64 - 1 }
    ensures taken { OnOk result (Appends (S.taken sink.old) (S.taken sink.new) text.now) }
    ensures quiet { OnOk result (S.failures sink.new ≡ S.failures sink.old) }
    ensures failed { OnErr result (S.failures sink.new ≡ S.failures sink.old + 1) }
    ensures beginning { OnErr result
        (TakesBeginning (S.taken sink.old) (S.taken sink.new) text.now) }
    ensures write { IfErr result (λ fault. fault ≡ RunFault.Write) }
{
    match put_all(sink, text) {
        Ok(()) => Ok(()),
        Err(_) => Err(RunFault::Write),
    }
}

/// The most ticks that are made between two offers of nothing, but for those that are skipped.
pub const MOST_UNTOLD: u64 = 1 << 14;

/// The ticks that are made until the next report to this watcher, but for those that are skipped.
fn most_untold<W: Watch>(watch: &W) -> u64
    ensures { 0 < result }
{
    pause(watch).min(MOST_UNTOLD)
}

/// Offers nothing to a sink, which may use the time for what it has kept back, and reports to a
/// watcher how far the run is, if many ticks were made since the last report. Returns after how
/// many ticks the last report was.
///
/// # Errors
///
/// [`RunFault::Write`] if the sink fails.
#[tactic(auto, using(crate::proofs::Watched::not_reported))]
pub fn tell<S: Sink, W: Watch>(
    told: u64,
    made: u64,
    ticks: u64,
    sink: &mut S,
    watch: &mut W,
) -> Result<u64, RunFault>
    requires { S.failures sink.old < 2 ^ 64 - 1 }
    ensures kept { Keeps (S.taken sink.old) (S.taken sink.new) }
    ensures quiet { OnOk result (S.failures sink.new ≡ S.failures sink.old) }
    ensures failed { OnErr result (S.failures sink.new ≡ S.failures sink.old + 1) }
    ensures write { IfErr result (λ fault. fault ≡ RunFault.Write) }
    ensures told { IfOk result
        (λ last. IsReported told made ticks last (W.told watch.old) (W.told watch.new)) }
    ensures untold { OnErr result (W.told watch.new ≡ W.told watch.old) }
{
    let most = most_untold(watch);
    if made.saturating_sub(told) < most {
        return Ok(told);
    }
    if sink.put(&[]).is_err() {
        return Err(RunFault::Write);
    }
    watch.reached(made, ticks);
    Ok(made)
}
