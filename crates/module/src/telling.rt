//! The inputs that a run of an image brings one of its partitions.

ghost use Rattle.std.specs.Prelude.{◌≡◌, ◌≢◌, ◌≤◌, ◌<◌, ◌+◌, ◌-◌, ◌^◌, [], ◌∷◌, Some, length, IfErr, IfOk, OnOk, IsErrOf};
ghost use Rattle.apex_types.specs.Limits.{MOST_TICKS};
ghost use Rattle.machine_meaning.specs.ImageReading.{image_at};
ghost use Rattle.machine_meaning.specs.MachineMeaning.{machine_module};
ghost use Rattle.image.specs.Views.{image_of};
ghost use Rattle.isolation.specs.Slices.{Slice, machine_inputs, slice};
ghost use Rattle.partition_base.specs.contracts.machine.PartitionProcessorExecutor.TheImpl.{ghosts as machine};
ghost use Rattle.module.specs.Collecting.{HasNoRoom};
ghost use Rattle.module_meaning.specs.Standing.{at_first};
ghost use Rattle.module.specs.Telling.{Tells, TellsSlice};
ghost use Rattle.module.specs.Views.{standing_of};
ghost use Rattle.module.specs.Watched.{Hears, IsFollowed};
ghost use Rattle.module.specs.Written.{AreFrom};
ghost use Rattle.module.specs.declared.telling.TheConstants.{STEPS_BETWEEN_REPORTS};

use crate::collected::Collected;
use crate::inputs_fault::InputsFault;
use crate::member::Module;
use crate::naming::numbered;
use crate::ticks::split_tick;
use crate::watch::{Unwatched, Watch};
use crate::watching::Forgetful;
use apex_types::limits::MOST_TICKS;
use apex_types::{DeviceLine, PartitionId, Sink, Ticks, TraceBuffer};
use image::{Image, load_image};
use lone_partition::{Output, at_most, until_line};
use module_base::{read_devices, write_inputs};
use partition_base::PartitionProcessor;
use std::alloc::Global;

/// The steps between two reports to a watcher; a step is a tick, or a jump over quiet ones.
const STEPS_BETWEEN_REPORTS: u32 = 1 << 12;

/// Which inputs are wanted: those of one partition, in a run with a device text.
#[derive(Clone, Copy)]
pub struct WantedInputs<'a> {
    pub partition: &'a str,
    pub devices: &'a [u8],
    pub ticks: u64,
}

/// Runs the image for `ticks` ticks with the device text, and writes the inputs that one of its
/// partitions gets from outside, tick by tick, as a replay text: the messages that reach its ports,
/// also those that find a port full, the faults of its hardware and those of the module. From this
/// text [`replay`](crate::replay) makes the part of the run's trace with the partition's name.
/// After [`InputsFault::Write`] the sink has failed once and has taken a prefix of the text; every
/// other refusal comes before the sink is asked to take anything.
///
/// # Errors
///
/// In this order: more ticks than 2^40; bytes that are no image; a name of no partition; the lowest
/// rule that the first wrong line of the device text breaks; more than 65,536 inputs. Out of memory
/// may come before a later one is reached.
pub fn inputs<S: Sink>(
    alloc: Global,
    image: &[u8],
    partition: &str,
    devices: &[u8],
    ticks: u64,
    sink: &mut S,
) -> Result<(), InputsFault>
    requires { S.failures sink.old < 2 ^ 64 - 1 }
    ensures text { Tells (image_at image.now) partition.now devices.now ticks (S.taken sink.old)
        (S.taken sink.new) result }
    ensures ok { OnOk result (S.failures sink.new ≡ S.failures sink.old) }
    ensures write { IsErrOf result InputsFault.Write
        → S.failures sink.new ≡ S.failures sink.old + 1 }
    ensures quiet { IfErr result
        (λ fault. fault ≢ InputsFault.Write → S.failures sink.new ≡ S.failures sink.old) }
{
    let wanted = WantedInputs {
        partition,
        devices,
        ticks,
    };
    inputs_watched(alloc, image, wanted, sink, &mut Unwatched)
}

/// Writes the inputs as [`inputs`] does, and reports to a watcher how far the run is, in rising
/// order and before its last tick.
///
/// # Errors
///
/// Those of [`inputs`].
#[tactic(auto, using(crate::proofs::Watched::not_followed))]
pub fn inputs_watched<S: Sink, W: Watch>(
    alloc: Global,
    image: &[u8],
    wanted: WantedInputs<'_>,
    sink: &mut S,
    watch: &mut W,
) -> Result<(), InputsFault>
    requires { S.failures sink.old < 2 ^ 64 - 1 }
    ensures text { Tells (image_at image.now) wanted.entry.partition.now wanted.entry.devices.now
        wanted.entry.ticks (S.taken sink.old) (S.taken sink.new) result }
    ensures ok { OnOk result (S.failures sink.new ≡ S.failures sink.old) }
    ensures write { IsErrOf result InputsFault.Write
        → S.failures sink.new ≡ S.failures sink.old + 1 }
    ensures quiet { IfErr result
        (λ fault. fault ≢ InputsFault.Write → S.failures sink.new ≡ S.failures sink.old) }
    ensures followed { IsFollowed wanted.entry.ticks (wanted.entry.ticks - 1) (W.told watch.old)
        (W.told watch.new) }
{
    if wanted.ticks > MOST_TICKS {
        return Err(InputsFault::Ticks);
    }
    let image = load_image(alloc, image)?;
    let Some(number) = numbered(&image, wanted.partition) else {
        return Err(InputsFault::Partition);
    };
    tell_numbered(alloc, image, number, wanted, sink, watch)
}

/// The same for the partition with this number.
#[tactic(auto, using(crate::proofs::Watched::not_followed))]
fn tell_numbered<S: Sink, W: Watch>(
    alloc: Global,
    image: Image,
    number: PartitionId,
    wanted: WantedInputs<'_>,
    sink: &mut S,
    watch: &mut W,
) -> Result<(), InputsFault>
    requires ticks { wanted.ticks ≤ MOST_TICKS }
    requires there { 0 < number.0 }
    requires within { number.0 ≤ length image.partitions.items }
    requires failures { S.failures sink.old < 2 ^ 64 - 1 }
    ensures told { (s : Slice) → slice (image_of image) number.0 ≡ Some s
        → TellsSlice (image_of image) s wanted.entry.devices.now wanted.entry.ticks (S.taken sink.old)
        (S.taken sink.new) result }
    ensures ok { OnOk result (S.failures sink.new ≡ S.failures sink.old) }
    ensures write { IsErrOf result InputsFault.Write
        → S.failures sink.new ≡ S.failures sink.old + 1 }
    ensures quiet { IfErr result
        (λ fault. fault ≢ InputsFault.Write → S.failures sink.new ≡ S.failures sink.old) }
    ensures followed { IsFollowed wanted.entry.ticks (wanted.entry.ticks - 1) (W.told watch.old)
        (W.told watch.new) }
{
    let lines = read_devices(alloc, &image, wanted.devices)?;
    let mut module = Module::load(alloc, image)?;
    let inputs = collect(alloc, &mut module, &lines, wanted.ticks, number, watch)?;
    let item = &module.image.partitions[usize::from(number.0) - 1];
    write_inputs(&item.row, &inputs.lines, sink)?;
    Ok(())
}

/// Counts a step of a run that is at this tick of `ticks`; after the most untold ones it is reported.
fn one_more<W: Watch>(steps: u32, now: Ticks, ticks: u64, watch: &mut W) -> u32
    ensures quiet { steps < STEPS_BETWEEN_REPORTS
        → (result ≡ steps + 1) × (W.told watch.new ≡ W.told watch.old) }
    ensures told { STEPS_BETWEEN_REPORTS ≤ steps
        → (result ≡ 0) × Hears (W.told watch.old) (W.told watch.new) ((now.0, ticks) ∷ []) }
{
    if steps < STEPS_BETWEEN_REPORTS {
        return steps + 1;
    }
    watch.reached(now.0, ticks);
    0
}

/// Collects the inputs that `ticks` ticks with these device lines bring the watched partition.
#[tactic(auto, using(crate::proofs::Watched::not_followed))]
pub fn collect<W: Watch>(
    alloc: Global,
    running: &mut Module<PartitionProcessor>,
    devices: &[DeviceLine],
    ticks: u64,
    watched: PartitionId,
    watch: &mut W,
) -> Result<Collected, InputsFault>
    requires ticks { ticks ≤ MOST_TICKS }
    requires fresh { standing_of machine running.old
        ≡ at_first (machine_module (image_of running.old.image)).members }
    requires order { AreFrom 0 devices.now }
    ensures image { running.new.image ≡ running.old.image }
    ensures inputs { IfOk result
        (λ inputs. inputs.lines.items
        ≡ machine_inputs (image_of running.old.image) watched.0 devices.now ticks) }
    ensures refused { IfErr result
        (HasNoRoom
        (length (machine_inputs (image_of running.old.image) watched.0 devices.now ticks))) }
    ensures followed { IsFollowed ticks (ticks - 1) (W.told watch.old) (W.told watch.new) }
{
    let mut trace = TraceBuffer::new(alloc)?;
    let mut nowhere = Forgetful;
    let mut output = Output::new(&mut trace, &mut nowhere);
    let mut inputs = Collected::new(alloc);
    let mut left = ticks;
    let mut lines = devices;
    let mut steps = 0;
    while left > 0 && running.origin.is_some() {
        steps = one_more(steps, running.now, ticks, watch);
        let quiet = until_line(lines, running.now, at_most(left, u32::MAX));
        let count = running.skip_still(quiet);
        if count > 0 {
            left -= u64::from(count);
            continue;
        }
        let (now, later) = split_tick(lines, running.now.0);
        running.tick_watched(now, watched, &mut inputs, &mut output)?;
        lines = later;
        left -= 1;
    }
    Ok(inputs)
}
