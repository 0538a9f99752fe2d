//! Replaying one partition of an image from its inputs.

ghost use Rattle.std.specs.Prelude.{◌≡◌, ◌≢◌, ◌≤◌, ◌<◌, ◌+◌, ◌-◌, ◌^◌, Some, length, IfErr, OnOk, IsErrOf};
ghost use Rattle.apex_types.specs.Limits.{MOST_TICKS};
ghost use Rattle.machine_meaning.specs.ImageReading.{image_at};
ghost use Rattle.image.specs.Views.{image_of};
ghost use Rattle.isolation.specs.Slices.{Slice, slice};
ghost use Rattle.module.specs.Replays.{Replays, ReplaysPart};
ghost use Rattle.module.specs.Running.{ReplaysSlice};

use crate::fault::RunFault;
use crate::naming::numbered;
use apex_types::limits::MOST_TICKS;
use apex_types::{PartitionId, Sink};
use image::{Image, load_image};
use lone_partition::LonePartition;
use module_base::read_inputs;
use std::alloc::Global;

/// Runs only one partition of the image for `ticks` ticks, with the inputs of the replay text, and
/// writes the text of its trace into the sink. Nothing of the other partitions is loaded or run.
/// After [`RunFault::Write`] the sink has failed once and has taken a prefix of that text; every
/// other refusal comes before the sink is asked to take anything.
///
/// For the inputs that a run of the whole image brings the partition, which
/// [`inputs`](crate::inputs) writes, this is the part of that run's trace with the partition's
/// name.
///
/// # Errors
///
/// In this order: more ticks than 2^40; bytes that are no image; a name of no partition; the lowest
/// rule that the first wrong line of the replay text breaks. Out of memory may come before a later
/// one is reached.
pub fn replay<S: Sink>(
    alloc: Global,
    image: &[u8],
    partition: &str,
    inputs: &[u8],
    ticks: u64,
    sink: &mut S,
) -> Result<(), RunFault>
    requires { S.failures sink.old < 2 ^ 64 - 1 }
    ensures trace { Replays (image_at image.now) partition.now inputs.now ticks (S.taken sink.old)
        (S.taken sink.new) result }
    ensures isolated { OnOk result
        (ReplaysPart (image_at image.now) partition.now inputs.now ticks (S.taken sink.old)
        (S.taken sink.new)) }
    ensures ok { OnOk result (S.failures sink.new ≡ S.failures sink.old) }
    ensures write { IsErrOf result RunFault.Write → S.failures sink.new ≡ S.failures sink.old + 1 }
    ensures quiet { IfErr result
        (λ fault. fault ≢ RunFault.Write → S.failures sink.new ≡ S.failures sink.old) }
{
    if ticks > MOST_TICKS {
        return Err(RunFault::Ticks);
    }
    let image = load_image(alloc, image)?;
    let Some(number) = numbered(&image, partition) else {
        return Err(RunFault::Partition);
    };
    replay_numbered(alloc, &image, number, inputs, ticks, sink)
}

/// The same for the partition with this number.
fn replay_numbered<S: Sink>(
    alloc: Global,
    image: &Image,
    number: PartitionId,
    inputs: &[u8],
    ticks: u64,
    sink: &mut S,
) -> Result<(), RunFault>
    requires ticks { ticks ≤ MOST_TICKS }
    requires there { 0 < number.0 }
    requires within { number.0 ≤ length image.now.partitions.items }
    requires failures { S.failures sink.old < 2 ^ 64 - 1 }
    ensures trace { (s : Slice) → slice (image_of image.now) number.0 ≡ Some s
        → ReplaysSlice s inputs.now ticks (S.taken sink.old) (S.taken sink.new) result }
    ensures ok { OnOk result (S.failures sink.new ≡ S.failures sink.old) }
    ensures write { IsErrOf result RunFault.Write → S.failures sink.new ≡ S.failures sink.old + 1 }
    ensures quiet { IfErr result
        (λ fault. fault ≢ RunFault.Write → S.failures sink.new ≡ S.failures sink.old) }
{
    let item = &image.partitions[usize::from(number.0) - 1];
    let lines = read_inputs(alloc, &item.row, inputs)?;
    let alone = LonePartition::load(alloc, image, number)?;
    alone.run(&lines, ticks, sink)?;
    Ok(())
}
