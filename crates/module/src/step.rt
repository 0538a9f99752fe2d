//! A step of one partition; the others are unchanged.

ghost use Rattle.std.specs.Prelude.{◌≡◌, ◌≢◌, ◌<◌, ◌+◌, ℕ, None, length, slice_get};
ghost use Rattle.apex_types.specs.Limits.{MOST_PARTITIONS};
ghost use Rattle.module_meaning.specs.Table.{at_number};
ghost use Rattle.module_meaning.specs.Module as meaning;
ghost use Rattle.kernel_meaning.specs.Partition.{leaves, leaving};
ghost use Rattle.lone_partition.specs.Outputs.{sent_of};
ghost use Rattle.lone_partition.specs.Steps.{step_of};
ghost use Rattle.module.specs.Views.{members_in};
ghost use Rattle.regions.specs.Parts.{place_of};
ghost use Rattle.lone_partition.specs.Written.{IsMade};

use crate::member::Members;
use apex_types::{Moment, PartitionId, PortId, Sink, Words};
use lone_partition::{Output, PartitionStep, write_leave, write_step};
use partition_base::Executor;
use regions::PartitionMem;

/// The number of the partition at `place`.
pub fn number_at(place: usize) -> PartitionId
    requires { place < MOST_PARTITIONS }
    ensures number { result.0 ≡ place + 1 }
    ensures place { place_of result ≡ place }
{
    PartitionId(place as u8 + 1)
}

impl<E: Executor<Mem = PartitionMem>> Members<E> {
    /// Executes a step of the partition at `place`, if there is such a partition, and writes its
    /// lines. The partition borrows its own part of the memory, and no other partition's memory
    /// changes.
    #[tactic(auto, using(crate::proofs::Members::others))]
    pub fn step_at<S: Sink>(
        &mut self,
        place: usize,
        moment: Moment,
        step: &PartitionStep,
        output: &mut Output<'_, S>,
    )
        ensures written { IsMade
            (meaning.steps_member (step_of moment.at step.now) (members_in E.Executor self.old)
            place (slice_get (members_in E.Executor self.old) place))
            (members_in E.Executor self.new) (sent_of S.Sink output.old)
            (sent_of S.Sink output.new) }
        ensures others { (q : ℕ) → q ≢ place
            → slice_get self.new.memory q ≡ slice_get self.old.memory q }
        ensures count { length self.new.partitions.items ≡ length self.old.partitions.items }
    {
        if place >= self.partitions.len() {
            return;
        }
        let mem = self.memory.lend(number_at(place));
        write_step(&mut self.partitions[place], mem, moment, step, output);
    }

    /// Executes a step of the partition with this number, if there is such a partition, and writes
    /// its lines.
    #[tactic(auto, using(lone_partition::proofs::Written::still_made))]
    pub fn step<S: Sink>(
        &mut self,
        number: PartitionId,
        moment: Moment,
        step: &PartitionStep,
        output: &mut Output<'_, S>,
    )
        ensures written { IsMade
            (meaning.steps (step_of moment.at step.now) (members_in E.Executor self.old) number.0)
            (members_in E.Executor self.new) (sent_of S.Sink output.old)
            (sent_of S.Sink output.new) }
        ensures others { (q : ℕ) → number.0 ≢ q + 1
            → slice_get self.new.memory q ≡ slice_get self.old.memory q }
    {
        if let Some(place) = number.place() {
            self.step_at(usize::from(place), moment, step, output);
        }
    }

    /// Takes the first message out of a port of the partition at `place`, if it holds one. Returns
    /// the message.
    #[tactic(auto, using(crate::proofs::Members::others))]
    fn leave_at<S: Sink>(
        &mut self,
        place: usize,
        moment: Moment,
        port: PortId,
        output: &mut Output<'_, S>,
    ) -> Option<Words>
        ensures message { result
            ≡ meaning.of_member None (leaving port)
            (slice_get (members_in E.Executor self.old) place) }
        ensures written { IsMade
            (meaning.steps_member (leaves moment.at port) (members_in E.Executor self.old) place
            (slice_get (members_in E.Executor self.old) place))
            (members_in E.Executor self.new) (sent_of S.Sink output.old)
            (sent_of S.Sink output.new) }
        ensures others { (q : ℕ) → q ≢ place
            → slice_get self.new.memory q ≡ slice_get self.old.memory q }
    {
        if place >= self.partitions.len() {
            return None;
        }
        let mem = self.memory.lend(number_at(place));
        write_leave(&mut self.partitions[place], mem, moment, port, output)
    }

    /// Takes the first message of a port out of the partition with this number, if there is such a
    /// partition and its port holds a message. Returns the message.
    #[tactic(auto, using(lone_partition::proofs::Written::still_made))]
    pub fn leave<S: Sink>(
        &mut self,
        number: PartitionId,
        moment: Moment,
        port: PortId,
        output: &mut Output<'_, S>,
    ) -> Option<Words>
        ensures message { result
            ≡ meaning.of_member None (leaving port)
            (at_number (members_in E.Executor self.old) number.0) }
        ensures written { IsMade
            (meaning.steps (leaves moment.at port) (members_in E.Executor self.old) number.0)
            (members_in E.Executor self.new) (sent_of S.Sink output.old)
            (sent_of S.Sink output.new) }
        ensures others { (q : ℕ) → number.0 ≢ q + 1
            → slice_get self.new.memory q ≡ slice_get self.old.memory q }
    {
        let place = number.place()?;
        self.leave_at(usize::from(place), moment, port, output)
    }
}
