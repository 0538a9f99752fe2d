//! Ticks of a module without output, and the inputs that they bring one partition.

ghost use Rattle.std.specs.Prelude.{◌≡◌, ◌<◌, ◌+◌, ◌^◌, ℕ, None, Some, IfOk, OnOk};
ghost use Rattle.apex_types.specs.Limits.{MOST_TICKS};
ghost use Rattle.module_meaning.specs.Module as meaning;
ghost use Rattle.isolation.specs.Brought.{brought_moved, brought_tick};
ghost use Rattle.lone_partition.specs.Outputs.{next_at};
ghost use Rattle.module.specs.Collecting.{AreCollected, IsMadeUnseen, brought_next};
ghost use Rattle.module_meaning.specs.Standing.{after, begins, begins_and_ticks, ticks};
ghost use Rattle.module.specs.Views.{members_in, plan_of, standing_of};

use crate::bringing::bring_in_all;
use crate::collected::Collected;
use crate::inputs_fault::InputsFault;
use crate::member::{Members, Module};
use apex_types::{DeviceLine, Moment, PartitionId, Sink, SinkFault};
use image::Image;
use lone_partition::Output;
use partition_base::Executor;
use regions::PartitionMem;

/// A sink that takes all bytes and keeps none of them.
#[derive(Drop)]
pub struct Forgetful;

impl Sink for Forgetful {
    ghost taken = { λ _. None };

    ghost failures = { λ _. 0 };

    fn put(&mut self, bytes: &[u8]) -> Result<usize, SinkFault> {
        Ok(bytes.len())
    }
}

impl<E: Executor<Mem = PartitionMem>> Members<E> {
    /// Collects what the source ports of the partition whose window ends in this tick bring the
    /// watched partition; then moves the messages, and makes the tick of the owner.
    fn move_and_tick_watched(
        &mut self,
        plan: &Image,
        moment: Moment,
        watched: PartitionId,
        inputs: &mut Collected,
        output: &mut Output<'_, Forgetful>,
    ) -> Result<(), InputsFault>
        ensures members { OnOk result
            (members_in E.Executor self.new
            ≡ (meaning.moves_and_ticks (plan_of plan.now) moment.at
            (members_in E.Executor self.old)).state) }
        ensures inputs { AreCollected moment.at.now.0
            (brought_moved (plan_of plan.now) watched.0 (members_in E.Executor self.old)
            (Some moment.at))
            inputs.old.lines.items inputs.new.lines.items result }
    {
        let ended = plan.schedule.ended(moment);
        let now = moment.at.now;
        self.bring_ended(plan.channels.as_slice(), ended, now, watched, inputs)?;
        self.move_and_tick(plan, moment, output);
        Ok(())
    }

    /// A tick of the module with its device lines, which collects what it brings the watched
    /// partition. Returns the same as [`Members::tick`].
    fn tick_watched(
        &mut self,
        plan: &Image,
        moment: Moment,
        lines: &[DeviceLine],
        watched: PartitionId,
        inputs: &mut Collected,
        output: &mut Output<'_, Forgetful>,
    ) -> Result<Option<Moment>, InputsFault>
        requires { meaning.of_tick moment.at.now.0 lines.now ≡ lines.now }
        ensures made { IfOk result
            (λ last. IsMadeUnseen
            (meaning.module_tick (plan_of plan.now) moment.at lines.now
            (members_in E.Executor self.old))
            (next_at last) (members_in E.Executor self.new)) }
        ensures inputs { AreCollected moment.at.now.0
            (brought_tick (plan_of plan.now) watched.0 moment.at lines.now
            (members_in E.Executor self.old))
            inputs.old.lines.items inputs.new.lines.items result }
    {
        bring_in_all(plan, lines, moment.at.now, watched, inputs)?;
        let Some(last) = self.input_all(plan, moment, lines, output) else {
            return Ok(None);
        };
        self.move_and_tick_watched(plan, last, watched, inputs, output)?;
        Ok(Some(last))
    }

    /// Begins what is to begin, then makes a tick of the module, and collects what it brings the
    /// watched partition. Returns the same as [`Members::tick`].
    fn begin_and_tick_watched(
        &mut self,
        plan: &Image,
        moment: Moment,
        lines: &[DeviceLine],
        watched: PartitionId,
        inputs: &mut Collected,
        output: &mut Output<'_, Forgetful>,
    ) -> Result<Option<Moment>, InputsFault>
        requires { meaning.of_tick moment.at.now.0 lines.now ≡ lines.now }
        ensures made { IfOk result
            (λ last. IsMadeUnseen
            (begins_and_ticks (plan_of plan.now) moment.at lines.now
            (members_in E.Executor self.old))
            (next_at last) (members_in E.Executor self.new)) }
        ensures inputs { AreCollected moment.at.now.0
            (brought_tick (plan_of plan.now) watched.0 moment.at lines.now
            (begins moment.at.now.0 (members_in E.Executor self.old)).state)
            inputs.old.lines.items inputs.new.lines.items result }
    {
        self.begin(moment, output);
        self.tick_watched(plan, moment, lines, watched, inputs, output)
    }
}

impl<E: Executor<Mem = PartitionMem>> Module<E> {
    /// Makes the next tick, with its device lines, and collects what it brings the watched
    /// partition.
    pub fn tick_watched(
        &mut self,
        lines: &[DeviceLine],
        watched: PartitionId,
        inputs: &mut Collected,
        output: &mut Output<'_, Forgetful>,
    ) -> Result<(), InputsFault>
        requires now { self.old.now.0 < MOST_TICKS }
        requires lines { meaning.of_tick self.old.now.0 lines.now ≡ lines.now }
        ensures image { self.new.image ≡ self.old.image }
        ensures standing { OnOk result
            (standing_of E.Executor self.new
            ≡ after (standing_of E.Executor self.old)
            (ticks (plan_of self.old.image) lines.now (standing_of E.Executor self.old))) }
        ensures inputs { AreCollected self.old.now.0
            (brought_next (plan_of self.old.image) watched.0 lines.now
            (standing_of E.Executor self.old))
            inputs.old.lines.items inputs.new.lines.items result }
    {
        let last = self.go_watched(lines, watched, inputs, output)?;
        self.pass(last);
        Ok(())
    }

    /// The events of the next tick, and the inputs that it brings the watched partition. After a
    /// shutdown nothing happens.
    fn go_watched(
        &mut self,
        lines: &[DeviceLine],
        watched: PartitionId,
        inputs: &mut Collected,
        output: &mut Output<'_, Forgetful>,
    ) -> Result<Option<Moment>, InputsFault>
        requires { meaning.of_tick self.old.now.0 lines.now ≡ lines.now }
        ensures image { self.new.image ≡ self.old.image }
        ensures now { self.new.now ≡ self.old.now }
        ensures made { IfOk result
            (λ last. IsMadeUnseen
            (ticks (plan_of self.old.image) lines.now (standing_of E.Executor self.old))
            (next_at last) (members_in E.Executor self.new.members)) }
        ensures inputs { AreCollected self.old.now.0
            (brought_next (plan_of self.old.image) watched.0 lines.now
            (standing_of E.Executor self.old))
            inputs.old.lines.items inputs.new.lines.items result }
    {
        let Some(moment) = self.moment() else {
            return Ok(None);
        };
        self.members
            .begin_and_tick_watched(&self.image, moment, lines, watched, inputs, output)
    }
}
