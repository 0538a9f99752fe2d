//! A tick of the module.

ghost use Rattle.std.specs.Prelude.{◌≡◌, option_map};
ghost use Rattle.module_meaning.specs.Module as meaning;
ghost use Rattle.lone_partition.specs.Outputs.{next_at, sent_of};
ghost use Rattle.module_meaning.specs.Standing.{begins, begins_and_ticks};
ghost use Rattle.module.specs.Views.{members_in, plan_of};
ghost use Rattle.lone_partition.specs.Written.{IsCourse, IsMade, done_in};

use crate::member::Members;
use apex_types::{At, DeviceLine, Moment, PartitionId, Sink, StartCondition, Ticks};
use image::Image;
use lone_partition::{Output, PartitionStep};
use partition_base::Executor;
use regions::PartitionMem;

/// The first tick of a run.
const FIRST: Moment = Moment {
    at: At {
        now: Ticks(0),
        origin: Ticks(0),
    },
};

impl<E: Executor<Mem = PartitionMem>> Members<E> {
    /// A tick of the owner of the window, if the window has one.
    #[tactic(auto, using(crate::proofs::Written::nothing))]
    fn tick_owner<S: Sink>(
        &mut self,
        moment: Moment,
        owner: Option<PartitionId>,
        output: &mut Output<'_, S>,
    )
        ensures { IsMade
            (meaning.ticks_owner moment.at (members_in E.Executor self.old)
            (option_map (λ p. p.0) owner))
            (members_in E.Executor self.new) (sent_of S.Sink output.old)
            (sent_of S.Sink output.new) }
    {
        if let Some(partition) = owner {
            self.step(partition, moment, &PartitionStep::Tick, output);
        }
    }

    /// Moves the messages, then makes the tick of the owner.
    pub fn move_and_tick<S: Sink>(
        &mut self,
        plan: &Image,
        moment: Moment,
        output: &mut Output<'_, S>,
    )
        ensures { IsMade
            (done_in
            (meaning.moves_and_ticks (plan_of plan.now) moment.at
            (members_in E.Executor self.old)))
            (members_in E.Executor self.new) (sent_of S.Sink output.old)
            (sent_of S.Sink output.new) }
    {
        let channels = plan.channels.as_slice();
        let ended = plan.schedule.ended(moment);
        self.move_ended(channels, moment, ended, output);
        self.tick_owner(moment, plan.schedule.owner(moment), output);
    }

    /// A tick of the module with its device lines. Returns the tick with the origin valid from here
    /// on, or `None` if the module is shut down.
    #[tactic(auto, using(crate::proofs::Shutdown::tick_ends_down))]
    fn tick<S: Sink>(
        &mut self,
        plan: &Image,
        moment: Moment,
        lines: &[DeviceLine],
        output: &mut Output<'_, S>,
    ) -> Option<Moment>
        requires { meaning.of_tick moment.at.now.0 lines.now ≡ lines.now }
        ensures { IsCourse
            (meaning.module_tick (plan_of plan.now) moment.at lines.now
            (members_in E.Executor self.old))
            (next_at result) (members_in E.Executor self.new) (sent_of S.Sink output.old)
            (sent_of S.Sink output.new) }
    {
        let last = self.input_all(plan, moment, lines, output)?;
        self.move_and_tick(plan, last, output);
        Some(last)
    }

    /// Starts each partition before the first tick.
    #[tactic(auto, using(crate::proofs::Written::nothing))]
    pub fn begin<S: Sink>(&mut self, moment: Moment, output: &mut Output<'_, S>)
        ensures { IsMade (begins moment.at.now.0 (members_in E.Executor self.old))
            (members_in E.Executor self.new) (sent_of S.Sink output.old)
            (sent_of S.Sink output.new) }
    {
        if moment.at.now.0 == 0 {
            self.start_all(FIRST, StartCondition::NormalStart, output);
        }
    }

    /// Begins what is to begin, then makes a tick of the module with its device lines. Returns the
    /// same as [`Members::tick`].
    pub fn begin_and_tick<S: Sink>(
        &mut self,
        plan: &Image,
        moment: Moment,
        lines: &[DeviceLine],
        output: &mut Output<'_, S>,
    ) -> Option<Moment>
        requires { meaning.of_tick moment.at.now.0 lines.now ≡ lines.now }
        ensures { IsCourse
            (begins_and_ticks (plan_of plan.now) moment.at lines.now
            (members_in E.Executor self.old))
            (next_at result) (members_in E.Executor self.new) (sent_of S.Sink output.old)
            (sent_of S.Sink output.new) }
    {
        self.begin(moment, output);
        self.tick(plan, moment, lines, output)
    }
}
