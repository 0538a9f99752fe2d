//! The start of all partitions, and faults of the module.

ghost use Rattle.std.specs.Prelude.{◌≡◌};
ghost use Rattle.module_meaning.specs.Module as meaning;
ghost use Rattle.lone_partition.specs.Outputs.{next_at, sent_of};
ghost use Rattle.module.specs.Views.{members_in};
ghost use Rattle.lone_partition.specs.Written.{IsCourse, IsMade};

use crate::member::Members;
use apex_types::{
    At, ErrorKind, EventLog, LineKind, ModuleAction, Moment, Response, Sink, StartCondition,
};
use lone_partition::{Output, PartitionStep};
use partition_base::Executor;
use regions::PartitionMem;

impl<E: Executor<Mem = PartitionMem>> Members<E> {
    /// Clears each partition in order to a cold start, for a reason.
    pub fn start_all<S: Sink>(
        &mut self,
        moment: Moment,
        condition: StartCondition,
        output: &mut Output<'_, S>,
    )
        ensures { IsMade (meaning.starts_all moment.at condition (members_in E.Executor self.old))
            (members_in E.Executor self.new) (sent_of S.Sink output.old)
            (sent_of S.Sink output.new) }
    {
        let step = PartitionStep::Start(condition);
        let mut place = 0;
        while place < self.partitions.len() {
            self.step_at(place, moment, &step, output);
            place += 1;
        }
    }

    /// Writes the line of a fault of the module, which belongs to no partition.
    fn tell_fault<S: Sink>(&self, moment: Moment, action: ModuleAction, output: &mut Output<'_, S>)
        ensures { IsMade (meaning.tells_fault moment.at action (members_in E.Executor self.now))
            (members_in E.Executor self.now) (sent_of S.Sink output.old)
            (sent_of S.Sink output.new) }
    {
        let error = LineKind::Error(ErrorKind::HardwareFault, None, Response::Module(action));
        output.trace.clear();
        output.trace.tell(moment.at.now, &None, &error, &[]);
        output.write();
    }

    /// A fault of the module resets it: this tick becomes the origin, and each partition in order
    /// clears to a cold start. Returns the tick with this origin.
    fn reset<S: Sink>(&mut self, moment: Moment, output: &mut Output<'_, S>) -> Moment
        ensures origin { result.at ≡ meaning.as_origin moment.at }
        ensures written { IsMade
            (meaning.then_goes
            (meaning.tells_fault moment.at ModuleAction.Reset (members_in E.Executor self.old))
            (meaning.starts_all (meaning.as_origin moment.at) StartCondition.HmModuleRestart))
            (members_in E.Executor self.new) (sent_of S.Sink output.old)
            (sent_of S.Sink output.new) }
    {
        self.tell_fault(moment, ModuleAction::Reset, output);
        let now = moment.at.now;
        let origin = Moment {
            at: At { now, origin: now },
        };
        self.start_all(origin, StartCondition::HmModuleRestart, output);
        origin
    }

    /// A fault of the module's hardware (ARINC 653 Part 1, health monitoring): it is ignored, shuts
    /// the module down, or resets it. After a shutdown there is no further tick.
    pub fn break_module<S: Sink>(
        &mut self,
        moment: Moment,
        action: ModuleAction,
        output: &mut Output<'_, S>,
    ) -> Option<Moment>
        ensures { IsCourse (meaning.breaks_module moment.at action (members_in E.Executor self.old))
            (next_at result) (members_in E.Executor self.new) (sent_of S.Sink output.old)
            (sent_of S.Sink output.new) }
    {
        match action {
            ModuleAction::Ignore => {
                self.tell_fault(moment, action, output);
                Some(moment)
            }
            ModuleAction::Shutdown => {
                self.tell_fault(moment, action, output);
                None
            }
            ModuleAction::Reset => Some(self.reset(moment, output)),
        }
    }
}
