//! The effects of the devices on the module.

ghost use Rattle.std.specs.Prelude.{◌≡◌};
ghost use Rattle.module_meaning.specs.Module as meaning;
ghost use Rattle.lone_partition.specs.Outputs.{next_at, sent_of};
ghost use Rattle.module.specs.Views.{members_in, plan_of};
ghost use Rattle.lone_partition.specs.Written.{IsCourse};

use crate::member::Members;
use apex_types::{DeviceInput, DeviceLine, Moment, Sink};
use image::Image;
use lone_partition::{Output, PartitionStep};
use partition_base::Executor;
use regions::PartitionMem;

impl<E: Executor<Mem = PartitionMem>> Members<E> {
    /// The effect of a device on the module. After a shutdown there is no further tick.
    #[tactic(auto, using(crate::proofs::Written::channels))]
    fn input<S: Sink>(
        &mut self,
        plan: &Image,
        moment: Moment,
        input: &DeviceInput,
        output: &mut Output<'_, S>,
    ) -> Option<Moment>
        ensures { IsCourse
            (meaning.inputs (plan_of plan.now) moment.at input.now (members_in E.Executor self.old))
            (next_at result) (members_in E.Executor self.new) (sent_of S.Sink output.old)
            (sent_of S.Sink output.new) }
    {
        match input {
            DeviceInput::Message(channel, message) => {
                let channel = plan.channels.get(usize::from(channel.0));
                self.go_by(moment, message, channel, output);
                Some(moment)
            }
            DeviceInput::PartitionFault(partition) => {
                self.step(*partition, moment, &PartitionStep::BreakDown, output);
                Some(moment)
            }
            DeviceInput::ModuleFault => self.break_module(moment, plan.fault, output),
        }
    }

    /// The effects of the devices in these lines, one after another, until one of them shuts the
    /// module down.
    #[tactic(auto, using(crate::proofs::Shutdown::lines_end))]
    pub fn input_all<S: Sink>(
        &mut self,
        plan: &Image,
        moment: Moment,
        lines: &[DeviceLine],
        output: &mut Output<'_, S>,
    ) -> Option<Moment>
        ensures { IsCourse
            (meaning.inputs_all (plan_of plan.now) moment.at lines.now
            (members_in E.Executor self.old))
            (next_at result) (members_in E.Executor self.new) (sent_of S.Sink output.old)
            (sent_of S.Sink output.new) }
    {
        let mut last = moment;
        for line in lines {
            match self.input(plan, last, &line.input, output) {
                Some(next) => last = next,
                None => return None,
            }
        }
        Some(last)
    }
}
