//! The inputs of a partition.

ghost use Rattle.std.specs.Prelude.{◌≡◌};
ghost use Rattle.isolation.specs.Alone.{meets_fault, takes, takes_all};
ghost use Rattle.partition.specs.Members.{member_of};
ghost use Rattle.lone_partition.specs.Lines.{inputs_of};
ghost use Rattle.lone_partition.specs.Outputs.{next_at, sent_of};
ghost use Rattle.lone_partition.specs.Written.{IsCourse};

use crate::output::Output;
use crate::step::{PartitionStep, write_step};
use apex_types::{At, ModuleAction, Moment, Sink, StartCondition, copied};
use isolation::{Input, InputLine};
use partition::Partition;
use partition_base::Executor;

/// A fault of the module, whose line belongs to no partition: it is ignored, ends everything, or
/// resets. A reset makes this tick the origin, and the partition clears to a cold start. After a
/// shutdown there is no further tick.
fn meet_fault<E: Executor, S: Sink>(
    action: ModuleAction,
    partition: &mut Partition<E>,
    mem: &mut E::Mem,
    moment: Moment,
    output: &mut Output<'_, S>,
) -> Option<Moment>
    requires { E.laid mem.old ≡ E.layout partition.old.executor }
    ensures fits { E.laid mem.new ≡ E.layout partition.new.executor }
    ensures written { IsCourse
        (meets_fault moment.at action (member_of E.Executor partition.old mem.old)) (next_at result)
        (member_of E.Executor partition.new mem.new) (sent_of S.Sink output.old)
        (sent_of S.Sink output.new) }
{
    match action {
        ModuleAction::Ignore => Some(moment),
        ModuleAction::Shutdown => None,
        ModuleAction::Reset => {
            let now = moment.at.now;
            let origin = Moment {
                at: At { now, origin: now },
            };
            let step = PartitionStep::Start(StartCondition::HmModuleRestart);
            write_step(partition, mem, origin, &step, output);
            Some(origin)
        }
    }
}

/// Takes one input. After a shutdown there is no further tick.
fn take<E: Executor, S: Sink>(
    fault: ModuleAction,
    input: &Input,
    partition: &mut Partition<E>,
    mem: &mut E::Mem,
    moment: Moment,
    output: &mut Output<'_, S>,
) -> Option<Moment>
    requires { E.laid mem.old ≡ E.layout partition.old.executor }
    ensures fits { E.laid mem.new ≡ E.layout partition.new.executor }
    ensures written { IsCourse
        (takes fault moment.at input.now (member_of E.Executor partition.old mem.old))
        (next_at result) (member_of E.Executor partition.new mem.new) (sent_of S.Sink output.old)
        (sent_of S.Sink output.new) }
{
    match input {
        Input::Arrive(port, message) => {
            let step = PartitionStep::Arrive(*port, copied(message));
            write_step(partition, mem, moment, &step, output);
            Some(moment)
        }
        Input::PartitionFault => {
            write_step(partition, mem, moment, &PartitionStep::BreakDown, output);
            Some(moment)
        }
        Input::ModuleFault => meet_fault(fault, partition, mem, moment, output),
    }
}

/// Takes the inputs of these lines one after another, until one of them ends everything.
#[tactic(auto, using(crate::proofs::Taken::inputs_end))]
pub fn take_all<E: Executor, S: Sink>(
    fault: ModuleAction,
    lines: &[InputLine],
    partition: &mut Partition<E>,
    mem: &mut E::Mem,
    moment: Moment,
    output: &mut Output<'_, S>,
) -> Option<Moment>
    requires { E.laid mem.old ≡ E.layout partition.old.executor }
    ensures fits { E.laid mem.new ≡ E.layout partition.new.executor }
    ensures written { IsCourse
        (takes_all fault moment.at (inputs_of lines.now)
        (member_of E.Executor partition.old mem.old))
        (next_at result) (member_of E.Executor partition.new mem.new) (sent_of S.Sink output.old)
        (sent_of S.Sink output.new) }
{
    let mut last = moment;
    for line in lines {
        match take(fault, &line.input, partition, mem, last, output) {
            Some(next) => last = next,
            None => return None,
        }
    }
    Some(last)
}
