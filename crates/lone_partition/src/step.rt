//! A step of a partition.

ghost use Rattle.std.specs.Prelude.{◌≡◌};
ghost use Rattle.kernel_meaning.specs.Partition.{leaves, leaving, with_world};
ghost use Rattle.apex_types.specs.Line.{text_of};
ghost use Rattle.isolation.specs.Alone.{goes};
ghost use Rattle.partition.specs.Members.{member_of};
ghost use Rattle.lone_partition.specs.Outputs.{sent_of};
ghost use Rattle.lone_partition.specs.Steps.{step_of};
ghost use Rattle.lone_partition.specs.Written.{IsMade};

use crate::output::Output;
use apex_types::{Moment, Name, PortId, Sink, StartCondition, TraceBuffer, Words};
use partition::Partition;
use partition_base::Executor;

/// The kind of a step of a partition.
#[derive(Drop)]
pub enum PartitionStep {
    /// It clears to a cold start, for a reason.
    Start(StartCondition),
    /// A message arrives at a port.
    Arrive(PortId, Words),
    /// The senders that wait at a port enter it.
    Admit(PortId),
    /// A message leaves the module by the channel with this name.
    GoOut(Name, Words),
    /// A fault of its hardware.
    BreakDown,
    /// A tick in its window.
    Tick,
}

/// Executes a step of a partition, on its part of the memory. The buffer then holds only its lines.
fn step_member<E: Executor>(
    partition: &mut Partition<E>,
    mem: &mut E::Mem,
    moment: Moment,
    step: &PartitionStep,
    trace: &mut TraceBuffer,
)
    requires { E.laid mem.old ≡ E.layout partition.old.executor }
    ensures fits { E.laid mem.new ≡ E.layout partition.new.executor }
    ensures member { let x = member_of E.Executor partition.old mem.old in
        member_of E.Executor partition.new mem.new
        ≡ with_world x (step_of moment.at step.now x).world }
    ensures lines { trace.new.text
        ≡ text_of (step_of moment.at step.now (member_of E.Executor partition.old mem.old)).lines }
{
    trace.clear();
    match step {
        PartitionStep::Start(condition) => partition.clear(mem, moment, *condition, trace),
        PartitionStep::Arrive(port, message) => partition.arrive(
            mem, moment, *port, message, trace,
        ),
        PartitionStep::Admit(port) => partition.admit(mem, moment, *port, trace),
        PartitionStep::GoOut(channel, message) => {
            partition.go_out(mem, moment, *channel, message, trace)
        }
        PartitionStep::BreakDown => partition.fault(mem, moment, trace),
        PartitionStep::Tick => partition.tick(mem, moment, trace),
    }
}

/// Executes a step of a partition on its part of the memory, and writes its lines.
pub fn write_step<E: Executor, S: Sink>(
    partition: &mut Partition<E>,
    mem: &mut E::Mem,
    moment: Moment,
    step: &PartitionStep,
    output: &mut Output<'_, S>,
)
    requires { E.laid mem.old ≡ E.layout partition.old.executor }
    ensures fits { E.laid mem.new ≡ E.layout partition.new.executor }
    ensures written { IsMade
        (goes (step_of moment.at step.now) (member_of E.Executor partition.old mem.old))
        (member_of E.Executor partition.new mem.new) (sent_of S.Sink output.old)
        (sent_of S.Sink output.new) }
{
    step_member(partition, mem, moment, step, output.trace);
    output.write();
}

/// Takes the first message out of a port, if it holds one, and writes the line of this. Returns the
/// message.
pub fn write_leave<E: Executor, S: Sink>(
    partition: &mut Partition<E>,
    mem: &mut E::Mem,
    moment: Moment,
    port: PortId,
    output: &mut Output<'_, S>,
) -> Option<Words>
    requires { E.laid mem.old ≡ E.layout partition.old.executor }
    ensures fits { E.laid mem.new ≡ E.layout partition.new.executor }
    ensures message { result ≡ leaving port (member_of E.Executor partition.old mem.old) }
    ensures written { IsMade
        (goes (leaves moment.at port) (member_of E.Executor partition.old mem.old))
        (member_of E.Executor partition.new mem.new) (sent_of S.Sink output.old)
        (sent_of S.Sink output.new) }
{
    output.trace.clear();
    let message = partition.move_one(mem, moment, port, output.trace);
    output.write();
    message
}
