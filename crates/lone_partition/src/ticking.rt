//! The tick of a partition after its inputs.

ghost use Rattle.std.specs.Prelude.{◌≡◌};
ghost use Rattle.isolation.specs.Alone.{sends_and_ticks, sends_ended, tick_alone, ticks_own};
ghost use Rattle.lone_partition.specs.Lines.{inputs_of};
ghost use Rattle.partition.specs.Members.{member_of};
ghost use Rattle.lone_partition.specs.Around.{around};
ghost use Rattle.lone_partition.specs.Outputs.{next_at, sent_of};
ghost use Rattle.lone_partition.specs.Written.{IsCourse, IsMade, done_in};

use crate::input::take_all;
use crate::output::Output;
use crate::sending::send_ports;
use crate::step::{PartitionStep, write_step};
use crate::surroundings::Surroundings;
use apex_types::{Moment, Sink};
use isolation::InputLine;
use partition::Partition;
use partition_base::Executor;

/// If its window has ended, its source ports send, in number order.
fn send_ended<E: Executor, S: Sink>(
    ends: bool,
    surroundings: &Surroundings,
    partition: &mut Partition<E>,
    mem: &mut E::Mem,
    moment: Moment,
    output: &mut Output<'_, S>,
)
    requires { E.laid mem.old ≡ E.layout partition.old.executor }
    ensures fits { E.laid mem.new ≡ E.layout partition.new.executor }
    ensures written { IsMade
        (sends_ended (around surroundings.now) moment.at
        (member_of E.Executor partition.old mem.old) ends)
        (member_of E.Executor partition.new mem.new) (sent_of S.Sink output.old)
        (sent_of S.Sink output.new) }
{
    if ends {
        let count = partition.kernel().port_count();
        send_ports(count, surroundings, partition, mem, moment, output);
    }
}

/// The partition spends the tick, if its window holds it.
fn tick_own<E: Executor, S: Sink>(
    owns: bool,
    partition: &mut Partition<E>,
    mem: &mut E::Mem,
    moment: Moment,
    output: &mut Output<'_, S>,
)
    requires { E.laid mem.old ≡ E.layout partition.old.executor }
    ensures fits { E.laid mem.new ≡ E.layout partition.new.executor }
    ensures written { IsMade (ticks_own moment.at (member_of E.Executor partition.old mem.old) owns)
        (member_of E.Executor partition.new mem.new) (sent_of S.Sink output.old)
        (sent_of S.Sink output.new) }
{
    if owns {
        write_step(partition, mem, moment, &PartitionStep::Tick, output);
    }
}

/// If its window has ended, its source ports send; then the partition spends the tick, if its
/// window holds it.
fn send_and_tick<E: Executor, S: Sink>(
    surroundings: &Surroundings,
    partition: &mut Partition<E>,
    mem: &mut E::Mem,
    moment: Moment,
    output: &mut Output<'_, S>,
)
    requires { E.laid mem.old ≡ E.layout partition.old.executor }
    ensures fits { E.laid mem.new ≡ E.layout partition.new.executor }
    ensures written { IsMade
        (done_in
        (sends_and_ticks (around surroundings.now) moment.at
        (member_of E.Executor partition.old mem.old)))
        (member_of E.Executor partition.new mem.new) (sent_of S.Sink output.old)
        (sent_of S.Sink output.new) }
{
    let ended = surroundings.schedule.ended(moment);
    let owner = surroundings.schedule.owner(moment);
    let ends = ended.is_some();
    send_ended(ends, surroundings, partition, mem, moment, output);
    tick_own(owner.is_some(), partition, mem, moment, output);
}

/// A tick of the lone partition, with its inputs of this tick. Returns the tick with the origin
/// valid from now on, or `None` if everything has ended.
pub fn tick<E: Executor, S: Sink>(
    surroundings: &Surroundings,
    lines: &[InputLine],
    partition: &mut Partition<E>,
    mem: &mut E::Mem,
    moment: Moment,
    output: &mut Output<'_, S>,
) -> Option<Moment>
    requires { E.laid mem.old ≡ E.layout partition.old.executor }
    ensures fits { E.laid mem.new ≡ E.layout partition.new.executor }
    ensures written { IsCourse
        (tick_alone (around surroundings.now) moment.at (inputs_of lines.now)
        (member_of E.Executor partition.old mem.old))
        (next_at result) (member_of E.Executor partition.new mem.new) (sent_of S.Sink output.old)
        (sent_of S.Sink output.new) }
{
    let last = take_all(surroundings.fault, lines, partition, mem, moment, output)?;
    send_and_tick(surroundings, partition, mem, last, output);
    Some(last)
}
