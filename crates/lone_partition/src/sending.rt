//! The messages that leave a partition, written line by line.

ghost use Rattle.std.specs.Prelude.{◌≡◌};
ghost use Rattle.module_meaning.specs.Table.{at_number};
ghost use Rattle.kernel_meaning.specs.Partition.{messages_to_move};
ghost use Rattle.isolation.specs.Alone.{goes_by_way, sends_message, sends_messages, sends_port, sends_ports};
ghost use Rattle.partition.specs.Members.{member_of};
ghost use Rattle.lone_partition.specs.Around.{around};
ghost use Rattle.lone_partition.specs.Outputs.{sent_of};
ghost use Rattle.lone_partition.specs.Written.{IsMade};

use crate::output::Output;
use crate::step::{PartitionStep, write_leave, write_step};
use crate::surroundings::Surroundings;
use apex_types::{Moment, Name, PortId, Sink, Words};
use partition::{Kernel, Partition};
use partition_base::Executor;

/// A message that has left its port leaves the module too, if there is a way out.
fn go_out<E: Executor, S: Sink>(
    way: Option<Name>,
    message: Words,
    partition: &mut Partition<E>,
    mem: &mut E::Mem,
    moment: Moment,
    output: &mut Output<'_, S>,
)
    requires { E.laid mem.old ≡ E.layout partition.old.executor }
    ensures fits { E.laid mem.new ≡ E.layout partition.new.executor }
    ensures written { IsMade
        (goes_by_way moment.at message way (member_of E.Executor partition.old mem.old))
        (member_of E.Executor partition.new mem.new) (sent_of S.Sink output.old)
        (sent_of S.Sink output.new) }
{
    if let Some(channel) = way {
        let step = PartitionStep::GoOut(channel, message);
        write_step(partition, mem, moment, &step, output);
    }
}

/// The first message of a port leaves it, and leaves the module if the port has a way out.
fn send_message<E: Executor, S: Sink>(
    surroundings: &Surroundings,
    partition: &mut Partition<E>,
    mem: &mut E::Mem,
    moment: Moment,
    port: PortId,
    output: &mut Output<'_, S>,
)
    requires { E.laid mem.old ≡ E.layout partition.old.executor }
    ensures fits { E.laid mem.new ≡ E.layout partition.new.executor }
    ensures written { IsMade
        (sends_message (around surroundings.now) moment.at port
        (member_of E.Executor partition.old mem.old))
        (member_of E.Executor partition.new mem.new) (sent_of S.Sink output.old)
        (sent_of S.Sink output.new) }
{
    if let Some(message) = write_leave(partition, mem, moment, port, output) {
        let way = surroundings.way_out(port);
        go_out(way, message, partition, mem, moment, output);
    }
}

/// Sends `count` messages of a port, one after another.
fn send_messages<E: Executor, S: Sink>(
    count: u8,
    surroundings: &Surroundings,
    partition: &mut Partition<E>,
    mem: &mut E::Mem,
    moment: Moment,
    port: PortId,
    output: &mut Output<'_, S>,
)
    requires { E.laid mem.old ≡ E.layout partition.old.executor }
    ensures fits { E.laid mem.new ≡ E.layout partition.new.executor }
    ensures written { IsMade
        (sends_messages count (around surroundings.now) moment.at port
        (member_of E.Executor partition.old mem.old))
        (member_of E.Executor partition.new mem.new) (sent_of S.Sink output.old)
        (sent_of S.Sink output.new) }
{
    for _ in 0..count {
        send_message(surroundings, partition, mem, moment, port, output);
    }
}

/// How many messages a source port holds; `None` if it is no source port.
fn count_to_send(kernel: &Kernel, port: PortId) -> Option<u8>
    ensures { result ≡ messages_to_move (at_number kernel.now.ports.ports port.0) }
{
    match kernel.is_source(port) {
        Some(true) => kernel.message_count(port),
        _ => None,
    }
}

/// Sends all messages of a source port, the oldest first; then admits the senders that wait for
/// room in it.
fn send_port<E: Executor, S: Sink>(
    surroundings: &Surroundings,
    partition: &mut Partition<E>,
    mem: &mut E::Mem,
    moment: Moment,
    port: PortId,
    output: &mut Output<'_, S>,
)
    requires { E.laid mem.old ≡ E.layout partition.old.executor }
    ensures fits { E.laid mem.new ≡ E.layout partition.new.executor }
    ensures written { IsMade
        (sends_port (around surroundings.now) moment.at port
        (member_of E.Executor partition.old mem.old))
        (member_of E.Executor partition.new mem.new) (sent_of S.Sink output.old)
        (sent_of S.Sink output.new) }
{
    let Some(count) = count_to_send(partition.kernel(), port) else {
        return;
    };
    send_messages(count, surroundings, partition, mem, moment, port, output);
    write_step(partition, mem, moment, &PartitionStep::Admit(port), output);
}

/// Sends the messages of the first `count` ports of the partition, in number order.
pub fn send_ports<E: Executor, S: Sink>(
    count: u8,
    surroundings: &Surroundings,
    partition: &mut Partition<E>,
    mem: &mut E::Mem,
    moment: Moment,
    output: &mut Output<'_, S>,
)
    requires { E.laid mem.old ≡ E.layout partition.old.executor }
    ensures fits { E.laid mem.new ≡ E.layout partition.new.executor }
    ensures written { IsMade
        (sends_ports count 1 (around surroundings.now) moment.at
        (member_of E.Executor partition.old mem.old))
        (member_of E.Executor partition.new mem.new) (sent_of S.Sink output.old)
        (sent_of S.Sink output.new) }
{
    for place in 0..count {
        let port = PortId(place + 1);
        send_port(surroundings, partition, mem, moment, port, output);
    }
}
