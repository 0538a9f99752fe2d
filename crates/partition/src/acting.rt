//! Performs the kernel's actions, and records the lines as events.

ghost use Rattle.std.specs.Prelude.{◌≡◌, ◌≤◌, ◌+◌, ◌++◌, length, slice_get};
ghost use Rattle.kernel_meaning.specs.Partition.{line, told};
ghost use Rattle.partition.specs.Members.{member_at, acts_at, acts_all, IsTold};

use crate::kernel::Kernel;
use apex_types::{ActionKind, EventLog, Moment, Name, Out};
use partition_base::Executor;

/// Performs the kernel's action at `index`, if there is one, on the processor, on the memory or on
/// the errors that wait for the handler.
fn act<E: Executor>(
    kernel: &mut Kernel,
    executor: &mut E,
    mem: &mut E::Mem,
    out: &Out,
    index: usize,
)
    requires fits { E.laid mem.old ≡ E.layout executor.old }
    ensures fits { E.laid mem.new ≡ E.layout executor.new }
    ensures member { member_at E.Executor kernel.new executor.new mem.new
        ≡ acts_at (slice_get out.now.actions index)
        (member_at E.Executor kernel.old executor.old mem.old) }
{
    let Some((kind, words)) = out.action(index) else {
        return;
    };
    match kind {
        ActionKind::Begin(runner) => executor.start(mem, runner),
        ActionKind::Stop(runner) => executor.stop(mem, runner),
        ActionKind::StopAll => executor.stop_all(mem),
        ActionKind::Reply(runner) => executor.reply(mem, runner, words),
        ActionKind::Restore => executor.restore(mem),
        ActionKind::Write(place) => executor.write(mem, place, words),
        ActionKind::Queue(error, process) => kernel.errors.queue(error, process, words),
    }
}

/// Performs all actions of a step, in order.
pub(crate) fn act_all<E: Executor>(
    kernel: &mut Kernel,
    executor: &mut E,
    mem: &mut E::Mem,
    out: &Out,
)
    requires { E.laid mem.old ≡ E.layout executor.old }
    ensures fits { E.laid mem.new ≡ E.layout executor.new }
    ensures member { member_at E.Executor kernel.new executor.new mem.new
        ≡ acts_all out.now.actions (member_at E.Executor kernel.old executor.old mem.old) }
{
    for place in 0..out.action_count() {
        act(kernel, executor, mem, out, place);
    }
}

/// Records the lines of a step as events of the partition.
pub(crate) fn tell<L: EventLog>(name: Name, moment: Moment, out: &Out, log: &mut L)
    requires { length out.now.lines ≤ L.room log.old }
    ensures told { IsTold L.EventLog log.old log.new (told name moment.at out.now.lines) }
    ensures few { L.room log.old ≤ L.room log.new + length out.now.lines }
{
    let partition = Some(name);
    for place in 0..out.line_count() {
        if let Some((kind, words)) = out.line(place) {
            log.tell(moment.at.now, &partition, kind, words);
        }
    }
}
