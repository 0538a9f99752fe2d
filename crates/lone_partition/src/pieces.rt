//! Many ticks of one partition together: pieces of its windows, and ticks in which nothing happens.

ghost use Rattle.std.specs.Prelude.{◌≡◌, ◌≤◌, ◌<◌, ◌+◌, List};
ghost use Rattle.apex_types.specs.Limits.{MOST_TICKS};
ghost use Rattle.isolation.specs.Alone.{goes};
ghost use Rattle.isolation.specs.declared.input.InputLine.{InputLine};
ghost use Rattle.partition.specs.Members.{member_of};
ghost use Rattle.lone_partition.specs.Around.{around};
ghost use Rattle.lone_partition.specs.Lines.{AreFrom, tick_of_input};
ghost use Rattle.lone_partition.specs.Outputs.{sent_of};
ghost use Rattle.lone_partition.specs.Pieces.{HasRunSome, ticks_by};
ghost use Rattle.lone_partition.specs.Written.{IsMade};

use crate::lines::{at_most, until_line};
use crate::output::Output;
use crate::running::later;
use crate::surroundings::Surroundings;
use apex_types::{Moment, Sink};
use isolation::InputLine;
use partition::Partition;
use partition_base::Executor;

/// Executes `most` ticks of the partition, or fewer, once their lines fill the buffer, and writes
/// these lines; returns how many.
#[tactic(auto, using(crate::proofs::Ticks::buffer_some))]
fn write_advance<E: Executor, S: Sink>(
    partition: &mut Partition<E>,
    mem: &mut E::Mem,
    moment: Moment,
    most: u32,
    output: &mut Output<'_, S>,
) -> u32
    requires fits { E.laid mem.old ≡ E.layout partition.old.executor }
    requires soon { moment.at.now.0 + most ≤ MOST_TICKS }
    ensures fits { E.laid mem.new ≡ E.layout partition.new.executor }
    ensures within { result ≤ most }
    ensures some { 0 < most → 0 < result }
    ensures written { IsMade
        (goes (ticks_by result moment.at) (member_of E.Executor partition.old mem.old))
        (member_of E.Executor partition.new mem.new) (sent_of S.Sink output.old)
        (sent_of S.Sink output.new) }
{
    output.trace.clear();
    let count = partition.advance(mem, moment, most, output.trace);
    output.write();
    count
}

/// Executes `most` ticks of the partition, and writes their lines, a buffer at a time; returns how
/// many. Once the sink has failed it stops, but not before the first buffer.
pub fn write_piece<E: Executor, S: Sink>(
    partition: &mut Partition<E>,
    mem: &mut E::Mem,
    moment: Moment,
    most: u32,
    output: &mut Output<'_, S>,
) -> u32
    requires fits { E.laid mem.old ≡ E.layout partition.old.executor }
    requires soon { moment.at.now.0 + most ≤ MOST_TICKS }
    ensures fits { E.laid mem.new ≡ E.layout partition.new.executor }
    ensures within { result ≤ most }
    ensures some { 0 < most → 0 < result }
    ensures written { IsMade
        (goes (ticks_by result moment.at) (member_of E.Executor partition.old mem.old))
        (member_of E.Executor partition.new mem.new) (sent_of S.Sink output.old)
        (sent_of S.Sink output.new) }
{
    let mut left = most - write_advance(partition, mem, moment, most, output);
    while left > 0 && !output.has_failed() {
        let now = later(moment, most - left);
        left -= write_advance(partition, mem, now, left, output);
    }
    most - left
}

/// Executes some of `most` ticks, either all inside its window or all outside; returns how many. 0
/// if a window of the partition ends at the first tick, since its messages leave then.
fn advance_window<E: Executor, S: Sink>(
    surroundings: &Surroundings,
    partition: &mut Partition<E>,
    mem: &mut E::Mem,
    moment: Moment,
    most: u32,
    output: &mut Output<'_, S>,
) -> u32
    requires fits { E.laid mem.old ≡ E.layout partition.old.executor }
    requires soon { moment.at.now.0 + most ≤ MOST_TICKS }
    ensures fits { E.laid mem.new ≡ E.layout partition.new.executor }
    ensures run { (lines : List InputLine) → AreFrom tick_of_input (moment.at.now.0 + most) lines
        → HasRunSome (around surroundings.now) lines most moment.at
        (member_of E.Executor partition.old mem.old) (member_of E.Executor partition.new mem.new)
        (sent_of S.Sink output.old) (sent_of S.Sink output.new) result }
{
    let schedule = &surroundings.schedule;
    if schedule.ended(moment).is_some() {
        return 0;
    }
    let count = at_most(schedule.until_change(moment), most);
    match schedule.owner(moment) {
        Some(_) => write_piece(partition, mem, moment, count, output),
        None => count,
    }
}

/// Executes some of `most` ticks together, all of them before the first of these inputs; returns
/// how many. 0 if the next tick has to be executed separately: one with an input, or one at which a
/// window of the partition ends.
pub fn advance<E: Executor, S: Sink>(
    surroundings: &Surroundings,
    lines: &[InputLine],
    partition: &mut Partition<E>,
    mem: &mut E::Mem,
    moment: Moment,
    most: u32,
    output: &mut Output<'_, S>,
) -> u32
    requires fits { E.laid mem.old ≡ E.layout partition.old.executor }
    requires soon { moment.at.now.0 + most ≤ MOST_TICKS }
    requires order { AreFrom tick_of_input moment.at.now.0 lines.now }
    ensures fits { E.laid mem.new ≡ E.layout partition.new.executor }
    ensures order { AreFrom tick_of_input (moment.at.now.0 + result) lines.now }
    ensures run { HasRunSome (around surroundings.now) lines.now most moment.at
        (member_of E.Executor partition.old mem.old) (member_of E.Executor partition.new mem.new)
        (sent_of S.Sink output.old) (sent_of S.Sink output.new) result }
{
    let quiet = until_line(lines, moment.at.now, most);
    let still = partition.kernel().still_ticks(moment, quiet);
    if still > 0 {
        return still;
    }
    advance_window(surroundings, partition, mem, moment, quiet, output)
}
