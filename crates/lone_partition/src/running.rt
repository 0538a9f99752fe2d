//! A partition that runs alone, tick by tick.

ghost use Rattle.std.specs.Prelude.{◌≡◌, ◌≤◌, ◌<◌, ◌+◌, ◌-◌, ◌^◌, Some};
ghost use Rattle.apex_types.specs.Limits.{MOST_TICKS};
ghost use Rattle.apex_types.specs.Line.{text_of};
ghost use Rattle.module_meaning.specs.Module.{first_tick};
ghost use Rattle.kernel_meaning.specs.Windows.{at_tick};
ghost use Rattle.isolation.specs.Alone.{alone_from, trace_alone};
ghost use Rattle.partition.specs.Members.{member_of};
ghost use Rattle.lone_partition.specs.Around.{around};
ghost use Rattle.lone_partition.specs.Lines.{AreInOrder};
ghost use Rattle.lone_partition.specs.Lone.{alone_of};
ghost use Rattle.lone_partition.specs.Outputs.{sent_of};
ghost use Rattle.lone_partition.specs.Sent.{HasSent};
ghost use Rattle.lone_partition.specs.Written.{AreWritten};

use crate::lines::split_tick;
use crate::lone::LonePartition;
use crate::output::Output;
use crate::pieces::advance;
use crate::step::{PartitionStep, write_step};
use crate::surroundings::Surroundings;
use crate::ticking::tick;
use apex_types::{At, Moment, PartitionId, Sink, SinkFault, StartCondition, Ticks, TraceBuffer};
use isolation::InputLine;
use partition::Partition;
use partition_base::Executor;

/// The first tick of a run.
fn first() -> Moment
    ensures { result.at ≡ first_tick }
{
    Moment {
        at: At {
            now: Ticks(0),
            origin: Ticks(0),
        },
    }
}

/// The most ticks that one call makes.
const MOST_AT_ONCE: u32 = 4_000_000_000;

/// The memory of a lone partition has one part, whose number is 1.
const ONLY_PART: PartitionId = PartitionId(1);

impl LonePartition {
    /// Runs the partition for `ticks` ticks with its inputs, and writes the text of its trace into
    /// the sink. After a shutdown nothing happens.
    ///
    /// # Errors
    ///
    /// The sink failed; it has taken a prefix of the text.
    #[tactic(auto, using(crate::proofs::Only::only_lent))]
    pub fn run<S: Sink>(
        self,
        inputs: &[InputLine],
        ticks: u64,
        sink: &mut S,
    ) -> Result<(), SinkFault>
        requires ticks { ticks ≤ MOST_TICKS }
        requires order { AreInOrder inputs.now }
        requires failures { S.failures sink.old < 2 ^ 64 - 1 }
        ensures { AreWritten (trace_alone (alone_of self) inputs.now ticks) (S.taken sink.old)
            (S.taken sink.new) (S.failures sink.old) (S.failures sink.new) result }
    {
        let LonePartition {
            surroundings,
            mut partition,
            mut memory,
            mut trace,
        } = self;
        let mem = memory.lend(ONLY_PART);
        run_alone(
            &surroundings,
            &mut partition,
            mem,
            inputs,
            ticks,
            &mut trace,
            sink,
        )
    }
}

/// Runs a partition for `ticks` ticks from its start; its lines go into the sink.
fn run_alone<E: Executor, S: Sink>(
    surroundings: &Surroundings,
    partition: &mut Partition<E>,
    mem: &mut E::Mem,
    inputs: &[InputLine],
    ticks: u64,
    trace: &mut TraceBuffer,
    sink: &mut S,
) -> Result<(), SinkFault>
    requires fits { E.laid mem.old ≡ E.layout partition.old.executor }
    requires ticks { ticks ≤ MOST_TICKS }
    requires order { AreInOrder inputs.now }
    requires failures { S.failures sink.old < 2 ^ 64 - 1 }
    ensures { AreWritten
        (trace_alone
        (record {
          around = around surroundings.now;
          member = member_of E.Executor partition.old mem.old;
        })
        inputs.now ticks)
        (S.taken sink.old) (S.taken sink.new) (S.failures sink.old) (S.failures sink.new) result }
{
    let mut output = Output::new(trace, sink);
    start_and_run(surroundings, partition, mem, inputs, ticks, &mut output);
    if output.has_failed() {
        return Err(SinkFault);
    }
    Ok(())
}

/// Starts a partition, and executes `ticks` ticks; does nothing for 0 ticks.
fn start_and_run<E: Executor, S: Sink>(
    surroundings: &Surroundings,
    partition: &mut Partition<E>,
    mem: &mut E::Mem,
    inputs: &[InputLine],
    ticks: u64,
    output: &mut Output<'_, S>,
)
    requires fits { E.laid mem.old ≡ E.layout partition.old.executor }
    requires ticks { ticks ≤ MOST_TICKS }
    requires order { AreInOrder inputs.now }
    ensures { HasSent (sent_of S.Sink output.old) (sent_of S.Sink output.new)
        (text_of
        (trace_alone
        (record {
          around = around surroundings.now;
          member = member_of E.Executor partition.old mem.old;
        })
        inputs.now ticks)) }
{
    if ticks == 0 {
        return;
    }
    let start = PartitionStep::Start(StartCondition::NormalStart);
    write_step(partition, mem, first(), &start, output);
    run_ticks(surroundings, partition, mem, inputs, ticks, output);
}

/// Executes `ticks` ticks from the first one on. After a shutdown, or once the sink has failed,
/// nothing happens.
fn run_ticks<E: Executor, S: Sink>(
    surroundings: &Surroundings,
    partition: &mut Partition<E>,
    mem: &mut E::Mem,
    inputs: &[InputLine],
    ticks: u64,
    output: &mut Output<'_, S>,
)
    requires fits { E.laid mem.old ≡ E.layout partition.old.executor }
    requires ticks { ticks ≤ MOST_TICKS }
    requires order { AreInOrder inputs.now }
    ensures { HasSent (sent_of S.Sink output.old) (sent_of S.Sink output.new)
        (text_of
        (alone_from (around surroundings.now) inputs.now ticks (Some first_tick)
        (member_of E.Executor partition.old mem.old))) }
{
    let mut moment = first();
    let mut left = ticks;
    let mut lines = inputs;
    while left > 0 && !output.has_failed() {
        let most = at_once(left);
        let count = advance(surroundings, lines, partition, mem, moment, most, output);
        if count > 0 {
            moment = later(moment, count);
            left -= u64::from(count);
            continue;
        }
        let (own, rest) = split_tick(lines, moment.at.now);
        let Some(last) = tick(surroundings, own, partition, mem, moment, output) else {
            return;
        };
        moment = later(last, 1);
        lines = rest;
        left -= 1;
    }
}

/// `ticks`, or the most that one call makes.
fn at_once(ticks: u64) -> u32
    ensures { result ≤ ticks }
{
    if ticks < u64::from(MOST_AT_ONCE) {
        ticks as u32
    } else {
        MOST_AT_ONCE
    }
}

/// The moment `count` ticks after `moment`, with the same origin.
pub(crate) fn later(moment: Moment, count: u32) -> Moment
    requires { moment.at.now.0 + count ≤ MOST_TICKS }
    ensures { result.at ≡ at_tick moment.at (moment.at.now.0 + count) }
{
    Moment {
        at: At {
            now: Ticks(moment.at.now.0 + u64::from(count)),
            origin: moment.at.origin,
        },
    }
}
