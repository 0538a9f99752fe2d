//! The processor as the kernel sees it: what runs the runners, over a partition's memory.

ghost use Rattle.std.specs.Prelude.{true, ◌≡◌, ◌≤◌, ℕ, ℤ, List, Option, Some, None, map, slice_set};
ghost use Rattle.apex_types.specs.Limits.{MOST_WORDS};
ghost use Rattle.apex_types.specs.Runners.{place_of};
ghost use Rattle.engine_meaning.specs.Engine.{Engine};
ghost use Rattle.kernel_meaning.specs.Partition.{control_at, no_control, replied, message_from, written};
ghost use Rattle.kernel_laws.specs.Bursts.{is_nothing};
ghost use Rattle.processor.specs.Views.{asks_of};
ghost use Rattle.partition_base.specs.Bursting.{burst_at, ticked_at};

use apex_types::Runner;
use processor::{Burst, Outcome};

/// Runs INIT, the error handler and the processes of one partition. A runner without a control has
/// nothing left to do; a process that does not exist never has a control. No call allocates memory.
///
/// Each call borrows the partition's memory. Its layout, the number of words of each part, is that
/// of the executor, and never changes.
pub trait Executor {
    /// The partition's memory: its data, and what else its runners need.
    type Mem;

    ghost Control: { Type 0 };

    ghost engine: { Self → Engine Control };

    ghost controls: { Self → Self.Mem → List (Option Control) };

    ghost words: { Self.Mem → List ℤ };

    ghost initial: { Self → List ℤ };

    ghost layout: { Self → List ℕ };

    ghost laid: { Self.Mem → List ℕ };

    /// Begins the body of the runner afresh.
    fn start(&mut self, mem: &mut Self::Mem, runner: Runner)
        requires { laid mem.old ≡ layout self.old }
        ensures fits { laid mem.new ≡ layout self.new }
        ensures engine { engine self.new ≡ engine self.old }
        ensures initial { initial self.new ≡ initial self.old }
        ensures controls { controls self.new mem.new
            ≡ slice_set (controls self.old mem.old) (place_of runner)
            (Some ((engine self.old).start runner)) }
        ensures words { words mem.new ≡ words mem.old };

    /// Stops the runner: it has nothing left to do.
    fn stop(&mut self, mem: &Self::Mem, runner: Runner)
        requires { laid mem.now ≡ layout self.old }
        ensures fits { laid mem.now ≡ layout self.new }
        ensures engine { engine self.new ≡ engine self.old }
        ensures initial { initial self.new ≡ initial self.old }
        ensures controls { controls self.new mem.now ≡ slice_set (controls self.old mem.now) (place_of runner) None };

    /// Stops all runners: none has anything left to do.
    fn stop_all(&mut self, mem: &Self::Mem)
        requires { laid mem.now ≡ layout self.old }
        ensures fits { laid mem.now ≡ layout self.new }
        ensures engine { engine self.new ≡ engine self.old }
        ensures initial { initial self.new ≡ initial self.old }
        ensures controls { controls self.new mem.now ≡ map no_control (controls self.old mem.now) };

    /// Executes one tick of the runner.
    fn tick(&mut self, mem: &mut Self::Mem, runner: Runner) -> Outcome
        requires { laid mem.old ≡ layout self.old }
        ensures fits { laid mem.new ≡ layout self.new }
        ensures engine { engine self.new ≡ engine self.old }
        ensures initial { initial self.new ≡ initial self.old }
        ensures ticked { record {
          control = controls self.new mem.new;
          words = words mem.new;
          asks = asks_of result;
        }
            ≡ ticked_at (engine self.old) (place_of runner) (controls self.old mem.old)
            (words mem.old) };

    /// Executes `k` ticks of the runner, or those up to the first that makes a request: a service
    /// call, a fault, or the end of the body. Returns the number of ticks and the outcome of the
    /// last.
    fn advance(&mut self, mem: &mut Self::Mem, runner: Runner, k: u32) -> Burst
        requires { laid mem.old ≡ layout self.old }
        ensures fits { laid mem.new ≡ layout self.new }
        ensures engine { engine self.new ≡ engine self.old }
        ensures initial { initial self.new ≡ initial self.old }
        ensures burst { record {
          control = controls self.new mem.new;
          words = words mem.new;
          told = asks_of result.outcome;
          ticks = result.ticks;
        }
            ≡ burst_at (engine self.old) k (place_of runner) (controls self.old mem.old)
            (words mem.old) }
        ensures whole { is_nothing (asks_of result.outcome) ≡ true → result.ticks ≡ k };

    /// Replies to the runner's service call: the code, then the outputs.
    fn reply(&mut self, mem: &mut Self::Mem, runner: Runner, answer: &[i64])
        requires { laid mem.old ≡ layout self.old }
        ensures fits { laid mem.new ≡ layout self.new }
        ensures engine { engine self.new ≡ engine self.old }
        ensures initial { initial self.new ≡ initial self.old }
        ensures controls { controls self.new mem.new
            ≡ slice_set (controls self.old mem.old) (place_of runner)
            (replied (engine self.old) (control_at (controls self.old mem.old) (place_of runner))
            answer.now) }
        ensures words { words mem.new ≡ words mem.old };

    /// At most `count` words of the data, from `place` on.
    fn read<'a>(&self, mem: &'a Self::Mem, place: i64, count: u8) -> &'a [i64]
        ensures { result.now ≡ message_from place count (words mem.now) };

    /// Writes words into the data, one after another from `place` on. A word whose place is outside
    /// of the data is dropped.
    fn write(&self, mem: &mut Self::Mem, place: i64, array: &[i64])
        requires { laid mem.old ≡ layout self.now }
        ensures fits { laid mem.new ≡ layout self.now }
        ensures controls { controls self.now mem.new ≡ controls self.now mem.old }
        ensures words { words mem.new ≡ written place array.now (words mem.old) };

    /// Restores the initial data.
    fn restore(&self, mem: &mut Self::Mem)
        requires { laid mem.old ≡ layout self.now }
        ensures fits { laid mem.new ≡ layout self.now }
        ensures controls { controls self.now mem.new ≡ controls self.now mem.old }
        ensures words { words mem.new ≡ initial self.now };
}
