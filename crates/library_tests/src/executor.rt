//! An executor that plays scripts, which list the outcomes of the ticks of each runner. It takes
//! the place of the processor, to define what the processes of a partition do.

ghost use Rattle.std.specs.Prelude.{◌≡◌, map};
ghost use Rattle.kernel_meaning.specs.Partition.{no_control};
ghost use Rattle.library_tests.specs.Plays.{control_of, script_of};

use crate::part::Part;
use apex_types::Runner;
use partition_base::{Executor, message, put};
use processor::{Burst, Outcome};
use regions::PartitionMem;

/// Plays the scripts of INIT, of the error handler and of the processes, in this order.
#[derive(Drop)]
pub struct Scripted {
    pub parts: Vec<Part>,
    pub initial: Vec<i64>,
    calls: u64,
}

impl Scripted {
    ghost use Rattle.std.specs.Prelude.{◌≡◌};

    /// Parts that are not begun, and the initial data.
    pub fn new(parts: Vec<Part>, initial: Vec<i64>) -> Scripted
        ensures parts { result.parts ≡ parts }
        ensures initial { result.initial ≡ initial }
        ensures calls { result.calls ≡ 0 }
    {
        Scripted {
            parts,
            initial,
            calls: 0,
        }
    }

    /// The number of calls for ticks, for one or for many together.
    pub fn calls(&self) -> u64
        ensures { result ≡ self.now.calls }
    {
        self.calls
    }
}

/// No part has anything left to do.
#[tactic(auto, using(crate::proofs::Parts::views))]
fn stop_each(parts: &mut Vec<Part>)
    ensures controls { map control_of parts.new.items
        ≡ map no_control (map control_of parts.old.items) }
    ensures scripts { map script_of parts.new.items ≡ map script_of parts.old.items }
{
    for part in parts.iter_mut() {
        part.stop();
    }
}

impl Executor for Scripted {
    ghost use Rattle.std.specs.Prelude.{List};
    ghost use Rattle.engine_meaning.specs.Engine.{Asks};
    ghost use Rattle.library_tests.specs.Plays.{engine_of, controls_of, initial_of, layout_of, laid_of};

    type Mem = PartitionMem;

    ghost Control = { List Asks };

    ghost engine = { engine_of };

    ghost controls = { controls_of };

    ghost words = { λ s. s.words };

    ghost initial = { initial_of };

    ghost layout = { layout_of };

    ghost laid = { laid_of };

    #[tactic(auto, using(crate::proofs::Parts::views))]
    fn start(&mut self, _mem: &mut PartitionMem, runner: Runner) {
        if let Some(part) = self.parts.get_mut(runner.place()) {
            part.begin();
        }
    }

    #[tactic(auto, using(crate::proofs::Parts::views))]
    fn stop(&mut self, _mem: &PartitionMem, runner: Runner) {
        if let Some(part) = self.parts.get_mut(runner.place()) {
            part.stop();
        }
    }

    fn stop_all(&mut self, _mem: &PartitionMem) {
        stop_each(&mut self.parts);
    }

    #[tactic(auto, using(crate::proofs::Parts::views))]
    fn tick(&mut self, _mem: &mut PartitionMem, runner: Runner) -> Outcome {
        self.calls = self.calls.saturating_add(1);
        match self.parts.get_mut(runner.place()) {
            Some(part) => part.tick(),
            None => Outcome::Busy,
        }
    }

    #[tactic(auto, using(crate::proofs::Parts::views))]
    fn advance(&mut self, _mem: &mut PartitionMem, runner: Runner, k: u32) -> Burst {
        self.calls = self.calls.saturating_add(1);
        match self.parts.get_mut(runner.place()) {
            Some(part) => part.advance(k),
            None => Burst {
                ticks: k,
                outcome: Outcome::Busy,
            },
        }
    }

    #[tactic(auto, using(crate::proofs::Parts::views))]
    fn reply(&mut self, _mem: &mut PartitionMem, _runner: Runner, _answer: &[i64]) {}

    fn read<'a>(&self, mem: &'a PartitionMem, place: i64, count: u8) -> &'a [i64] {
        message(mem.data(), place, count)
    }

    fn write(&self, mem: &mut PartitionMem, place: i64, array: &[i64]) {
        if place >= 0 {
            put(mem, place.unsigned_abs() as usize, array);
        }
    }

    fn restore(&self, mem: &mut PartitionMem) {
        mem.restore(&self.initial);
    }
}
