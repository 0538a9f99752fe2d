//! An image that runs tick by tick.

ghost use Rattle.std.specs.Prelude.{◌≡◌, ◌<◌, ◌≤◌, ◌+◌, ◌-◌, ◌^◌, ℕ, List, Option, Result, Ok, false, is_none, IfOk, IfErr, OnOk};
ghost use Rattle.apex_types.specs.Limits.{MOST_TICKS};
ghost use Rattle.machine_meaning.specs.MachineMeaning.{verdict_for};
ghost use Rattle.module_meaning.specs.Module.{of_tick};
ghost use Rattle.image.specs.Views.{image_of};
ghost use Rattle.machine_meaning.specs.Image as meant;
ghost use Rattle.machine_meaning.specs.ImageLimits.{IsLawful};
ghost use Rattle.machine_meaning.specs.MachineMeaning.{machine_module, machine_trace};
ghost use Rattle.module.specs.Isolated.{WritesAlone};
ghost use Rattle.module.specs.Machines as machines;
ghost use Rattle.module.specs.Pieces.{AreQuiet};
ghost use Rattle.module.specs.Machines.{HasRunOn, HasSkipped, HasTicked, HaveTicked, fresh_machine, machine_of};
ghost use Rattle.module_meaning.specs.Standing.{lines_of};
ghost use Rattle.module.specs.Running.{AreRefused, RunsImage};
ghost use Rattle.module.specs.Written.{AreFrom};

use crate::fault::RunFault;
use crate::load_fault::LoadFault;
use crate::member::Module;
use apex_types::limits::MOST_TICKS;
use apex_types::{DeviceLine, Sink, TraceBuffer};
use image::Image;
use lone_partition::Output;
use module_base::{DeviceTextFault, read_devices};
use partition_base::PartitionProcessor;
use std::alloc::Global;

/// An image that runs tick by tick.
///
/// A program that embeds it loads an image, reads the text of its devices, and gives each tick the
/// lines of that tick. The ticks write what [`run`](crate::run) writes for this number of ticks.
#[derive(Drop)]
pub struct Machine {
    pub(crate) module: Module<PartitionProcessor>,
    /// The lines of a step on their way to the sink.
    trace: TraceBuffer,
    /// The sink failed.
    has_failed: bool,
}

impl Machine {
    /// The machine of an image, before its first tick.
    ///
    /// # Errors
    ///
    /// [`LoadFault::Memory`], and nothing of the image is left.
    pub fn load(alloc: Global, image: Image) -> Result<Machine, LoadFault>
        ensures { IfOk result (λ machine. machine_of machine ≡ fresh_machine (image_of image)) }
    {
        let module = Module::load(alloc, image)?;
        Ok(Machine {
            module,
            trace: TraceBuffer::new(alloc)?,
            has_failed: false,
        })
    }

    /// The lines of a device text for the image.
    ///
    /// # Errors
    ///
    /// [`RunFault::Device`] with the lowest rule that the first wrong line breaks; or out of
    /// memory.
    #[tactic(auto, using(crate::proofs::Devices::read_in_order))]
    pub fn devices(&self, alloc: Global, text: &[u8]) -> Result<Vec<DeviceLine>, RunFault>
        ensures taken { IfOk result
            (λ lines. verdict_for (machine_of self.now).image text.now ≡ Ok lines.items) }
        ensures order { IfOk result (λ lines. AreFrom 0 lines.items) }
        ensures refused { IfErr result
            (λ fault. AreRefused (verdict_for (machine_of self.now).image text.now) fault) }
    {
        match read_devices(alloc, &self.module.image, text) {
            Ok(lines) => Ok(lines),
            Err(DeviceTextFault::Line(fault)) => Err(RunFault::Device(fault)),
            Err(DeviceTextFault::Memory) => Err(RunFault::Memory),
        }
    }

    /// The next tick, from 0.
    pub fn now(&self) -> u64
        ensures { result ≡ (machine_of self.now).standing.now }
    {
        self.module.now.0
    }

    /// Whether the module is shut down, so that nothing happens any more.
    pub fn is_shut_down(&self) -> bool
        ensures { result ≡ is_none (machine_of self.now).standing.origin }
    {
        self.module.origin.is_none()
    }

    /// Executes some of `most` ticks together, all of them before the first of these device lines,
    /// which are of the next tick or later; returns how many. If it returns 0, the next tick has to
    /// be made separately.
    ///
    /// # Errors
    ///
    /// [`RunFault::Write`] if the sink fails: it has taken a prefix of the lines of these ticks.
    #[tactic(auto, using(crate::proofs::Passed::passed))]
    pub(crate) fn advance<S: Sink>(
        &mut self,
        lines: &[DeviceLine],
        most: u32,
        sink: &mut S,
    ) -> Result<u32, RunFault>
        requires sound { (machine_of self.old).failed ≡ false }
        requires soon { (machine_of self.old).standing.now + most ≤ MOST_TICKS }
        requires order { AreFrom (machine_of self.old).standing.now lines.now }
        requires failures { S.failures sink.old < 2 ^ 64 - 1 }
        ensures order { OnOk result (AreFrom (machine_of self.new).standing.now lines.now) }
        ensures run { HasRunOn lines.now most (machine_of self.old) (machine_of self.new)
            (S.taken sink.old) (S.taken sink.new) (S.failures sink.old) (S.failures sink.new)
            result }
    {
        let mut output = Output::new(&mut self.trace, sink);
        let count = self.module.advance(lines, most, &mut output);
        if output.has_failed() {
            self.has_failed = true;
            return Err(RunFault::Write);
        }
        Ok(count)
    }

    /// Skips some of `most` ticks in which nothing happens, unless a device line is of one of them;
    /// returns how many. So a caller with device lines asks for no tick of theirs. If it returns 0,
    /// the next tick has to be made.
    pub fn skip(&mut self, most: u32) -> u32
        ensures skipped { HasSkipped most (machine_of self.old) (machine_of self.new) result }
        ensures quiet { AreQuiet (machine_module (machine_of self.old).image).plan
            (machine_of self.old).standing result }
    {
        self.module.skip_still(most)
    }

    /// Makes the next tick, with its device lines in their order. The lines of its trace go into
    /// the sink; before the first tick, also the lines of the start.
    ///
    /// # Errors
    ///
    /// [`RunFault::Failed`] if the sink failed in an earlier tick; otherwise [`RunFault::Ticks`]
    /// after 2^40 ticks: nothing is changed, and nothing is written. [`RunFault::Write`] if the
    /// sink fails in this tick: it has taken a prefix of the tick's lines.
    #[tactic(auto, using(crate::proofs::Passed::passed))]
    pub fn tick<S: Sink>(&mut self, lines: &[DeviceLine], sink: &mut S) -> Result<(), RunFault>
        requires lines { of_tick (machine_of self.old).standing.now lines.now ≡ lines.now }
        requires failures { S.failures sink.old < 2 ^ 64 - 1 }
        ensures { HasTicked lines.now (machine_of self.old) (machine_of self.new) (S.taken sink.old)
            (S.taken sink.new) (S.failures sink.old) (S.failures sink.new) result }
    {
        if self.has_failed {
            return Err(RunFault::Failed);
        }
        if self.now() == MOST_TICKS {
            return Err(RunFault::Ticks);
        }
        let mut output = Output::new(&mut self.trace, sink);
        self.module.tick(lines, &mut output);
        let failed = output.has_failed();
        self.has_failed = failed;
        if failed {
            return Err(RunFault::Write);
        }
        Ok(())
    }
}

/// Calls of [`Machine::tick`] and [`Machine::skip`] for an image, in a row, that make n ticks, each
/// tick with its device lines, write what [`run`](crate::run) writes: the text of the trace of n
/// ticks, or a prefix of it if the sink fails. No call is refused for another reason.
#[tactic(auto, using(crate::proofs::Machines::calls_write_the_trace, crate::proofs::Machines::ticks_are_the_trace))]
pub fn ticks_make_the_trace()
    ensures written { (image : meant.Image) (lines : List DeviceLine) (calls n : ℕ)
        (last : machines.Machine) (old new : Option (List ℕ)) (before now : ℕ)
        (answer : Result (Unit {0}) RunFault)
        → n ≤ MOST_TICKS
        → HaveTicked lines calls n (fresh_machine image) last old new before now answer
        → RunsImage (machine_trace image lines n) old new answer }
    ensures lines { (image : meant.Image) (lines : List DeviceLine) (n : ℕ)
        → lines_of (machine_module image).plan lines n (fresh_machine image).standing
        ≡ machine_trace image lines n }
{}

/// For each partition of the image, such calls write what it shows when it runs alone: from its
/// slice of the image and the inputs that these device lines bring it, whatever code others run.
pub fn ticks_isolate_the_partitions()
    ensures { (image : meant.Image) (text : List ℕ) (lines : List DeviceLine) (calls n : ℕ)
        (last : machines.Machine) (old new : Option (List ℕ)) (before now : ℕ)
        → IsLawful image → verdict_for image text ≡ Ok lines → n ≤ MOST_TICKS
        → HaveTicked lines calls n (fresh_machine image) last old new before now (Ok tt)
        → WritesAlone image lines n old new }
{}
