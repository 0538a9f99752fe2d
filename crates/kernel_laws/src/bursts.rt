//! Laws on many ticks together.
//!
//! A burst is a number of ticks, or those up to the first that reports something: a request to the
//! kernel by a process, a line by a partition.

ghost use Rattle.std.specs.Prelude.{◌≡◌, ℕ, ◌+◌, ◌<◌, ◌≤◌, Some, List, if◌then◌else◌};
ghost use Rattle.apex_types.specs.declared.device.DeviceLine.{DeviceLine};
ghost use Rattle.apex_types.specs.declared.identity.Runner.{Runner};
ghost use Rattle.engine_meaning.specs.Engine.{Engine};
ghost use Rattle.machine_meaning.specs.MachineControl.{MachineControl};
ghost use Rattle.module_meaning.specs.Module.{Plan, trace_from};
ghost use Rattle.kernel_meaning.specs.Partition.{Member, World, chooses_with_handler};
ghost use Rattle.kernel_meaning.specs.Step.{nothing};
ghost use Rattle.kernel_meaning.specs.Windows.{tick_from};
ghost use Rattle.kernel_laws.specs.Bursts.{later};
ghost use Rattle.kernel_laws.specs.Quiet.{AreStill, HaveNoLines, HasNothingDue};
ghost use Rattle.kernel_laws.specs.Running.{is_silent, advances_by, burst_of, lifted};

/// Ticks in which nothing happens are one jump.
pub fn still_ticks_are_one_jump()
    ensures { (plan : Plan) (devices : List DeviceLine) (origin from limit : ℕ)
        (members : List (Member MachineControl))
        → AreStill origin from limit members → (n m t : ℕ) → from ≤ t → t + n ≤ limit
        → HaveNoLines t (t + n) devices
        → trace_from plan devices (n + m) (Some (tick_from origin t)) members
        ≡ trace_from plan devices m (Some (tick_from origin (t + n))) members }
{}

/// While nothing is due and the choice stays, ticks of a partition are a burst of its current
/// runner.
pub fn ticks_are_a_burst_of_the_running_one()
    ensures { (e : Engine MachineControl) (origin : ℕ) (p : Runner) (n m t : ℕ)
        (w : World MachineControl) → w.kernel.processes.running ≡ Some p
        → chooses_with_handler w.kernel ≡ nothing w.kernel
        → ((i : ℕ) → i < n → HasNothingDue (tick_from origin (t + i)) w.kernel)
        → let b = burst_of e n p w in
        let l = lifted e origin p w t b in
        advances_by e origin (b.ticks + m) w t
        ≡ (if is_silent l.told then later b.ticks (advances_by e origin m l.control l.words)
        else l) }
{}
