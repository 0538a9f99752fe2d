//! The kernel's state of one partition, in parts with an owner each.

ghost use Rattle.std.specs.Prelude.{◌≡◌, ◌<◌, ◌≤◌, ◌+◌, ℕ, IfOk, true};
ghost use Rattle.apex_types.specs.Room.{HasRoom, Grows};
ghost use Rattle.kernel_meaning.specs.Kernel.{of_processes};
ghost use Rattle.kernel_meaning.specs.Partition as tick;
ghost use Rattle.kernel_meaning.specs.PartitionServices.{next_release_of};
ghost use Rattle.kernel_meaning.specs.Processes.{subject};
ghost use Rattle.kernel_meaning.specs.Made.{IsMade};
ghost use Rattle.kernel_meaning.specs.Step.{nothing};
ghost use Rattle.kernel_meaning.specs.Windows.{tick_from};
ghost use Rattle.kernel_laws.specs.Quiet.{HasNothingDue};
ghost use Rattle.partition.specs.Fresh.{idle_kernel};
ghost use Rattle.partition.specs.View.{fixed_of};
ghost use Rattle.process_table_base.specs.declared.rooms.TheConstants.{ACTIONS_TO_TREAT_DUE, LINES_TO_TREAT_DUE};
ghost use Rattle.partition.specs.declared.rooms.TheConstants.{ACTIONS_TO_CHOOSE, LINES_TO_CHOOSE};

use crate::fixed::Fixed;
use crate::partition::PartitionRows;
use apex_types::{ErrorKind, Mode, Moment, Name, Out, Runner, StartCondition, Subject};
use health::{Errors, free_places, handler_stays, start_handler};
use ports::Ports;
use process_table_base::{Points, ProcessRows, ProcessTable};
use std::alloc::{AllocError, Global};
use std::marker::Model;
use sync_objects_base::Objects;

/// The state of a partition other than its controls and its data. A contract sees it as the kernel
/// of the definitions.
#[derive(Drop)]
pub struct Kernel {
    pub(crate) fixed: Fixed,
    pub(crate) mode: Mode,
    pub(crate) condition: StartCondition,
    pub(crate) processes: ProcessTable,
    pub(crate) objects: Objects,
    pub(crate) ports: Ports,
    pub(crate) errors: Errors,
}

impl Model for Kernel {
    ghost use Rattle.kernel_meaning.specs.Kernel as meaning;

    ghost Value = { meaning.Kernel };

    ghost use Rattle.partition.specs.View.{kernel_of};

    ghost view = { kernel_of };
}

impl Kernel {
    /// The kernel of a section's partition with these ports, in idle mode: no process, object or
    /// port is created, there is no message, and no error waits. `AllocError`: out of memory.
    pub fn new(alloc: Global, fixed: Fixed, rows: PartitionRows<'_>) -> Result<Kernel, AllocError>
        ensures { IfOk result
            (λ kernel.
            kernel ≡ idle_kernel (fixed_of fixed) rows.entry.ports.now rows.entry.section.now) }
    {
        let section = rows.section;
        let processes = ProcessRows {
            rows: &section.processes,
        };
        Ok(Kernel {
            fixed,
            mode: Mode::Idle,
            condition: StartCondition::NormalStart,
            processes: ProcessTable::new(alloc, processes)?,
            objects: Objects::new(
                alloc,
                &section.semaphores,
                section.events,
                &section.buffers,
                &section.blackboards,
            )?,
            ports: Ports::new(alloc, rows.ports)?,
            errors: Errors::new(alloc, section.handler.is_some())?,
        })
    }

    /// The points from which a start counts: this tick, and the partition's next release point.
    pub(crate) fn points(&self, moment: Moment) -> Points
        ensures at { result.moment.at ≡ moment.at }
        ensures next { result.next.0 ≡ next_release_of moment.at self.now }
    {
        let next = self.fixed.schedule.next_release(self.fixed.number, moment);
        Points { moment, next }
    }

    /// The partition's name.
    pub fn name(&self) -> Name
        ensures { result ≡ self.now.fixed.name }
    {
        self.fixed.name
    }

    /// The mode.
    pub fn mode(&self) -> Mode
        ensures { result ≡ self.now.mode }
    {
        self.mode
    }

    /// Why it was started last.
    pub fn condition(&self) -> StartCondition
        ensures { result ≡ self.now.condition }
    {
        self.condition
    }

    /// Its processes.
    pub fn processes(&self) -> &ProcessTable
        ensures { result.now ≡ self.now.processes }
    {
        &self.processes
    }

    /// Its objects.
    pub fn objects(&self) -> &Objects
        ensures { result.now ≡ self.now.objects }
    {
        &self.objects
    }

    /// Its ports.
    pub fn ports(&self) -> &Ports
        ensures { result.now ≡ self.now.ports }
    {
        &self.ports
    }

    /// The errors that wait for its handler.
    pub fn errors(&self) -> &Errors
        ensures { result.now ≡ self.now.errors }
    {
        &self.errors
    }

    /// The current runner.
    pub(crate) fn running(&self) -> Option<Runner>
        ensures { result ≡ self.now.processes.running }
    {
        self.processes.running()
    }

    pub(crate) fn subject(&self, runner: Runner) -> Subject
        ensures { result ≡ subject self.now.processes runner }
    {
        self.processes.subject(runner)
    }

    /// Starts the error handler if an error waits for it; then chooses the runner. Returns true if
    /// nothing changes with that.
    pub(crate) fn choose(&mut self, out: &mut Out) -> bool
        requires { HasRoom LINES_TO_CHOOSE ACTIONS_TO_CHOOSE out.old }
        ensures step { IsMade (tick.chooses_with_handler self.old) self.new out.old out.new }
        ensures stays { result ≡ true → tick.chooses_with_handler self.old ≡ nothing self.old }
        ensures grows { Grows LINES_TO_CHOOSE ACTIONS_TO_CHOOSE out.old out.new }
    {
        let mode = self.mode;
        if handler_stays(&self.processes, &self.errors, mode) {
            return self.processes.choose(mode, out);
        }
        start_handler(&mut self.processes, &self.errors, mode, out);
        self.processes.choose(mode, out);
        false
    }

    /// Whether neither the start of the error handler nor the choice of the runner would change
    /// anything.
    #[tactic(auto, using(crate::proofs::Quiet::choice_stays))]
    pub(crate) fn choice_stays(&self) -> bool
        ensures { result ≡ true → tick.chooses_with_handler self.now ≡ nothing self.now }
    {
        let mode = self.mode;
        handler_stays(&self.processes, &self.errors, mode) && self.processes.choice_stays(mode)
    }

    /// How many of `k` ticks, from `moment` on, come before anything is due.
    #[tactic(auto, using(crate::proofs::Quiet::quiet_due))]
    pub(crate) fn quiet_ticks(&self, moment: Moment, k: u32) -> u32
        ensures within { result ≤ k }
        ensures due { (i : ℕ) → i < result
            → HasNothingDue (tick_from moment.at.origin.0 (moment.at.now.0 + i)) self.now }
    {
        self.processes.quiet_ticks(moment.at.now, k)
    }

    /// Treats due times and deadlines. Returns the mode of the Clear that a missed deadline leads
    /// to, if any.
    pub(crate) fn treat_due(&mut self, moment: Moment, out: &mut Out) -> Option<Mode>
        requires room { HasRoom LINES_TO_TREAT_DUE ACTIONS_TO_TREAT_DUE out.old }
        ensures step { IsMade (of_processes self.old (tick.treats_due moment.at self.old).step)
            self.new out.old out.new }
        ensures clears { result ≡ (tick.treats_due moment.at self.old).clears }
        ensures grows { Grows LINES_TO_TREAT_DUE ACTIONS_TO_TREAT_DUE out.old out.new }
    {
        let action = self.action_of(ErrorKind::DeadlineMissed);
        let free = free_places(&self.processes, &self.errors, self.mode);
        self.processes.due(moment, free, action, out).clears
    }
}
