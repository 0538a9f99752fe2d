//! The lines of a trace, one after another.

ghost use Rattle.std.specs.Prelude.{◌≡◌, ◌-◌, [], map, OnOk, IfOk};
ghost use Rattle.trace_windows.specs.Counts.{HasTotal};
ghost use Rattle.trace_windows.specs.Runs.{HasPassed, first};
ghost use Rattle.trace_windows.specs.Standings.{at_first, cleared_if, entered, halted, in_run, is_running, is_same_runner, left, place_in, running_at, standing_of, stopped, turned, with_line, with_module, with_own, with_running, without_process};
ghost use Rattle.window_table.specs.Schedules.{schedule_of};

use crate::counted::Counted;
use crate::owner::{Owner, Stop};
use crate::shares::Shares;
use crate::shares_fault::SharesFault;
use apex_types::{
    Event, EventKind, Mode, ModuleAction, Name, ProcessState, Response, Subject, Ticks,
};
use std::alloc::Global;
use trace_stays::clears;
use window_table::Schedule;

impl Shares {
    /// No line is read, of a module with this schedule and these partitions. The ticks `from` and
    /// later will count.
    ///
    /// # Errors
    ///
    /// Memory ran out.
    pub fn new(
        alloc: Global,
        schedule: Schedule,
        names: &[Name],
        from: Ticks,
    ) -> Result<Shares, SharesFault>
        ensures schedule { IfOk result (λ s. s.schedule ≡ schedule) }
        ensures from { IfOk result (λ s. s.from ≡ from) }
        ensures standing { IfOk result (λ s. standing_of s ≡ at_first names.now) }
        ensures counted { IfOk result (λ s. s.counted.rows.items ≡ []) }
    {
        Ok(Shares {
            schedule,
            owners: owners(alloc, names)?,
            stopped: Vec::new(alloc),
            tick: Ticks(0),
            origin: Ticks(0),
            is_down: false,
            from,
            counted: Counted::new(alloc),
        })
    }

    /// Reads the next line, and counts the ticks before its own.
    ///
    /// # Errors
    ///
    /// The module table has no partition of this name, or memory ran out.
    pub fn follow(&mut self, event: &Event) -> Result<(), SharesFault>
        ensures kept { OnOk result (self.new.schedule ≡ self.old.schedule) }
        ensures from { OnOk result (self.new.from ≡ self.old.from) }
        ensures standing { OnOk result
            (standing_of self.new ≡ with_line event.now (standing_of self.old)) }
        ensures counted { OnOk result
            (HasPassed (schedule_of self.old.schedule) self.old.from.0 (standing_of self.old)
            (in_run event.now.tick.0) self.old.counted.rows.items self.new.counted.rows.items) }
        ensures total { OnOk result
            (HasTotal (in_run event.now.tick.0 - first self.old.from.0 (standing_of self.old))
            self.old.counted.rows.items self.new.counted.rows.items) }
    {
        self.pass_to(event.tick)?;
        match &event.partition {
            Some(name) => match self.place_of(name) {
                Some(place) => self.read_own(&event.kind, place),
                None => Err(SharesFault::Unknown(*name)),
            },
            None => {
                self.read_module(&event.kind);
                Ok(())
            }
        }
    }

    /// The process of the partition at this place that is RUNNING.
    pub(crate) fn running_at(&self, place: usize) -> Option<Subject>
        ensures { result ≡ running_at place self.now.owners.items }
    {
        match self.owners.get(place) {
            Some(owner) => owner.running,
            None => None,
        }
    }

    /// The place of the partition with this name in the module table; `None` if there is none.
    #[tactic(auto, using(std::proofs::lemmas::List::drop_more), unfolding(crate::specs::Standings::place_from))]
    fn place_of(&self, name: &Name) -> Option<usize>
        ensures { result ≡ place_in name.now self.now.owners.items }
    {
        for (place, owner) in self.owners.iter().enumerate() {
            if owner.name.as_bytes() == name.as_bytes() {
                return Some(place);
            }
        }
        None
    }

    /// Reads a line of the module: frames begin with the tick of a reset, before whose work the
    /// processes of all partitions are gone.
    fn read_module(&mut self, kind: &EventKind)
        ensures kept { self.new.schedule ≡ self.old.schedule }
        ensures from { self.new.from ≡ self.old.from }
        ensures counted { self.new.counted ≡ self.old.counted }
        ensures standing { standing_of self.new ≡ with_module kind.now (standing_of self.old) }
    {
        if let EventKind::Error(_, _, Response::Module(action)) = kind {
            match action {
                ModuleAction::Ignore => {}
                ModuleAction::Shutdown => self.is_down = true,
                ModuleAction::Reset => {
                    halt_all(&mut self.owners);
                    self.origin = self.tick;
                }
            }
        }
    }

    /// Reads a line of the partition at this place.
    fn read_own(&mut self, kind: &EventKind, place: usize) -> Result<(), SharesFault>
        ensures others { OnOk result
            (self.new
            ≡ record self.old { owners = self.new.owners; stopped = self.new.stopped }) }
        ensures standing { OnOk result
            (standing_of self.new ≡ with_own kind.now place (standing_of self.old)) }
    {
        match kind {
            EventKind::State(who, state) => self.turn(*state, place, who),
            EventKind::Mode(mode) => self.enter(*mode, place),
            EventKind::Error(error, _, response) => {
                self.clear_if(clears(*error, *response), place);
                Ok(())
            }
            _ => Ok(()),
        }
    }

    /// If an error is treated before the tick's work, the processes of the partition at this place are
    /// gone, and none of them has worked in this tick.
    fn clear_if(&mut self, clears: bool, place: usize)
        ensures others { self.new ≡ record self.old { owners = self.new.owners } }
        ensures standing { standing_of self.new ≡ cleared_if clears place (standing_of self.old) }
    {
        if clears {
            self.set_running(place, None);
        }
    }

    /// A process of the partition at this place enters a state.
    fn turn(&mut self, state: ProcessState, place: usize, who: &Subject) -> Result<(), SharesFault>
        ensures others { OnOk result
            (self.new
            ≡ record self.old { owners = self.new.owners; stopped = self.new.stopped }) }
        ensures standing { OnOk result
            (standing_of self.new ≡ turned state place who.now (standing_of self.old)) }
    {
        if state == ProcessState::Running {
            self.set_running(place, Some(*who));
            return Ok(());
        }
        if is_running(who, &self.running_at(place)) {
            return self.leave(state, place, who);
        }
        Ok(())
    }

    /// A process that is RUNNING enters another state. It has worked in this tick, unless it becomes
    /// READY: then another one was chosen before the tick's work.
    fn leave(&mut self, state: ProcessState, place: usize, who: &Subject) -> Result<(), SharesFault>
        ensures others { OnOk result
            (self.new
            ≡ record self.old { owners = self.new.owners; stopped = self.new.stopped }) }
        ensures standing { OnOk result
            (standing_of self.new ≡ left state place who.now (standing_of self.old)) }
    {
        if state == ProcessState::Ready {
            self.set_running(place, None);
            return Ok(());
        }
        self.stop(place, Some(*who))
    }

    /// The partition at this place enters a mode. With any but NORMAL it starts again, so its
    /// processes are gone.
    fn enter(&mut self, mode: Mode, place: usize) -> Result<(), SharesFault>
        ensures others { OnOk result
            (self.new
            ≡ record self.old { owners = self.new.owners; stopped = self.new.stopped }) }
        ensures standing { OnOk result
            (standing_of self.new ≡ entered mode place (standing_of self.old)) }
    {
        if mode == Mode::Normal {
            return Ok(());
        }
        self.stop(place, self.running_at(place))
    }

    /// The process of the partition at this place that was RUNNING, if there is one, has worked in
    /// this tick.
    fn stop(&mut self, place: usize, who: Option<Subject>) -> Result<(), SharesFault>
        ensures others { OnOk result
            (self.new
            ≡ record self.old { owners = self.new.owners; stopped = self.new.stopped }) }
        ensures standing { OnOk result
            (standing_of self.new ≡ stopped place who (standing_of self.old)) }
    {
        if let Some(who) = who {
            self.stopped.push(Stop { place, who })?;
            self.set_running(place, None);
        }
        Ok(())
    }

    /// Now this process of the partition at this place is RUNNING, or none is.
    fn set_running(&mut self, place: usize, running: Option<Subject>)
        ensures others { self.new ≡ record self.old { owners = self.new.owners } }
        ensures owners { self.new.owners.items
            ≡ with_running place running self.old.owners.items }
    {
        if let Some(owner) = self.owners.get_mut(place) {
            owner.running = running;
        }
    }
}

/// The partitions with these names. None of their processes is RUNNING.
#[tactic(auto, using(std::proofs::lemmas::List::drop_more))]
fn owners(alloc: Global, names: &[Name]) -> Result<Vec<Owner>, SharesFault>
    ensures { IfOk result (λ owners. owners.items ≡ map without_process names.now) }
{
    let mut owners = Vec::with_capacity(alloc, names.len())?;
    for name in names {
        owners.push(Owner {
            name: *name,
            running: None,
        })?;
    }
    Ok(owners)
}

/// Nobody is RUNNING in any partition.
#[tactic(auto, using(std::proofs::lemmas::List::drop_more))]
fn halt_all(owners: &mut Vec<Owner>)
    ensures { owners.new.items ≡ map halted owners.old.items }
{
    for owner in owners.iter_mut() {
        owner.running = None;
    }
}

/// Returns true if this is the process that is RUNNING.
fn is_running(who: &Subject, running: &Option<Subject>) -> bool
    ensures { result ≡ is_running who.now running.now }
{
    match running {
        Some(running) => is_same_runner(who, running),
        None => false,
    }
}

/// Returns true if both are INIT, the error handler, or the process with one name.
fn is_same_runner(one: &Subject, other: &Subject) -> bool
    ensures { result ≡ is_same_runner one.now other.now }
{
    match (one, other) {
        (Subject::Init, Subject::Init) => true,
        (Subject::Handler, Subject::Handler) => true,
        (Subject::Process(one), Subject::Process(other)) => one.as_bytes() == other.as_bytes(),
        _ => false,
    }
}
