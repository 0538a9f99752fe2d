//! The lines of a trace, one after another.

ghost use Rattle.std.specs.Prelude.{◌≡◌, ◌≤◌, ◌++◌, length, map, slice_get, IfOk, None, OnErr, OnOk, Option, Some};
ghost use Rattle.apex_types.specs.Line.{subject_text};
ghost use Rattle.apex_types.specs.declared.event.EventKind.TheVariants as event;
ghost use Rattle.trace_stays.specs.Following.{AreInPlace, AreKept, HasFollowed, HasPartition, HasProcess, HasRead, change_at, entered, gone_from, is_among, mode_over, mode_over_at, modes_left, over_at, over_with, partition_at, process_at, process_in, state_over, states_left, turned};
ghost use Rattle.trace_stays.specs.Stays.{mode_ended, stay_ended};
ghost use Rattle.trace_stays.specs.declared.next.Next.TheVariants.{Enters};

use crate::clearing::{clears, resets, starts_again};
use crate::fault::MemoryFull;
use crate::lanes::{Ended, Lanes, PartitionLane, ProcessLane};
use crate::next::Next;
use crate::same::is_same_subject;
use crate::stay::{ModeStay, ModeWatch, StateWatch, Stay};
use apex_types::{ErrorKind, Event, EventKind, Mode, Name, ProcessState, Response, Subject, Ticks};

impl Lanes {
    /// The place of the partition with this name, which gets one if it has none.
    ///
    /// # Errors
    ///
    /// Memory ran out.
    #[tactic(auto, using(crate::proofs::Followed::lanes_found))]
    pub fn partition_place(&mut self, name: &Name) -> Result<usize, MemoryFull>
        ensures place { IfOk result
            (λ place. partition_at name.now self.new.partitions.items ≡ Some place) }
        ensures kept { OnOk result (AreKept self.old self.new) }
        ensures places { OnOk result (AreInPlace self.old self.new) }
        ensures processes { self.new.processes ≡ self.old.processes }
    {
        place_of_partition(&mut self.partitions, name)
    }

    /// The place of a process of the partition with this name; both get one if they have none.
    ///
    /// # Errors
    ///
    /// Memory ran out.
    #[tactic(auto, using(crate::proofs::Followed::lanes_found))]
    pub fn process_place(&mut self, partition: &Name, who: &Subject) -> Result<usize, MemoryFull>
        ensures place { IfOk result
            (λ place. process_at partition.now (subject_text who.now) self.new ≡ Some place) }
        ensures kept { OnOk result (AreKept self.old self.new) }
        ensures places { OnOk result (AreInPlace self.old self.new) }
    {
        let place = self.partition_place(partition)?;
        place_of_process(&mut self.processes, place, who)
    }

    /// Follows one event, and adds the stays that are over with it.
    ///
    /// # Errors
    ///
    /// Memory ran out.
    pub fn follow(&mut self, event: &Event, ended: &mut Vec<Ended>) -> Result<(), MemoryFull>
        ensures { OnOk result
            (HasFollowed event.now self.old self.new ended.old.items ended.new.items) }
    {
        let Some(name) = &event.partition else {
            return self.read_module(&event.kind, event.tick, ended);
        };
        match &event.kind {
            EventKind::State(who, state) => self.turn(name, who, *state, event.tick, ended),
            EventKind::Mode(mode) => self.enter(name, *mode, event.tick, ended),
            EventKind::Error(error, _, response) => {
                self.fail(name, *error, *response, event.tick, ended)
            }
            _ => {
                self.partition_place(name)?;
                Ok(())
            }
        }
    }

    /// Adds the stays that are not over where the trace ends: first those of the partitions.
    ///
    /// # Errors
    ///
    /// Memory ran out.
    pub fn finish(&self, until: Ticks, ended: &mut Vec<Ended>) -> Result<(), MemoryFull>
        ensures { OnOk result
            (ended.new.items
            ≡ (ended.old.items ++ modes_left 0 until.0 self.now.partitions.items)
            ++ states_left 0 until.0 self.now.processes.items) }
    {
        end_modes(self.partitions.as_slice(), until, ended)?;
        end_states(self.processes.as_slice(), until, ended)
    }

    /// A process enters a state.
    fn turn(
        &mut self,
        partition: &Name,
        who: &Subject,
        state: ProcessState,
        tick: Ticks,
        ended: &mut Vec<Ended>,
    ) -> Result<(), MemoryFull>
        ensures { OnOk result
            (HasRead (Some partition.now) (event.State who.now state) tick.0 self.old self.new
            ended.old.items ended.new.items) }
    {
        let place = self.process_place(partition, who)?;
        turn_at(&mut self.processes, place, state, tick, ended)
    }

    /// A partition enters a mode. If it starts again, its processes are gone.
    #[tactic(auto, using(crate::proofs::Followed::lanes_left))]
    fn enter(
        &mut self,
        partition: &Name,
        mode: Mode,
        tick: Ticks,
        ended: &mut Vec<Ended>,
    ) -> Result<(), MemoryFull>
        ensures { OnOk result
            (HasRead (Some partition.now) (event.Mode mode) tick.0 self.old self.new
            ended.old.items ended.new.items) }
    {
        let place = self.partition_place(partition)?;
        enter_at(&mut self.partitions, place, mode, tick, ended)?;
        if !starts_again(mode) {
            return Ok(());
        }
        self.leave(Some(place), Next::Gone, tick, ended)
    }

    /// An error of a partition. If it clears the partition, its processes are gone.
    fn fail(
        &mut self,
        partition: &Name,
        error: ErrorKind,
        response: Response,
        tick: Ticks,
        ended: &mut Vec<Ended>,
    ) -> Result<(), MemoryFull>
        ensures { OnOk result
            ((who : Option Subject)
            → HasRead (Some partition.now) (event.Error error who response) tick.0 self.old
            self.new ended.old.items ended.new.items) }
    {
        let place = self.partition_place(partition)?;
        if !clears(error, response) {
            return Ok(());
        }
        self.leave(Some(place), Next::Cleared, tick, ended)
    }

    /// Reads a line of the module. With its reset the processes of all partitions are gone.
    fn read_module(
        &mut self,
        kind: &EventKind,
        tick: Ticks,
        ended: &mut Vec<Ended>,
    ) -> Result<(), MemoryFull>
        ensures { OnOk result
            (HasRead None kind.now tick.0 self.old self.new ended.old.items ended.new.items) }
    {
        match kind {
            EventKind::Error(_, _, response) => {
                if resets(*response) {
                    self.leave(None, Next::Cleared, tick, ended)
                } else {
                    Ok(())
                }
            }
            _ => Ok(()),
        }
    }

    /// The processes of the partition at this place go there; without a place those of all do.
    fn leave(
        &mut self,
        partition: Option<usize>,
        next: Next,
        tick: Ticks,
        ended: &mut Vec<Ended>,
    ) -> Result<(), MemoryFull>
        ensures partitions { self.new.partitions ≡ self.old.partitions }
        ensures processes { OnOk result
            (self.new.processes.items
            ≡ map (gone_from partition next tick.0) self.old.processes.items) }
        ensures ended { OnOk result
            (ended.new.items
            ≡ ended.old.items ++ over_with 0 partition next tick.0 self.old.processes.items) }
    {
        end_all(self.processes.as_slice(), partition, next, tick, ended)?;
        leave_all(&mut self.processes, partition, next, tick);
        Ok(())
    }
}

/// The place of the partition with this name, which becomes the last one if it has none.
fn place_of_partition(lanes: &mut Vec<PartitionLane>, name: &Name) -> Result<usize, MemoryFull>
    ensures found { IfOk result (HasPartition name.now lanes.old.items lanes.new.items) }
    ensures length { length lanes.old.items ≤ length lanes.new.items }
{
    match known_partition(lanes.as_slice(), name) {
        Some(place) => Ok(place),
        None => {
            let place = lanes.len();
            lanes.push(PartitionLane {
                name: *name,
                watch: ModeWatch::new(),
            })?;
            Ok(place)
        }
    }
}

/// The place of the partition with this name; `None` if it has no line.
#[tactic(auto, using(std::proofs::lemmas::List::drop_more), unfolding(crate::specs::Following::place_from))]
fn known_partition(lanes: &[PartitionLane], name: &Name) -> Option<usize>
    ensures { result ≡ partition_at name.now lanes.now }
{
    for (place, lane) in lanes.iter().enumerate() {
        if lane.name.as_bytes() == name.as_bytes() {
            return Some(place);
        }
    }
    None
}

/// The place of a process of the partition at this place; it becomes the last one if it has none.
fn place_of_process(
    lanes: &mut Vec<ProcessLane>,
    partition: usize,
    who: &Subject,
) -> Result<usize, MemoryFull>
    ensures found { IfOk result (HasProcess partition who.now lanes.old.items lanes.new.items) }
    ensures failed { OnErr result (lanes.new.items ≡ lanes.old.items) }
{
    match known_process(lanes.as_slice(), partition, who) {
        Some(place) => Ok(place),
        None => {
            let place = lanes.len();
            lanes.push(ProcessLane {
                partition,
                who: *who,
                watch: StateWatch::new(),
            })?;
            Ok(place)
        }
    }
}

/// The place of a process of the partition at this place; `None` if it has no line.
#[tactic(auto, using(std::proofs::lemmas::List::drop_more), unfolding(crate::specs::Following::place_from))]
fn known_process(lanes: &[ProcessLane], partition: usize, who: &Subject) -> Option<usize>
    ensures { result ≡ process_in (Some partition) (subject_text who.now) lanes.now }
{
    for (place, lane) in lanes.iter().enumerate() {
        if lane.partition == partition && is_same_subject(&lane.who, who) {
            return Some(place);
        }
    }
    None
}

/// Adds the stay of the process at this place, if one is over.
fn add_stay(ended: &mut Vec<Ended>, place: usize, stay: Option<Stay>) -> Result<(), MemoryFull>
    ensures { OnOk result (ended.new.items ≡ ended.old.items ++ state_over place stay) }
{
    if let Some(stay) = stay {
        ended.push(Ended::State(place, stay))?;
    }
    Ok(())
}

/// Adds the stay of the partition at this place, if one is over.
fn add_mode_stay(
    ended: &mut Vec<Ended>,
    place: usize,
    stay: Option<ModeStay>,
) -> Result<(), MemoryFull>
    ensures { OnOk result (ended.new.items ≡ ended.old.items ++ mode_over place stay) }
{
    if let Some(stay) = stay {
        ended.push(Ended::Mode(place, stay))?;
    }
    Ok(())
}

/// The process at this place enters a state.
fn turn_at(
    lanes: &mut Vec<ProcessLane>,
    place: usize,
    state: ProcessState,
    tick: Ticks,
    ended: &mut Vec<Ended>,
) -> Result<(), MemoryFull>
    ensures lanes { lanes.new.items
        ≡ change_at place (turned (Enters state) tick.0) lanes.old.items }
    ensures ended { OnOk result
        (ended.new.items
        ≡ ended.old.items
        ++ over_at place (Enters state) tick.0 (slice_get lanes.old.items place)) }
{
    match lanes.get_mut(place) {
        Some(lane) => add_stay(ended, place, lane.turn(Next::Enters(state), tick)),
        None => Ok(()),
    }
}

/// The partition at this place enters a mode.
fn enter_at(
    lanes: &mut Vec<PartitionLane>,
    place: usize,
    mode: Mode,
    tick: Ticks,
    ended: &mut Vec<Ended>,
) -> Result<(), MemoryFull>
    ensures lanes { lanes.new.items ≡ change_at place (entered mode tick.0) lanes.old.items }
    ensures ended { OnOk result
        (ended.new.items
        ≡ ended.old.items ++ mode_over_at place tick.0 (slice_get lanes.old.items place)) }
{
    match lanes.get_mut(place) {
        Some(lane) => add_mode_stay(ended, place, lane.enter(mode, tick)),
        None => Ok(()),
    }
}

/// Adds the stays that are over where the processes of the partition at this place, or of all, go.
#[tactic(auto, using(std::proofs::lemmas::List::drop_more), unfolding(crate::specs::Following::over_with))]
fn end_all(
    lanes: &[ProcessLane],
    partition: Option<usize>,
    next: Next,
    tick: Ticks,
    ended: &mut Vec<Ended>,
) -> Result<(), MemoryFull>
    ensures { OnOk result
        (ended.new.items ≡ ended.old.items ++ over_with 0 partition next tick.0 lanes.now) }
{
    for (place, lane) in lanes.iter().enumerate() {
        if is_among(partition, lane.partition) {
            let mut watch = lane.watch;
            add_stay(ended, place, watch.turn(next, tick))?;
        }
    }
    Ok(())
}

/// Adds the stays of the partitions that are not over at this tick.
#[tactic(auto, using(std::proofs::lemmas::List::drop_more), unfolding(crate::specs::Following::modes_left))]
fn end_modes(
    lanes: &[PartitionLane],
    until: Ticks,
    ended: &mut Vec<Ended>,
) -> Result<(), MemoryFull>
    ensures { OnOk result (ended.new.items ≡ ended.old.items ++ modes_left 0 until.0 lanes.now) }
{
    for (place, lane) in lanes.iter().enumerate() {
        add_mode_stay(ended, place, lane.watch.last_stay(until))?;
    }
    Ok(())
}

/// Adds the stays of the processes that are not over at this tick.
#[tactic(auto, using(std::proofs::lemmas::List::drop_more), unfolding(crate::specs::Following::states_left))]
fn end_states(lanes: &[ProcessLane], until: Ticks, ended: &mut Vec<Ended>) -> Result<(), MemoryFull>
    ensures { OnOk result (ended.new.items ≡ ended.old.items ++ states_left 0 until.0 lanes.now) }
{
    for (place, lane) in lanes.iter().enumerate() {
        add_stay(ended, place, lane.watch.last_stay(until))?;
    }
    Ok(())
}

/// The processes of the partition at this place, or of all, go there.
#[tactic(auto, using(std::proofs::lemmas::List::drop_more))]
fn leave_all(lanes: &mut Vec<ProcessLane>, partition: Option<usize>, next: Next, tick: Ticks)
    ensures { lanes.new.items ≡ map (gone_from partition next tick.0) lanes.old.items }
{
    for lane in lanes.iter_mut() {
        lane.leave(partition, next, tick);
    }
}

/// Returns true if the partition at a place is this one; without one, each is.
fn is_among(one: Option<usize>, partition: usize) -> bool
    ensures { result ≡ is_among one partition }
{
    match one {
        Some(one) => partition == one,
        None => true,
    }
}

impl PartitionLane {
    /// The partition enters a mode. Returns the stay that is over.
    fn enter(&mut self, mode: Mode, tick: Ticks) -> Option<ModeStay>
        ensures lane { self.new ≡ entered mode tick.0 self.old }
        ensures ended { result ≡ mode_ended self.old.watch.held tick.0 }
    {
        self.watch.enter(mode, tick)
    }
}

impl ProcessLane {
    /// The process goes there. Returns the stay that is over.
    fn turn(&mut self, next: Next, tick: Ticks) -> Option<Stay>
        ensures lane { self.new ≡ turned next tick.0 self.old }
        ensures ended { result ≡ stay_ended self.old.watch.held next tick.0 }
    {
        self.watch.turn(next, tick)
    }

    /// The process goes there, if it is one of the partition at this place, or of any.
    fn leave(&mut self, partition: Option<usize>, next: Next, tick: Ticks)
        ensures { self.new ≡ gone_from partition next tick.0 self.old }
    {
        if is_among(partition, self.partition) {
            self.turn(next, tick);
        }
    }
}
