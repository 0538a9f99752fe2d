//! The records of a partition's processes, with their timers.

ghost use Rattle.std.specs.Prelude.{◌≡◌, ◌<◌, ◌≤◌, ◌+◌, ◌-◌, ◌^◌, ◌∷◌, length, map, option_map, slice_get, slice_set, IfOk, IfSome};
ghost use Rattle.apex_types.specs.Runners.{place_of};
ghost use Rattle.kernel_meaning.specs.PartitionServices.{forgotten, ready_init, started_rows};
ghost use Rattle.kernel_meaning.specs.Fresh.{fresh_row, handler_row, init_row};
ghost use Rattle.machine_meaning.specs.MachineMeaning.{machine_row};
ghost use Rattle.kernel_meaning.specs.Times.{ticks};
ghost use Rattle.links.specs.Timers.{IsDueMask, IsNextDue, number_of};
ghost use Rattle.apex_types.specs.Limits.{MOST_PROCESSES};
ghost use Rattle.process_table_base.specs.Bounds.{AreShort, IsBounded};
ghost use Rattle.process_table_base.specs.ShortFact.{shorts_prop};
ghost use Rattle.process_table_base.specs.States.{put_state};
ghost use Rattle.process_table_base.specs.Timed.{AreTimed, deadlines, due_times};

use crate::timers::Timers;
use apex_types::{
    MOST_PROCESSES, MOST_RUNNERS, Mode, Priority, ProcessRow, ProcessState, ProcessStatus, Runner,
    Subject, Ticks, Wait,
};
use std::alloc::{AllocError, Global};
use std::marker::Model;

/// The records of INIT, of the error handler and of each process, and the timers of the processes.
/// A contract sees the list of the records.
#[derive(Drop)]
pub(crate) struct Records {
    rows: Vec<ProcessStatus>,
    timers: Timers,
}

impl Model for Records {
    ghost use Rattle.std.specs.Prelude.{List};
    ghost use Rattle.apex_types.specs.declared.process.ProcessStatus.{ProcessStatus as Item};

    ghost Value = { List Item };

    ghost use Rattle.process_table_base.specs.RecordView.{rows_of, IsSound};

    ghost view = { rows_of };

    ghost invariant = { IsSound };
}

/// The count as `Ticks`, if there is a count.
fn ticks(count: Option<u64>) -> Option<Ticks>
    ensures { result ≡ option_map ticks count }
{
    match count {
        Some(count) => Some(Ticks(count)),
        None => None,
    }
}

/// The record of a runner with a priority, before it is created.
fn fresh_row(
    who: Subject,
    priority: Priority,
    period: Option<u64>,
    capacity: Option<u64>,
) -> ProcessStatus
    ensures { result ≡ fresh_row who priority period capacity }
{
    ProcessStatus {
        who,
        base_priority: priority,
        period: ticks(period),
        capacity: ticks(capacity),
        created: false,
        state: ProcessState::Dormant,
        current_priority: priority,
        suspended: false,
        wait: Wait::Nothing,
        due: None,
        release: Ticks(0),
        deadline: None,
    }
}

/// INIT, the handler and the processes, none of them created.
fn fresh_rows(alloc: Global, processes: &[ProcessRow]) -> Result<Vec<ProcessStatus>, AllocError>
    ensures { IfOk result
        (λ rows. rows.items ≡ init_row ∷ handler_row ∷ map machine_row processes.now) }
{
    let mut rows = Vec::with_capacity(alloc, processes.len())?;
    rows.push(fresh_row(Subject::Init, Priority(0), None, None))?;
    rows.push(fresh_row(Subject::Handler, Priority(0), None, None))?;
    for process in processes {
        let who = Subject::Process(process.name);
        rows.push(fresh_row(who, process.priority, process.period, process.capacity))?;
    }
    Ok(rows)
}

/// The rows of a partition's processes, no more than it may have, each with a period and a time capacity
/// that a run can have.
#[derive(Clone, Copy)]
pub struct ProcessRows<'a> {
    pub rows: &'a [ProcessRow],
    pub ghost few: { length rows.now ≤ MOST_PROCESSES },
    pub ghost short: { AreShort rows.now } by { shorts_prop rows.now },
}

impl Records {
    /// Makes the records, with no process created. `AllocError`: out of memory.
    #[tactic(auto, using(crate::proofs::Bounds::bounds))]
    pub(crate) fn new(alloc: Global, processes: ProcessRows<'_>) -> Result<Records, AllocError>
        ensures { IfOk result
            (λ records.
            records ≡ init_row ∷ handler_row ∷ map machine_row processes.entry.rows.now) }
    {
        Ok(Records {
            rows: fresh_rows(alloc, processes.rows)?,
            timers: Timers::new(),
        })
    }

    /// All records in their order.
    pub(crate) fn rows(&self) -> &[ProcessStatus]
        ensures all { result.now ≡ self.now }
        ensures few { length result.now ≤ MOST_RUNNERS }
    {
        &self.rows
    }

    /// The number of records.
    pub(crate) fn count(&self) -> u8
        ensures count { result ≡ length self.now }
        ensures few { result ≤ MOST_RUNNERS }
    {
        self.rows.len() as u8
    }

    /// The record of INIT, of the handler or of a process; `None` if the process does not exist.
    /// Counts the read in `reads`.
    #[tactic(auto, using(crate::proofs::Bounds::bounds))]
    pub(crate) fn read(&self, runner: Runner, reads: &mut u64) -> Option<ProcessStatus>
        requires { reads.old < 2 ^ 64 - 1 }
        ensures row { result ≡ slice_get self.now (place_of runner) }
        ensures within { IfSome result (λ row. place_of runner < MOST_RUNNERS) }
        ensures bounded { IfSome result IsBounded }
        ensures reads { reads.new ≡ reads.old + 1 }
    {
        *reads += 1;
        record_at(&self.rows, runner.place())
    }

    /// The record of INIT, of the handler or of a process, where it is; `None` if the process does
    /// not exist.
    #[tactic(auto, using(crate::proofs::Bounds::bounds))]
    pub(crate) fn look(&self, runner: Runner) -> Option<&ProcessStatus>
        ensures row { option_map (λ row. row.now) result ≡ slice_get self.now (place_of runner) }
        ensures within { IfSome result (λ row. place_of runner < MOST_RUNNERS) }
        ensures bounded { IfSome result (λ row. IsBounded row.now) }
    {
        look_at(&self.rows, runner.place())
    }

    /// The name of a runner; `None` if there is no such runner.
    pub(crate) fn name(&self, runner: Runner) -> Option<Subject>
        ensures { result ≡ option_map (λ row. row.who) (slice_get self.now (place_of runner)) }
    {
        name_at(&self.rows, runner.place())
    }

    /// The current priority of a runner; `None` if there is no such runner.
    #[tactic(auto, using(crate::proofs::Bounds::bounds))]
    pub(crate) fn priority(&self, runner: Runner) -> Option<Priority>
        ensures priority { result
            ≡ option_map (λ row. row.current_priority) (slice_get self.now (place_of runner)) }
        ensures within { IfSome result (λ priority. place_of runner < MOST_RUNNERS) }
    {
        priority_at(&self.rows, runner.place())
    }

    /// Replaces the record of `runner`, if it has one.
    pub(crate) fn put(&mut self, runner: Runner, row: &ProcessStatus)
        requires { IsBounded row.now }
        ensures { self.new ≡ slice_set self.old (place_of runner) row.now }
    {
        put_at(&mut self.rows, &mut self.timers, runner, row);
    }

    /// Changes the state in the record of `runner`, if it has one.
    pub(crate) fn set_state(&mut self, runner: Runner, state: ProcessState)
        ensures { self.new
            ≡ put_state state (place_of runner) (slice_get self.old (place_of runner)) self.old }
    {
        set_state_at(&mut self.rows, runner.place(), state);
    }

    /// Resets the records: no process is created; unless the mode is idle, INIT is ready.
    pub(crate) fn restart(&mut self, mode: Mode)
        ensures { self.new ≡ started_rows mode (map forgotten self.old) }
    {
        restart_all(&mut self.rows, mode);
        self.timers = Timers::new();
    }

    /// The least due time or deadline, if any.
    pub(crate) fn next_due(&self) -> Option<Ticks>
        ensures { IsNextDue (due_times self.now) (deadlines self.now) (number_of result) }
    {
        self.timers.next_due()
    }

    /// A bit for each process whose due time or deadline is not later than now: bit 0 is that of
    /// process 0.
    pub(crate) fn due_mask(&self, now: Ticks) -> u64
        ensures few { length self.now ≤ MOST_RUNNERS }
        ensures mask { IsDueMask now.0 (due_times self.now) (deadlines self.now) result }
    {
        self.timers.due_mask(now)
    }
}

/// The record of a process that is no longer created.
fn forgotten(row: &ProcessStatus) -> ProcessStatus
    ensures { result ≡ forgotten row.now }
{
    ProcessStatus {
        created: false,
        state: ProcessState::Dormant,
        current_priority: row.base_priority,
        suspended: false,
        wait: Wait::Nothing,
        due: None,
        release: Ticks(0),
        deadline: None,
        ..*row
    }
}

fn forget_all(rows: &mut Vec<ProcessStatus>)
    ensures { rows.new.items ≡ map forgotten rows.old.items }
{
    for row in rows.iter_mut() {
        *row = forgotten(row);
    }
}

fn ready_init(rows: &mut Vec<ProcessStatus>)
    ensures { rows.new.items ≡ ready_init (slice_get rows.old.items 0) rows.old.items }
{
    if let Some(row) = rows.get_mut(0) {
        row.state = ProcessState::Ready;
    }
}

fn name_at(rows: &[ProcessStatus], place: usize) -> Option<Subject>
    ensures { result ≡ option_map (λ row. row.who) (slice_get rows.now place) }
{
    match rows.get(place) {
        Some(row) => Some(row.who),
        None => None,
    }
}

fn priority_at(rows: &[ProcessStatus], place: usize) -> Option<Priority>
    ensures { result ≡ option_map (λ row. row.current_priority) (slice_get rows.now place) }
{
    match rows.get(place) {
        Some(row) => Some(row.current_priority),
        None => None,
    }
}

fn record_at(rows: &[ProcessStatus], place: usize) -> Option<ProcessStatus>
    ensures { result ≡ slice_get rows.now place }
{
    rows.get(place).copied()
}

fn look_at(rows: &[ProcessStatus], place: usize) -> Option<&ProcessStatus>
    ensures { option_map (λ row. row.now) result ≡ slice_get rows.now place }
{
    rows.get(place)
}

/// Changes the state in the record at `place`, if there is such a record.
fn set_state_at(rows: &mut Vec<ProcessStatus>, place: usize, state: ProcessState)
    ensures { rows.new.items
        ≡ put_state state place (slice_get rows.old.items place) rows.old.items }
{
    if let Some(row) = rows.get_mut(place) {
        row.state = state;
    }
}

/// Resets the records: no process is created; unless the mode is idle, INIT is ready.
fn restart_all(rows: &mut Vec<ProcessStatus>, mode: Mode)
    ensures { rows.new.items ≡ started_rows mode (map forgotten rows.old.items) }
{
    forget_all(rows);
    if mode != Mode::Idle {
        ready_init(rows);
    }
}

/// Replaces the record of `runner`, if it has one, and its timers.
fn put_at(rows: &mut Vec<ProcessStatus>, timers: &mut Timers, runner: Runner, row: &ProcessStatus)
    requires few { length rows.old.items ≤ MOST_RUNNERS }
    requires timed { AreTimed rows.old.items timers.old }
    ensures rows { rows.new.items ≡ slice_set rows.old.items (place_of runner) row.now }
    ensures timed { AreTimed rows.new.items timers.new }
{
    if let Some(place) = rows.get_mut(runner.place()) {
        timers.renew(runner, place, row);
        *place = *row;
    }
}
