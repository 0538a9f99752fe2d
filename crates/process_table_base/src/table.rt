//! The records of a partition's processes, and the few ways to change them.

ghost use Rattle.std.specs.Prelude.{◌≡◌, ◌<◌, ◌≤◌, ◌+◌, ◌-◌, ◌^◌, ℕ, length, map, option_map, IfOk, IfSome};
ghost use Rattle.apex_types.specs.Runners.{place_of};
ghost use Rattle.kernel_meaning.specs.PartitionServices.{cleared_processes};
ghost use Rattle.kernel_meaning.specs.Partition.{first_ready};
ghost use Rattle.kernel_meaning.specs.Processes as meaning;
ghost use Rattle.kernel_meaning.specs.ProcessServices.{level_of};
ghost use Rattle.kernel_meaning.specs.Fresh.{fresh_processes, no_message};
ghost use Rattle.machine_meaning.specs.MachineMeaning.{machine_row};
ghost use Rattle.links.specs.Timers.{IsDueMask, IsNextDue, number_of};
ghost use Rattle.process_table_base.specs.Bounds.{IsBounded};
ghost use Rattle.process_table_base.specs.FoundView.{record_of};
ghost use Rattle.process_table_base.specs.States.{put_state};
ghost use Rattle.process_table_base.specs.Timed.{AreQuiet, deadlines, due_times};

use crate::found::Found;
use crate::records::{ProcessRows, Records};
use apex_types::{
    Entry, Lock, MOST_RUNNERS, Mode, Priority, ProcessRow, ProcessState, ProcessStatus, Runner,
    Subject, Ticks, Words,
};
use links::{ReadyLists, WaitingLists};
use std::alloc::{AllocError, Global};
use std::marker::Model;

/// The processes of a partition: the records of INIT, of the error handler and of each process; the
/// ready processes; the current runner; the preemption lock; and the processes that wait for
/// objects and ports, with the messages of their calls. A contract sees it as the processes of the
/// definitions.
#[derive(Drop)]
pub struct ProcessTable {
    records: Records,
    ready: ReadyLists,
    running: Option<Runner>,
    lock: Lock,
    pub(crate) queues: WaitingLists,
    pub(crate) handed: Vec<Words>,
}

impl Model for ProcessTable {
    ghost use Rattle.kernel_meaning.specs.Processes as meaning;
    ghost use Rattle.kernel_meaning.specs.ProcessServices.{level_of};

    ghost Value = { meaning.Processes };

    ghost use Rattle.process_table_base.specs.View.{processes_of};

    ghost view = { processes_of };
}

/// An empty message for each process.
fn no_messages(alloc: Global, processes: &[ProcessRow]) -> Result<Vec<Words>, AllocError>
    ensures { IfOk result
        (λ handed. handed.items ≡ map no_message (map machine_row processes.now)) }
{
    let mut handed = Vec::with_capacity(alloc, processes.len())?;
    for _ in processes {
        handed.push(Words::new())?;
    }
    Ok(handed)
}

impl ProcessTable {
    /// Makes the table: no process is created, and none runs or waits. `AllocError`: out of memory.
    pub fn new(alloc: Global, processes: ProcessRows<'_>) -> Result<ProcessTable, AllocError>
        ensures { IfOk result
            (λ table. table ≡ fresh_processes (map machine_row processes.entry.rows.now)) }
    {
        Ok(ProcessTable {
            records: Records::new(alloc, processes)?,
            ready: ReadyLists::new(alloc)?,
            running: None,
            lock: Lock::Free,
            queues: WaitingLists::new(alloc)?,
            handed: no_messages(alloc, processes.rows)?,
        })
    }

    /// The record of INIT, of the handler or of a process; `None` if the process does not exist.
    pub fn row(&self, runner: Runner) -> Option<ProcessStatus>
        ensures row { result ≡ meaning.row_of self.now runner }
        ensures within { IfSome result (λ row. place_of runner < MOST_RUNNERS) }
        ensures bounded { IfSome result IsBounded }
    {
        let mut reads = 0;
        self.read(runner, &mut reads)
    }

    /// INIT, the handler or a process with its record; `None` if the process does not exist.
    pub fn found(&self, runner: Runner) -> Option<Found>
        ensures found { record_of result ≡ meaning.row_of self.now runner }
        ensures own { IfSome result (λ found. found.runner ≡ runner) }
    {
        match self.look(runner) {
            Some(row) => Some(Found { runner, row: *row }),
            None => None,
        }
    }

    /// The record of INIT, of the handler or of a process, where it is, so that those who look a
    /// record up copy it once.
    pub(crate) fn look(&self, runner: Runner) -> Option<&ProcessStatus>
        ensures row { option_map (λ row. row.now) result ≡ meaning.row_of self.now runner }
        ensures within { IfSome result (λ row. place_of runner < MOST_RUNNERS) }
        ensures bounded { IfSome result (λ row. IsBounded row.now) }
    {
        self.records.look(runner)
    }

    /// The same; counts the read in `reads`.
    pub(crate) fn read(&self, runner: Runner, reads: &mut u64) -> Option<ProcessStatus>
        requires { reads.old < 2 ^ 64 - 1 }
        ensures row { result ≡ meaning.row_of self.now runner }
        ensures within { IfSome result (λ row. place_of runner < MOST_RUNNERS) }
        ensures bounded { IfSome result IsBounded }
        ensures reads { reads.new ≡ reads.old + 1 }
    {
        self.records.read(runner, reads)
    }

    /// The number of records.
    pub(crate) fn count(&self) -> u8
        ensures count { result ≡ length self.now.rows }
        ensures few { result ≤ MOST_RUNNERS }
    {
        self.records.count()
    }

    /// The records of INIT, of the handler and of the processes, in this order.
    pub fn rows(&self) -> &[ProcessStatus]
        ensures all { result.now ≡ self.now.rows }
        ensures few { length result.now ≤ MOST_RUNNERS }
    {
        self.records.rows()
    }

    /// The ready processes in the order of choice. `AllocError`: out of memory.
    pub fn ready(&self, alloc: Global) -> Result<Vec<Entry>, AllocError>
        ensures { IfOk result (λ ready. ready.items ≡ self.now.ready) }
    {
        self.ready.entries(alloc)
    }

    /// The current runner: the one chosen last.
    pub fn running(&self) -> Option<Runner>
        ensures { result ≡ self.now.running }
    {
        self.running
    }

    pub(crate) fn set_running(&mut self, running: Option<Runner>)
        ensures { self.new ≡ record self.old { running = running } }
    {
        self.running = running;
    }

    /// The preemption lock.
    pub fn lock(&self) -> Lock
        ensures { result ≡ self.now.lock }
    {
        self.lock
    }

    /// The level of the preemption lock, 0 if it is free.
    pub fn lock_level(&self) -> u8
        ensures { result ≡ level_of self.now.lock }
    {
        match self.lock {
            Lock::Free => 0,
            Lock::Held { level, .. } => level,
        }
    }

    /// Sets the level and the holder of the preemption lock.
    pub fn set_lock(&mut self, lock: Lock)
        ensures { self.new ≡ record self.old { lock = lock } }
    {
        self.lock = lock;
    }

    /// Resets the table: no process is created, and none runs, waits or holds the lock. Unless the
    /// mode is idle, INIT is ready.
    pub fn clear(&mut self, mode: Mode)
        ensures { self.new ≡ cleared_processes mode self.old }
    {
        self.records.restart(mode);
        self.ready.clear();
        self.running = None;
        self.lock = Lock::Free;
        self.queues.clear();
    }

    /// The first ready process.
    pub(crate) fn first_ready(&self) -> Option<Runner>
        ensures { result ≡ first_ready self.now.ready }
    {
        match self.ready.first() {
            Some(entry) => Some(Runner::Process(entry.process)),
            None => None,
        }
    }

    pub(crate) fn put_row(&mut self, runner: Runner, row: &ProcessStatus)
        requires { IsBounded row.now }
        ensures { self.new ≡ meaning.put_row self.old runner row.now }
    {
        self.records.put(runner, row);
    }

    /// Changes the state in the record of `runner`, if it has one. Its place in every list stays.
    pub(crate) fn set_state(&mut self, runner: Runner, state: ProcessState)
        ensures { self.new
            ≡ record self.old {
              rows = put_state state (place_of runner) (meaning.row_of self.old runner)
                  self.old.rows;
            } }
    {
        self.records.set_state(runner, state);
    }

    #[inline(always)]
    pub(crate) fn put_ready(&mut self, runner: Runner, row: &ProcessStatus)
        requires runner { place_of runner < MOST_RUNNERS }
        requires bounded { IsBounded row.now }
        ensures { self.new ≡ meaning.put_ready self.old runner row.now }
    {
        let priority = row.current_priority;
        self.records.put(runner, row);
        self.go_behind(runner, priority);
    }

    /// The name of a runner; `None` if there is no such runner.
    pub(crate) fn name_in(&self, runner: Runner) -> Option<Subject>
        ensures { result ≡ option_map (λ row. row.who) (meaning.row_of self.now runner) }
    {
        self.records.name(runner)
    }

    /// The current priority of a runner; `None` if there is no such runner.
    pub(crate) fn priority(&self, runner: Runner) -> Option<Priority>
        ensures priority { result
            ≡ option_map (λ row. row.current_priority) (meaning.row_of self.now runner) }
        ensures within { IfSome result (λ priority. place_of runner < MOST_RUNNERS) }
    {
        self.records.priority(runner)
    }

    /// A ready process goes after the others of this priority.
    #[inline(always)]
    pub(crate) fn go_behind(&mut self, runner: Runner, priority: Priority)
        requires { place_of runner < MOST_RUNNERS }
        ensures { self.new
            ≡ record self.old { ready = meaning.goes_last runner priority self.old.ready } }
    {
        if let Runner::Process(process) = runner {
            self.ready.move_back(Entry { process, priority });
        }
    }

    #[inline(always)]
    pub(crate) fn put_unready(&mut self, runner: Runner, row: &ProcessStatus)
        requires { IsBounded row.now }
        ensures { self.new ≡ meaning.put_unready self.old runner row.now }
    {
        self.records.put(runner, row);
        if let Runner::Process(process) = runner {
            self.ready.remove(process);
        }
        self.running = not_running(runner, self.running);
    }

    pub(crate) fn put_dormant(&mut self, runner: Runner, row: &ProcessStatus)
        requires { IsBounded row.now }
        ensures { self.new ≡ meaning.put_dormant self.old runner row.now }
    {
        self.put_unready(runner, row);
        self.lock = without_holder(runner, self.lock);
        self.leave_queues(runner);
    }

    /// The least due time or deadline of the processes, if any.
    pub fn next_due(&self) -> Option<Ticks>
        ensures { IsNextDue (due_times self.now.rows) (deadlines self.now.rows) (number_of result) }
    {
        self.records.next_due()
    }

    /// How many of `k` ticks, from `now` on, come before anything is due: in each of them no due
    /// time and no deadline of a process has come. 0 if something is due at `now` or earlier.
    #[tactic(auto, using(crate::proofs::Quiet::quiet_for_ever, crate::proofs::Quiet::quiet_before))]
    pub fn quiet_ticks(&self, now: Ticks, k: u32) -> u32
        ensures within { result ≤ k }
        ensures quiet { (i : ℕ) → i < result → AreQuiet (now.0 + i) self.now.rows }
    {
        match self.next_due() {
            Some(tick) => {
                let left = tick.0.saturating_sub(now.0);
                if left < u64::from(k) { left as u32 } else { k }
            }
            None => k,
        }
    }

    /// A bit for each process whose due time or deadline is not later than now: bit 0 is that of
    /// process 0.
    pub(crate) fn due_mask(&self, now: Ticks) -> u64
        ensures few { length self.now.rows ≤ MOST_RUNNERS }
        ensures mask { IsDueMask now.0 (due_times self.now.rows) (deadlines self.now.rows) result }
    {
        self.records.due_mask(now)
    }

    /// Removes `runner` from the list in which it waits.
    pub(crate) fn leave_queues(&mut self, runner: Runner)
        ensures { self.new ≡ meaning.no_longer_waits self.old runner }
    {
        if let Runner::Process(process) = runner {
            self.queues.remove(process);
        }
    }
}

/// Whether two runners are the same.
pub fn is_same(runner: Runner, other: Runner) -> bool
    ensures { result ≡ meaning.is_same runner other }
{
    match (runner, other) {
        (Runner::Init, Runner::Init) => true,
        (Runner::Handler, Runner::Handler) => true,
        (Runner::Process(one), Runner::Process(two)) => one.0 == two.0,
        _ => false,
    }
}

fn not_running(runner: Runner, running: Option<Runner>) -> Option<Runner>
    ensures { result ≡ meaning.not_running runner running }
{
    match running {
        Some(other) if is_same(runner, other) => None,
        other => other,
    }
}

fn without_holder(runner: Runner, lock: Lock) -> Lock
    ensures { result ≡ meaning.without_holder runner lock }
{
    match lock {
        Lock::Held { holder, .. } if is_same(runner, Runner::Process(holder)) => Lock::Free,
        other => other,
    }
}
