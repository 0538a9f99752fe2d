//! What is due in a tick: for each process in number order its due time, then its deadline.

ghost use Rattle.std.specs.Prelude.{◌≡◌, ◌<◌, ◌≤◌, ◌+◌, ◌-◌, ◌*◌, ◌^◌};
ghost use Rattle.apex_types.specs.Limits.{MOST_TICKS};
ghost use Rattle.apex_types.specs.declared.limits.TheConstants.{MOST_RUNNERS};
ghost use Rattle.apex_types.specs.Room.{HasRoom, Grows};
ghost use Rattle.apex_types.specs.Runners.{place_of};
ghost use Rattle.kernel_meaning.specs.Times as meaning;
ghost use Rattle.kernel_meaning.specs.Processes.{row_of};
ghost use Rattle.kernel_meaning.specs.Made.{IsMade};
ghost use Rattle.process_table_base.specs.Bounds.{IsBounded};
ghost use Rattle.process_table_base.specs.declared.rooms.TheConstants.{ACTIONS_TO_TREAT_DUE, LINES_TO_TREAT_DUE};
ghost use Rattle.process_table_base.specs.DueMask.{IsSplit};
ghost use Rattle.process_table_base.specs.Treating.{IsTreated};

use crate::start::released_at;
use crate::table::ProcessTable;
use apex_types::limits::MOST_RUNNERS;
use apex_types::{
    ActionKind, Due, ErrorKind, LineKind, Mode, Moment, Out, PartitionAction, ProcessIndex,
    ProcessStatus, Response, ReturnCode, Runner, Service, Ticks, Wait,
};

/// The result of treating the processes, without its lines: how many more errors may wait for the
/// error handler, and the mode of the Clear that ended it, if one did.
#[derive(Clone, Copy)]
pub struct Treated {
    pub free: u8,
    pub clears: Option<Mode>,
}

impl ProcessTable {
    /// Ends a wait: a release point is reached, a delay is over, or the wait was in vain.
    fn end_wait(&mut self, runner: Runner, row: &ProcessStatus, due: Due, out: &mut Out)
        requires runner { place_of runner < MOST_RUNNERS }
        requires bounded { IsBounded row.now }
        requires past { meaning.tick_of due ≤ MOST_TICKS }
        requires room { HasRoom 2 1 out.old }
        ensures step { IsMade (meaning.ends_wait self.old runner row.now due)
            self.new out.old out.new }
        ensures grows { Grows 2 1 out.old out.new }
    {
        match due {
            Due::Release(tick) => {
                self.release_as(runner, &released_at(tick, row), ReturnCode::NoError, out);
            }
            Due::Delay(_) => self.release_as(runner, row, ReturnCode::NoError, out),
            Due::TimeOut(_) => self.release_as(runner, &timed_out(row), ReturnCode::TimedOut, out),
        }
    }

    fn treat_due(&mut self, moment: Moment, runner: Runner, row: &ProcessStatus, out: &mut Out)
        requires runner { place_of runner < MOST_RUNNERS }
        requires bounded { IsBounded row.now }
        requires room { HasRoom 2 1 out.old }
        ensures step { IsMade (meaning.treats_due moment.at self.old runner row.now row.now.due)
            self.new out.old out.new }
        ensures grows { Grows 2 1 out.old out.new }
    {
        if let Some(due) = row.due {
            if tick_of(due).0 <= moment.at.now.0 {
                self.end_wait(runner, row, due, out);
            }
        }
    }

    /// Queues a missed deadline for the handler if there is room; otherwise the partition handles
    /// it.
    #[tactic(auto, using(crate::proofs::Bounds::bounds))]
    fn miss(
        &mut self,
        free: u8,
        action: PartitionAction,
        process: ProcessIndex,
        row: &ProcessStatus,
        out: &mut Out,
    ) -> Treated
        requires bounded { IsBounded row.now }
        requires room { HasRoom 1 1 out.old }
        ensures treated { IsTreated (meaning.misses free action self.old process row.now)
            self.new out.old out.new result }
        ensures grows { Grows 1 1 out.old out.new }
    {
        let row_now = ProcessStatus {
            deadline: None,
            ..*row
        };
        self.put_row(Runner::Process(process), &row_now);
        let error = ErrorKind::DeadlineMissed;
        if free > 0 {
            out.tell(
                LineKind::Error(error, Some(row.who), Response::Handler),
                &[],
            );
            out.act(ActionKind::Queue(error, process), &[]);
            Treated {
                free: free - 1,
                clears: None,
            }
        } else {
            out.tell(
                LineKind::Error(error, Some(row.who), Response::Partition(action)),
                &[],
            );
            Treated {
                free: 0,
                clears: mode_of_action(action),
            }
        }
    }

    fn treat_deadline(
        &mut self,
        moment: Moment,
        free: u8,
        action: PartitionAction,
        process: ProcessIndex,
        out: &mut Out,
    ) -> Treated
        requires { HasRoom 1 1 out.old }
        ensures treated { IsTreated
            (meaning.treats_deadline moment.at free action self.old process
            (row_of self.old (Runner.Process process)))
            self.new out.old out.new result }
        ensures grows { Grows 1 1 out.old out.new }
    {
        let late = match self.look(Runner::Process(process)) {
            Some(row) if is_past(moment.at.now, row.deadline) => *row,
            _ => return Treated { free, clears: None },
        };
        self.miss(free, action, process, &late, out)
    }

    /// Treats one process: its due time, then its deadline.
    fn treat(
        &mut self,
        moment: Moment,
        free: u8,
        action: PartitionAction,
        process: ProcessIndex,
        out: &mut Out,
    ) -> Treated
        requires room { HasRoom 3 2 out.old }
        ensures treated { IsTreated
            (meaning.treats moment.at free action self.old process
            (row_of self.old (Runner.Process process)))
            self.new out.old out.new result }
        ensures grows { Grows 3 2 out.old out.new }
    {
        let runner = Runner::Process(process);
        let Some(row) = self.row(runner) else {
            return Treated { free, clears: None };
        };
        self.treat_due(moment, runner, &row, out);
        self.treat_deadline(moment, free, action, process, out)
    }

    /// Treats each process in number order: its due time if it is at most now, then its deadline if
    /// it is at most now. `free` more errors may wait for the error handler, and `action` is the
    /// partition's action for a missed deadline: an action that leads to a Clear ends the
    /// treatment.
    pub fn due(
        &mut self,
        moment: Moment,
        free: u8,
        action: PartitionAction,
        out: &mut Out,
    ) -> Treated
        requires room { HasRoom LINES_TO_TREAT_DUE ACTIONS_TO_TREAT_DUE out.old }
        ensures treated { IsTreated (meaning.due moment.at free action self.old)
            self.new out.old out.new result }
        ensures grows { Grows LINES_TO_TREAT_DUE ACTIONS_TO_TREAT_DUE out.old out.new }
    {
        let mut left = self.due_mask(moment.at.now);
        let mut free = free;
        while let Some((process, rest)) = split_first(left) {
            let treated = self.treat(moment, free, action, process, out);
            if treated.clears.is_some() {
                return treated;
            }
            free = treated.free;
            left = rest;
        }
        Treated { free, clears: None }
    }
}

/// The first process with a bit, and the bits of the others.
fn split_first(mask: u64) -> Option<(ProcessIndex, u64)>
    ensures { IsSplit mask result }
{
    if mask == 0 {
        return None;
    }
    let place = mask.trailing_zeros();
    let rest = mask & !(1 << place);
    Some((ProcessIndex(place as u8), rest))
}

/// A process that suspended itself is no longer suspended at its time-out; any other stays
/// suspended.
fn timed_out(row: &ProcessStatus) -> ProcessStatus
    requires { IsBounded row.now }
    ensures row { result ≡ meaning.timed_out row.now row.now.wait }
    ensures bounded { IsBounded result }
{
    match row.wait {
        Wait::Service(Service::SuspendSelf) => ProcessStatus {
            suspended: false,
            ..*row
        },
        _ => *row,
    }
}

fn tick_of(due: Due) -> Ticks
    ensures { result.0 ≡ meaning.tick_of due }
{
    match due {
        Due::Release(tick) | Due::Delay(tick) | Due::TimeOut(tick) => tick,
    }
}

fn is_past(now: Ticks, tick: Option<Ticks>) -> bool
    ensures { result ≡ meaning.is_past now.0 tick }
{
    match tick {
        Some(tick) => tick.0 <= now.0,
        None => false,
    }
}

/// The mode that an action of a partition leads to.
pub fn mode_of_action(action: PartitionAction) -> Option<Mode>
    ensures { result ≡ meaning.mode_of_action action }
{
    match action {
        PartitionAction::Ignore => None,
        PartitionAction::Idle => Some(Mode::Idle),
        PartitionAction::WarmStart => Some(Mode::WarmStart),
        PartitionAction::ColdStart => Some(Mode::ColdStart),
    }
}
