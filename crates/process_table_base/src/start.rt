//! The start of a process, its release, and the normal start of the processes that wait for it.

ghost use Rattle.std.specs.Prelude.{◌≡◌, ◌<◌, ◌≤◌, ◌+◌, ◌-◌, length, IfSome};
ghost use Rattle.apex_types.specs.Limits.{MOST_PROCESSES, MOST_TICKS};
ghost use Rattle.apex_types.specs.declared.limits.TheConstants.{LATEST_RELEASE_POINT};
ghost use Rattle.apex_types.specs.Room.{HasRoom, Grows};
ghost use Rattle.apex_types.specs.Runners.{place_of};
ghost use Rattle.kernel_meaning.specs.Processes.{row_of};
ghost use Rattle.kernel_meaning.specs.Times as meaning;
ghost use Rattle.kernel_meaning.specs.Made.{IsMade};
ghost use Rattle.process_table_base.specs.Bounds.{IsAtMost, IsBounded};

use crate::found::Found;
use crate::table::ProcessTable;
use apex_types::{
    ActionKind, Due, MOST_PROCESSES, MOST_RUNNERS, Mode, Moment, Out, ProcessIndex, ProcessStatus,
    Runner, Ticks, Wait,
};

/// The tick `count` ticks after `tick`; `None` without a count.
fn later(tick: Ticks, count: Option<Ticks>) -> Option<Ticks>
    requires tick { tick.0 ≤ MOST_TICKS }
    requires count { IsAtMost MOST_TICKS count }
    ensures { result ≡ meaning.later tick count }
{
    match count {
        Some(count) => Some(Ticks(tick.0 + count.0)),
        None => None,
    }
}

/// The record of a process that is released at `tick`: its deadline is its time capacity later.
#[tactic(auto, using(crate::proofs::Bounds::bounds))]
pub(crate) fn released_at(tick: Ticks, row: &ProcessStatus) -> ProcessStatus
    requires tick { tick.0 ≤ MOST_TICKS }
    requires bounded { IsBounded row.now }
    ensures row { result ≡ meaning.released_at tick row.now }
    ensures bounded { IsBounded result }
{
    ProcessStatus {
        release: tick,
        deadline: later(tick, row.capacity),
        ..*row
    }
}

/// The points from which a start in normal mode counts: its moment, and the partition's next
/// release point.
#[derive(Clone, Copy)]
pub struct Points {
    pub moment: Moment,
    pub next: Ticks,
    pub ghost soon: { next.0 ≤ LATEST_RELEASE_POINT },
}

impl ProcessTable {
    /// Starts the body of a process with a fresh stack and its base priority. In normal mode it is
    /// released at its release point; before that it waits for the normal start with its delay.
    pub fn start(&mut self, mode: Mode, points: Points, found: &Found, delay: Ticks, out: &mut Out)
        requires delay { delay.0 ≤ MOST_TICKS }
        requires room { HasRoom 1 1 out.old }
        ensures step { IsMade
            (meaning.starts mode points.moment.at points.next.0 self.old found.now.runner
            delay found.now.row)
            self.new out.old out.new }
        ensures grows { Grows 1 1 out.old out.new }
    {
        let process = found.runner;
        let fresh = ProcessStatus {
            current_priority: found.row.base_priority,
            ..found.row
        };
        out.act(ActionKind::Begin(process), &[]);
        if mode == Mode::Normal {
            self.start_in_normal(points, process, delay, &fresh, out);
        } else {
            self.wait_as(process, &fresh, Wait::NormalStart(delay), None, out);
        }
    }

    fn wait_for_release(&mut self, process: Runner, row: &ProcessStatus, tick: Ticks, out: &mut Out)
        requires bounded { IsBounded row.now }
        requires room { HasRoom 1 0 out.old }
        ensures step { IsMade (meaning.waits_for_release self.old process row.now tick.0)
            self.new out.old out.new }
        ensures grows { Grows 1 0 out.old out.new }
    {
        self.wait_as(
            process,
            row,
            Wait::FirstRelease,
            Some(Due::Release(tick)),
            out,
        );
    }

    /// In normal mode: releases a periodic process `delay` ticks after the partition's next release
    /// point, an aperiodic process `delay` ticks from now, in this tick if the delay is 0.
    #[inline(always)]
    fn start_in_normal(
        &mut self,
        points: Points,
        process: Runner,
        delay: Ticks,
        row: &ProcessStatus,
        out: &mut Out,
    )
        requires delay { delay.0 ≤ MOST_TICKS }
        requires process { place_of process < MOST_RUNNERS }
        requires bounded { IsBounded row.now }
        requires room { HasRoom 1 0 out.old }
        ensures step { IsMade
            (meaning.starts_in_normal points.moment.at points.next.0 self.old process delay row.now)
            self.new out.old out.new }
        ensures grows { Grows 1 0 out.old out.new }
    {
        let now = points.moment.at.now;
        if row.period.is_some() {
            self.wait_for_release(process, row, Ticks(points.next.0 + delay.0), out);
        } else if delay.0 == 0 {
            self.wake_as(process, &released_at(now, row), out);
        } else {
            self.wait_for_release(process, row, Ticks(now.0 + delay.0), out);
        }
    }

    /// A process that was started before normal mode takes the normal case of its start.
    fn start_waiting(&mut self, points: Points, process: Runner, out: &mut Out)
        requires room { HasRoom 1 0 out.old }
        ensures step { IsMade
            (meaning.starts_waiting points.moment.at points.next.0 self.old process
            (row_of self.old process))
            self.new out.old out.new }
        ensures grows { Grows 1 0 out.old out.new }
    {
        if let Some(row) = self.row(process) {
            if let Wait::NormalStart(delay) = row.wait {
                self.start_in_normal(points, process, delay, &row, out);
            }
        }
    }

    /// Each process that was started before normal mode takes the normal case of its start, in
    /// number order.
    pub fn start_all_waiting(&mut self, points: Points, out: &mut Out)
        requires room { HasRoom MOST_PROCESSES 0 out.old }
        ensures step { IsMade (meaning.start_all_waiting points.moment.at points.next.0 self.old)
            self.new out.old out.new }
        ensures grows { Grows MOST_PROCESSES 0 out.old out.new }
    {
        let mut left = self.count().saturating_sub(2);
        let mut place = 0u8;
        while left > 0 {
            self.start_waiting(points, Runner::Process(ProcessIndex(place)), out);
            left -= 1;
            place += 1;
        }
    }
}
