//! Changes of one process by services: of its priority, its suspension, its deadline.

ghost use Rattle.std.specs.Prelude.{◌≡◌, ◌<◌, ◌≤◌, ◌+◌, ◌^◌, length, true, Some};
ghost use Rattle.apex_types.specs.declared.limits.TheConstants.{LATEST_RELEASE_POINT};
ghost use Rattle.apex_types.specs.Room.{HasRoom, Grows};
ghost use Rattle.kernel_meaning.specs.Times.{is_duration};
ghost use Rattle.kernel_meaning.specs.Processes.{put_row};
ghost use Rattle.kernel_meaning.specs.ProcessServices as meaning;
ghost use Rattle.kernel_meaning.specs.Made.{IsMade};
ghost use Rattle.process_table_base.specs.Bounds.{IsAtMost};

use crate::duration::time_out;
use crate::found::Found;
use crate::table::ProcessTable;
use apex_types::{
    Due, Moment, Out, Priority, ProcessState, ProcessStatus, ReturnCode, Service, Ticks, Wait,
};

impl ProcessTable {
    /// Changes the current priority. A ready process goes last among those of its new priority.
    pub fn take_priority(&mut self, found: &Found, priority: Priority)
        ensures { self.new
            ≡ (meaning.takes_priority self.old priority found.now.runner found.now.row).part }
    {
        let raised = ProcessStatus {
            current_priority: priority,
            ..found.row
        };
        match found.row.state {
            ProcessState::Ready | ProcessState::Running => self.put_ready(found.runner, &raised),
            ProcessState::Dormant | ProcessState::Waiting => self.put_row(found.runner, &raised),
        }
    }

    /// Suspends a process: it continues to wait for what it waited for, and until it is resumed.
    pub fn suspend(&mut self, found: &Found, out: &mut Out)
        requires { HasRoom 1 0 out.old }
        ensures step { IsMade (meaning.suspends self.old found.now.runner found.now.row)
            self.new out.old out.new }
        ensures grows { Grows 1 0 out.old out.new }
    {
        let suspended = ProcessStatus {
            suspended: true,
            ..found.row
        };
        self.wait_as(found.runner, &suspended, found.row.wait, found.row.due, out);
    }

    /// Suspends the process found until it is resumed, for at most `limit` ticks.
    pub fn suspend_self(&mut self, moment: Moment, found: &Found, limit: i64, out: &mut Out)
        requires limit { is_duration limit ≡ true }
        requires room { HasRoom 1 0 out.old }
        ensures step { IsMade
            (meaning.suspends_self moment.at self.old found.now.runner limit (Some found.now.row))
            self.new out.old out.new }
        ensures grows { Grows 1 0 out.old out.new }
    {
        let suspended = ProcessStatus {
            suspended: true,
            ..found.row
        };
        let reason = Wait::Service(Service::SuspendSelf);
        let due = time_out(moment, limit);
        self.wait_as(found.runner, &suspended, reason, due, out);
    }

    /// Ends the suspension of a process: its SUSPEND_SELF ends, and if it waits for nothing else it
    /// is ready.
    pub fn resume(&mut self, found: &Found, out: &mut Out)
        requires { HasRoom 2 1 out.old }
        ensures step { IsMade (meaning.resumes self.old found.now.runner found.now.row)
            self.new out.old out.new }
        ensures grows { Grows 2 1 out.old out.new }
    {
        let runner = found.runner;
        let resumed = ProcessStatus {
            suspended: false,
            ..found.row
        };
        match found.row.wait {
            Wait::Nothing => self.wake_as(runner, &resumed, out),
            Wait::Service(Service::SuspendSelf) => {
                self.release_as(runner, &resumed, ReturnCode::NoError, out)
            }
            _ => self.put_row(runner, &resumed),
        }
    }

    /// A periodic process has met its deadline, and waits for its next release, one period after
    /// the last. A process without a period is unchanged.
    #[tactic(auto, using(crate::proofs::Bounds::bounds))]
    pub fn wait_for_period(&mut self, found: &Found, out: &mut Out)
        requires room { HasRoom 1 0 out.old }
        ensures step { IsMade
            (meaning.waits_for_period self.old found.now.runner found.now.row found.now.row.period)
            self.new out.old out.new }
        ensures grows { Grows 1 0 out.old out.new }
    {
        if let Some(period) = found.row.period {
            let kept = ProcessStatus {
                deadline: None,
                ..found.row
            };
            let next = Ticks(found.row.release.0 + period.0);
            let reason = Wait::Service(Service::PeriodicWait);
            self.wait_as(found.runner, &kept, reason, Some(Due::Release(next)), out);
        }
    }

    /// Sets the deadline.
    #[tactic(auto, using(crate::proofs::Bounds::bounds))]
    pub fn set_deadline(&mut self, found: &Found, deadline: Option<Ticks>)
        requires { IsAtMost LATEST_RELEASE_POINT deadline }
        ensures { self.new
            ≡ put_row self.old found.now.runner (record found.now.row { deadline = deadline }) }
    {
        let row = ProcessStatus {
            deadline,
            ..found.row
        };
        self.put_row(found.runner, &row);
    }
}
