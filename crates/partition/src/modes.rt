//! Clear, the normal start, SET_PARTITION_MODE, and the end of a body.

ghost use Rattle.std.specs.Prelude.{◌≡◌, ◌+◌, length, pos};
ghost use Rattle.apex_types.specs.Room.{HasRoom, Grows};
ghost use Rattle.kernel_meaning.specs.Kernel.{of_processes};
ghost use Rattle.kernel_meaning.specs.PartitionServices as meaning;
ghost use Rattle.kernel_meaning.specs.Processes.{rests_found, row_of};
ghost use Rattle.kernel_meaning.specs.Made.{IsMade, IsTold};
ghost use Rattle.partition.specs.declared.rooms.TheConstants.{ACTIONS_TO_CLEAR, ACTIONS_TO_SET_MODE, ACTIONS_TO_START_NORMALLY, LINES_TO_CLEAR, LINES_TO_SET_MODE, LINES_TO_START_NORMALLY};

use crate::kernel::Kernel;
use apex_types::{
    ActionKind, LineKind, Mode, Moment, Out, ProcessState, ReturnCode, Runner, Service,
    StartCondition, Subject,
};
use process_table::stop_self;

impl Kernel {
    /// Removes all processes, objects and waiting errors; empties the ports, which are no longer
    /// created; for a cold start restores the data; unless the mode is idle, starts INIT.
    pub(crate) fn clear(&mut self, mode: Mode, condition: StartCondition, out: &mut Out)
        requires { HasRoom LINES_TO_CLEAR ACTIONS_TO_CLEAR out.old }
        ensures step { IsMade (meaning.clears self.old mode condition) self.new out.old out.new }
        ensures grows { Grows LINES_TO_CLEAR ACTIONS_TO_CLEAR out.old out.new }
    {
        out.tell(LineKind::Mode(mode), &[]);
        out.act(ActionKind::StopAll, &[]);
        if mode == Mode::ColdStart {
            out.act(ActionKind::Restore, &[]);
        }
        if mode != Mode::Idle {
            out.tell(LineKind::State(Subject::Init, ProcessState::Ready), &[]);
            out.act(ActionKind::Begin(Runner::Init), &[]);
        }
        self.mode = mode;
        self.condition = condition;
        self.processes.clear(mode);
        self.objects.clear();
        self.ports.clear();
        self.errors.clear();
    }

    /// Makes `runner` dormant.
    pub(crate) fn rest(&mut self, runner: Runner, out: &mut Out)
        requires { HasRoom 1 1 out.old }
        ensures step { IsMade
            (of_processes self.old
            (rests_found self.old.processes runner (row_of self.old.processes runner)))
            self.new out.old out.new }
        ensures grows { Grows 1 1 out.old out.new }
    {
        if let Some(found) = self.processes.found(runner) {
            self.processes.rest(&found, out);
        }
    }

    fn enter_normal(&mut self, out: &mut Out)
        requires { HasRoom 1 0 out.old }
        ensures step { IsMade (meaning.enters_normal self.old) self.new out.old out.new }
        ensures grows { Grows 1 0 out.old out.new }
    {
        out.tell(LineKind::Mode(Mode::Normal), &[]);
        self.mode = Mode::Normal;
    }

    /// INIT becomes dormant, the mode normal; then the processes that wait for the normal start are
    /// started in number order.
    fn start_normally(&mut self, moment: Moment, out: &mut Out)
        requires room { HasRoom LINES_TO_START_NORMALLY ACTIONS_TO_START_NORMALLY out.old }
        ensures step { IsMade (meaning.starts_normally moment.at self.old)
            self.new out.old out.new }
        ensures grows { Grows LINES_TO_START_NORMALLY ACTIONS_TO_START_NORMALLY out.old out.new }
    {
        let points = self.points(moment);
        self.rest(Runner::Init, out);
        self.enter_normal(out);
        self.processes.start_all_waiting(points, out);
    }

    /// The words that GET_PARTITION_STATUS returns.
    fn status(&self) -> [i64; 6]
        ensures { result ≡ meaning.status_of self.now }
    {
        let fixed = &self.fixed;
        [
            i64::from(fixed.number.0),
            i64::from(fixed.period),
            i64::from(fixed.duration),
            i64::from(self.processes.lock_level()),
            number_of_mode(self.mode),
            number_of_condition(self.condition),
        ]
    }

    /// GET_PARTITION_STATUS (ARINC 653 Part 1, partition management): returns the partition's
    /// number, its period and duration in ticks, the level of the preemption lock, the mode, and
    /// the start condition.
    pub fn get_partition_status(&self, caller: Runner, out: &mut Out)
        requires { HasRoom 1 1 out.old }
        ensures step { IsTold (meaning.get_partition_status self.now caller) out.old out.new }
        ensures grows { Grows 1 1 out.old out.new }
    {
        let outputs = self.status();
        let service = Service::GetPartitionStatus;
        self.processes
            .answer(caller, service, ReturnCode::NoError, &outputs, out);
    }

    /// SET_PARTITION_MODE (ARINC 653 Part 1, partition management): the partition enters a mode.
    /// INVALID_PARAM: no mode has this number; NO_ACTION: normal mode in normal mode; INVALID_MODE:
    /// a warm start in a cold start.
    pub fn set_partition_mode(&mut self, moment: Moment, caller: Runner, mode: i64, out: &mut Out)
        requires room { HasRoom LINES_TO_SET_MODE ACTIONS_TO_SET_MODE out.old }
        ensures step { IsMade (meaning.set_partition_mode moment.at self.old caller mode)
            self.new out.old out.new }
        ensures grows { Grows LINES_TO_SET_MODE ACTIONS_TO_SET_MODE out.old out.new }
    {
        let service = Service::SetPartitionMode;
        let processes = &self.processes;
        let Some(wanted) = mode_of(mode) else {
            return processes.refuse(caller, service, ReturnCode::InvalidParam, out);
        };
        if wanted == Mode::Normal && self.mode == Mode::Normal {
            return processes.refuse(caller, service, ReturnCode::NoAction, out);
        }
        if wanted == Mode::WarmStart && self.mode == Mode::ColdStart {
            return processes.refuse(caller, service, ReturnCode::InvalidMode, out);
        }
        processes.answer(caller, service, ReturnCode::NoError, &[], out);
        match wanted {
            Mode::Normal => self.start_normally(moment, out),
            other => self.clear(other, StartCondition::PartitionRestart, out),
        }
    }

    /// The end of a body: a process or the handler becomes dormant, INIT leaves the partition idle.
    pub(crate) fn end_body(&mut self, runner: Runner, out: &mut Out)
        requires { HasRoom LINES_TO_CLEAR ACTIONS_TO_CLEAR out.old }
        ensures step { IsMade (meaning.ends_body self.old runner) self.new out.old out.new }
        ensures grows { Grows LINES_TO_CLEAR ACTIONS_TO_CLEAR out.old out.new }
    {
        match runner {
            Runner::Init => self.clear(Mode::Idle, StartCondition::PartitionRestart, out),
            other => stop_self(&mut self.processes, other, out),
        }
    }
}

fn number_of_mode(mode: Mode) -> i64
    ensures { result ≡ pos (meaning.number_of_mode mode) }
{
    mode as i64
}

fn number_of_condition(condition: StartCondition) -> i64
    ensures { result ≡ pos (meaning.number_of_condition condition) }
{
    condition as i64
}

/// The mode with this number; `None` if no mode has it.
fn mode_of(number: i64) -> Option<Mode>
    ensures { result ≡ meaning.mode_of number }
{
    match number {
        0 => Some(Mode::Idle),
        1 => Some(Mode::ColdStart),
        2 => Some(Mode::WarmStart),
        3 => Some(Mode::Normal),
        _ => None,
    }
}
