//! Changes of one process, each with its line, and the answers of services.

ghost use Rattle.std.specs.Prelude.{◌≡◌, ◌<◌, ◌≤◌, ◌+◌, ◌++◌, [], ◌∷◌, pos, length};
ghost use Rattle.apex_types.specs.Runners as action;
ghost use Rattle.apex_types.specs.declared.event.EventKind.TheVariants as event;
ghost use Rattle.apex_types.specs.Room.{HasRoom, Grows};
ghost use Rattle.apex_types.specs.Runners.{place_of};
ghost use Rattle.apex_types.specs.CodeWords.{return_code_number};
ghost use Rattle.kernel_meaning.specs.Processes as meaning;
ghost use Rattle.kernel_meaning.specs.Made.{IsMade, IsTold};
ghost use Rattle.kernel_meaning.specs.Step.{message};
ghost use Rattle.kernel_meaning.specs.Step as step;
ghost use Rattle.process_table_base.specs.Bounds.{IsBounded, IsDelayed};

use crate::table::ProcessTable;
use apex_types::{
    ActionKind, Due, EventKind, LineKind, MOST_RUNNERS, Out, ProcessState, ProcessStatus,
    ReturnCode, Runner, Service, Subject, Wait,
};

/// Ends a service with a code and its outputs: its line, then the reply to the process.
pub fn answer(
    runner: Runner,
    who: Subject,
    service: Service,
    code: ReturnCode,
    outputs: &[i64],
    out: &mut Out,
)
    requires outputs { length outputs.now ≤ 6 }
    requires room { HasRoom 1 1 out.old }
    ensures lines { out.new.lines
        ≡ out.old.lines ++ event.Return who service code ∷ [] }
    ensures actions { out.new.actions
        ≡ out.old.actions
        ++ action.Reply runner (message (pos (return_code_number code) ∷ outputs.now))
        ∷ [] }
{
    out.tell(LineKind::Return(who, service, code), &[]);
    out.reply(runner, code as i64, outputs);
}

/// Refuses a service of a runner: its outputs are 0.
pub fn refuse(runner: Runner, who: Subject, service: Service, code: ReturnCode, out: &mut Out)
    requires room { HasRoom 1 1 out.old }
    ensures lines { out.new.lines
        ≡ out.old.lines ++ event.Return who service code ∷ [] }
    ensures actions { out.new.actions
        ≡ out.old.actions
        ++ action.Reply runner (message (pos (return_code_number code) ∷ step.zeros service))
        ∷ [] }
{
    answer(runner, who, service, code, zeros(service), out);
}

/// The outputs of a service that returns nothing.
#[inline(always)]
pub(crate) fn zeros(service: Service) -> &'static [i64]
    ensures zeros { result.now ≡ step.zeros service }
    ensures few { length result.now ≤ 6 }
{
    match service.shape().outputs {
        0 => &[],
        1 => &[0],
        2 => &[0, 0],
        3 => &[0, 0, 0],
        4 => &[0, 0, 0, 0],
        5 => &[0, 0, 0, 0, 0],
        _ => &[0, 0, 0, 0, 0, 0],
    }
}

/// The outputs of the service in which a process waits, in vain.
fn zeros_of_wait(wait: Wait) -> &'static [i64]
    ensures zeros { result.now ≡ meaning.zeros_of_wait wait }
    ensures few { length result.now ≤ 6 }
{
    match wait {
        Wait::Service(service) | Wait::Object { service, .. } => zeros(service),
        Wait::Nothing | Wait::NormalStart(_) | Wait::FirstRelease => &[],
    }
}

/// Writes the line of a runner that begins to wait; no line if it waited before.
fn tell_waiting(row: &ProcessStatus, out: &mut Out)
    requires { HasRoom 1 0 out.old }
    ensures lines { out.new.lines
        ≡ out.old.lines ++ meaning.waiting_lines row.now.who row.now.state }
    ensures actions { out.new.actions ≡ out.old.actions }
    ensures grows { Grows 1 0 out.old out.new }
{
    match row.state {
        ProcessState::Waiting => {}
        _ => out.tell(LineKind::State(row.who, ProcessState::Waiting), &[]),
    }
}

impl ProcessTable {
    /// The subject that trace lines show for a runner.
    pub fn subject(&self, runner: Runner) -> Subject
        ensures { result ≡ meaning.subject self.now runner }
    {
        self.name_in(runner).unwrap_or(Subject::Init)
    }

    /// The runner becomes READY with this record, and goes last. A suspended process continues to
    /// wait until it is resumed.
    #[tactic(auto, using(crate::proofs::Bounds::bounds))]
    #[inline(always)]
    pub(crate) fn wake_as(&mut self, runner: Runner, row: &ProcessStatus, out: &mut Out)
        requires runner { place_of runner < MOST_RUNNERS }
        requires bounded { IsBounded row.now }
        requires room { HasRoom 1 0 out.old }
        ensures step { IsMade (meaning.wakes self.old runner row.now) self.new out.old out.new }
        ensures grows { Grows 1 0 out.old out.new }
    {
        if row.suspended {
            let suspended = ProcessStatus {
                wait: Wait::Nothing,
                due: None,
                ..*row
            };
            return self.put_unready(runner, &suspended);
        }
        out.tell(LineKind::State(row.who, ProcessState::Ready), &[]);
        let ready = ProcessStatus {
            state: ProcessState::Ready,
            wait: Wait::Nothing,
            due: None,
            ..*row
        };
        self.put_ready(runner, &ready);
    }

    /// The runner waits with this record, until its due time if it has one. Writes no line if it
    /// waited before.
    #[tactic(auto, using(crate::proofs::Bounds::bounds))]
    #[inline(always)]
    pub(crate) fn wait_as(
        &mut self,
        runner: Runner,
        row: &ProcessStatus,
        reason: Wait,
        due: Option<Due>,
        out: &mut Out,
    )
        requires bounded { IsBounded row.now }
        requires reason { IsDelayed reason }
        requires room { HasRoom 1 0 out.old }
        ensures step { IsMade (meaning.waits self.old runner row.now reason due)
            self.new out.old out.new }
        ensures grows { Grows 1 0 out.old out.new }
    {
        tell_waiting(row, out);
        let waiting = ProcessStatus {
            state: ProcessState::Waiting,
            wait: reason,
            due,
            ..*row
        };
        self.put_unready(runner, &waiting);
    }

    /// The runner becomes dormant with this record: it is in no list, has no due time, no deadline
    /// and nothing left to do; if it held the lock, the lock is free.
    #[tactic(auto, using(crate::proofs::Bounds::bounds))]
    pub(crate) fn rest_as(&mut self, runner: Runner, row: &ProcessStatus, out: &mut Out)
        requires bounded { IsBounded row.now }
        requires room { HasRoom 1 1 out.old }
        ensures step { IsMade (meaning.rests self.old runner row.now) self.new out.old out.new }
        ensures grows { Grows 1 1 out.old out.new }
    {
        out.tell(LineKind::State(row.who, ProcessState::Dormant), &[]);
        let dormant = ProcessStatus {
            state: ProcessState::Dormant,
            suspended: false,
            wait: Wait::Nothing,
            due: None,
            deadline: None,
            ..*row
        };
        self.put_dormant(runner, &dormant);
        out.act(ActionKind::Stop(runner), &[]);
    }

    /// Ends the service in which a process waits, if it waits in one.
    fn answer_wait(
        &self,
        runner: Runner,
        row: &ProcessStatus,
        code: ReturnCode,
        outputs: &[i64],
        wait: Wait,
        out: &mut Out,
    )
        requires outputs { length outputs.now ≤ 6 }
        requires room { HasRoom 1 1 out.old }
        ensures step { IsTold (meaning.answers_wait self.now runner row.now code outputs.now wait)
            out.old out.new }
        ensures grows { Grows 1 1 out.old out.new }
    {
        match wait {
            Wait::Service(service) | Wait::Object { service, .. } => {
                answer(runner, row.who, service, code, outputs, out)
            }
            Wait::Nothing | Wait::NormalStart(_) | Wait::FirstRelease => {}
        }
    }

    /// Ends the service in which a process waits with these outputs, if it waits in one; then the
    /// process is ready.
    #[inline(always)]
    pub(crate) fn release_with(
        &mut self,
        runner: Runner,
        row: &ProcessStatus,
        code: ReturnCode,
        outputs: &[i64],
        out: &mut Out,
    )
        requires runner { place_of runner < MOST_RUNNERS }
        requires bounded { IsBounded row.now }
        requires outputs { length outputs.now ≤ 6 }
        requires room { HasRoom 2 1 out.old }
        ensures step { IsMade (meaning.released_with self.old runner row.now code outputs.now)
            self.new out.old out.new }
        ensures grows { Grows 2 1 out.old out.new }
    {
        self.answer_wait(runner, row, code, outputs, row.wait, out);
        self.leave_queues(runner);
        self.wake_as(runner, row, out);
    }

    /// With this record, ends the service in which a process waits with outputs of 0, if it waits
    /// in one; then the process is ready.
    pub(crate) fn release_as(
        &mut self,
        runner: Runner,
        row: &ProcessStatus,
        code: ReturnCode,
        out: &mut Out,
    )
        requires runner { place_of runner < MOST_RUNNERS }
        requires bounded { IsBounded row.now }
        requires room { HasRoom 2 1 out.old }
        ensures step { IsMade (meaning.released self.old runner row.now code)
            self.new out.old out.new }
        ensures grows { Grows 2 1 out.old out.new }
    {
        self.release_with(runner, row, code, zeros_of_wait(row.wait), out);
    }

    /// Ends a service of a process with a code and its outputs.
    pub fn answer(
        &self,
        runner: Runner,
        service: Service,
        code: ReturnCode,
        outputs: &[i64],
        out: &mut Out,
    )
        requires outputs { length outputs.now ≤ 6 }
        requires room { HasRoom 1 1 out.old }
        ensures step { IsTold (meaning.answers self.now runner service code outputs.now)
            out.old out.new }
        ensures grows { Grows 1 1 out.old out.new }
    {
        answer(runner, self.subject(runner), service, code, outputs, out);
    }

    /// Refuses a service, which changes nothing; its outputs are 0.
    pub fn refuse(&self, runner: Runner, service: Service, code: ReturnCode, out: &mut Out)
        requires room { HasRoom 1 1 out.old }
        ensures step { IsTold (meaning.refuses self.now runner service code) out.old out.new }
        ensures grows { Grows 1 1 out.old out.new }
    {
        refuse(runner, self.subject(runner), service, code, out);
    }
}
