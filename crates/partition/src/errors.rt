//! The errors of a partition and of its processes, and the services on them.

ghost use Rattle.std.specs.Prelude.{◌≡◌, ◌+◌};
ghost use Rattle.apex_types.specs.Room.{HasRoom, Grows};
ghost use Rattle.kernel_meaning.specs.HealthServices as meaning;
ghost use Rattle.kernel_meaning.specs.Kernel.{of_errors, of_processes, with_errors};
ghost use Rattle.kernel_meaning.specs.Made.{IsMade};
ghost use Rattle.partition.specs.declared.rooms.TheConstants.{ACTIONS_TO_CLEAR, LINES_TO_CLEAR};

use crate::kernel::Kernel;
use apex_types::{
    ArrayPlace, ErrorKind, LineKind, Mode, Moment, Out, PartitionAction, Response, Runner,
    StartCondition, Words,
};
use health::{
    Raised, action_of, create_error_handler, get_error_status, raise_application_error,
    raise_error, report_application_message,
};
use process_table_base::{Handed, mode_of_action};

impl Kernel {
    /// The partition's action for an error.
    pub(crate) fn action_of(&self, error: ErrorKind) -> PartitionAction
        ensures { result ≡ meaning.action_of self.now.fixed.health error }
    {
        action_of(self.fixed.health, error)
    }

    /// An ignored fault of INIT leaves the partition idle.
    fn ignore(&mut self, runner: Runner, error: ErrorKind, out: &mut Out)
        requires { HasRoom LINES_TO_CLEAR ACTIONS_TO_CLEAR out.old }
        ensures step { IsMade (meaning.ignores self.old runner error) self.new out.old out.new }
        ensures grows { Grows LINES_TO_CLEAR ACTIONS_TO_CLEAR out.old out.new }
    {
        if let Runner::Init = runner {
            if is_fault(error) {
                self.clear(Mode::Idle, StartCondition::HmPartitionRestart, out);
            }
        }
    }

    /// Enters the mode that the partition's action for the error leads to, if any.
    fn enter_mode(&mut self, runner: Runner, error: ErrorKind, mode: Option<Mode>, out: &mut Out)
        requires { HasRoom LINES_TO_CLEAR ACTIONS_TO_CLEAR out.old }
        ensures step { IsMade (meaning.enters_mode self.old runner error mode)
            self.new out.old out.new }
        ensures grows { Grows LINES_TO_CLEAR ACTIONS_TO_CLEAR out.old out.new }
    {
        match mode {
            Some(mode) => self.clear(mode, StartCondition::HmPartitionRestart, out),
            None => self.ignore(runner, error, out),
        }
    }

    /// Performs the partition's action for an error, if one remains to be done.
    fn act_on_error(
        &mut self,
        runner: Runner,
        error: ErrorKind,
        left: Option<PartitionAction>,
        out: &mut Out,
    )
        requires { HasRoom LINES_TO_CLEAR ACTIONS_TO_CLEAR out.old }
        ensures step { IsMade (meaning.acts_on_error self.old runner error left)
            self.new out.old out.new }
        ensures grows { Grows LINES_TO_CLEAR ACTIONS_TO_CLEAR out.old out.new }
    {
        if let Some(action) = left {
            self.enter_mode(runner, error, mode_of_action(action), out);
        }
    }

    /// Writes the line of an error with the response, then performs the response. `words` are its
    /// message.
    fn handle(&mut self, runner: Runner, error: ErrorKind, words: Words, out: &mut Out)
        requires { HasRoom (1 + LINES_TO_CLEAR) (1 + ACTIONS_TO_CLEAR) out.old }
        ensures step { IsMade (meaning.handles self.old runner error words.items)
            self.new out.old out.new }
        ensures grows { Grows (1 + LINES_TO_CLEAR) (1 + ACTIONS_TO_CLEAR) out.old out.new }
    {
        let health = self.fixed.health;
        let table = &self.processes;
        let raised = Raised {
            runner,
            who: table.subject(runner),
            error,
            words,
        };
        let left = raise_error(health, self.mode, table, &self.errors, raised, out);
        self.act_on_error(runner, error, left, out);
    }

    /// Makes a runner with a fault dormant, then handles its error.
    pub(crate) fn fault(&mut self, runner: Runner, error: ErrorKind, out: &mut Out)
        requires { HasRoom (2 + LINES_TO_CLEAR) (2 + ACTIONS_TO_CLEAR) out.old }
        ensures step { IsMade (meaning.faults self.old runner error) self.new out.old out.new }
        ensures grows { Grows (2 + LINES_TO_CLEAR) (2 + ACTIONS_TO_CLEAR) out.old out.new }
    {
        self.rest(runner, out);
        self.handle(runner, error, Words::new(), out);
    }

    /// Performs the Clear that an error leads to, if any.
    pub(crate) fn then_clear(&mut self, mode: Option<Mode>, out: &mut Out)
        requires { HasRoom LINES_TO_CLEAR ACTIONS_TO_CLEAR out.old }
        ensures step { IsMade (meaning.then_clears self.old mode) self.new out.old out.new }
        ensures grows { Grows LINES_TO_CLEAR ACTIONS_TO_CLEAR out.old out.new }
    {
        if let Some(mode) = mode {
            self.clear(mode, StartCondition::HmPartitionRestart, out);
        }
    }

    /// A fault of the partition's hardware: writes its line, then performs the partition's action
    /// for it.
    pub(crate) fn break_down(&mut self, out: &mut Out)
        requires { HasRoom (1 + LINES_TO_CLEAR) ACTIONS_TO_CLEAR out.old }
        ensures step { IsMade (meaning.breaks self.old) self.new out.old out.new }
        ensures grows { Grows (1 + LINES_TO_CLEAR) ACTIONS_TO_CLEAR out.old out.new }
    {
        let error = ErrorKind::HardwareFault;
        let action = self.action_of(error);
        let response = Response::Partition(action);
        out.tell(LineKind::Error(error, None, response), &[]);
        self.then_clear(mode_of_action(action), out);
    }

    /// REPORT_APPLICATION_MESSAGE (ARINC 653 Part 1, health monitoring).
    pub(crate) fn report(
        &mut self,
        moment: Moment,
        caller: Runner,
        handed: Handed,
        words: &Words,
        out: &mut Out,
    )
        requires { HasRoom 2 1 out.old }
        ensures step { IsMade
            (of_processes self.old
            (meaning.report self.old.processes caller handed.array
            handed.length words.now.items))
            self.new out.old out.new }
        ensures grows { Grows 2 1 out.old out.new }
    {
        let request = self.request(moment, caller);
        report_application_message(&self.processes, request, handed, words, out);
    }

    /// CREATE_ERROR_HANDLER (ARINC 653 Part 1, health monitoring).
    pub(crate) fn create_error_handler(&mut self, moment: Moment, caller: Runner, out: &mut Out)
        requires { HasRoom 1 1 out.old }
        ensures step { IsMade
            (of_errors self.old
            (meaning.create_error_handler self.old.mode (with_errors self.old) caller))
            self.new out.old out.new }
        ensures grows { Grows 1 1 out.old out.new }
    {
        let request = self.request(moment, caller);
        create_error_handler(&mut self.processes, &self.errors, request, out);
    }

    /// GET_ERROR_STATUS (ARINC 653 Part 1, health monitoring).
    pub(crate) fn get_error_status(
        &mut self,
        moment: Moment,
        caller: Runner,
        array: ArrayPlace,
        out: &mut Out,
    )
        requires { HasRoom 1 2 out.old }
        ensures step { IsMade
            (of_errors self.old (meaning.get_error_status (with_errors self.old) caller array))
            self.new out.old out.new }
        ensures grows { Grows 1 2 out.old out.new }
    {
        let request = self.request(moment, caller);
        get_error_status(&self.processes, &mut self.errors, request, array, out);
    }

    /// RAISE_APPLICATION_ERROR (ARINC 653 Part 1, health monitoring), with the partition's action
    /// that remains to be done.
    pub(crate) fn raise_application_error(
        &mut self,
        moment: Moment,
        caller: Runner,
        error: i64,
        handed: Handed,
        words: &Words,
        out: &mut Out,
    )
        requires room { HasRoom (2 + LINES_TO_CLEAR) (2 + ACTIONS_TO_CLEAR) out.old }
        ensures step { IsMade
            (meaning.raises_application_error self.old caller error handed.array
            handed.length words.now.items)
            self.new out.old out.new }
        ensures grows { Grows (2 + LINES_TO_CLEAR) (2 + ACTIONS_TO_CLEAR) out.old out.new }
    {
        let health = self.fixed.health;
        let request = self.request(moment, caller);
        let table = &self.processes;
        let left = raise_application_error(
            health,
            table,
            &self.errors,
            request,
            error,
            handed,
            words,
            out,
        );
        self.act_on_error(caller, ErrorKind::ApplicationError, left, out);
    }
}

/// Whether it is an error in the code of a process, after which the process does not continue.
fn is_fault(error: ErrorKind) -> bool
    ensures { result ≡ meaning.is_fault error }
{
    match error {
        ErrorKind::NumericError
        | ErrorKind::IllegalRequest
        | ErrorKind::StackOverflow
        | ErrorKind::MemoryViolation => true,
        _ => false,
    }
}
