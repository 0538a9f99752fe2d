//! Errors, and the response to them: by the error handler, or by the partition's action.

ghost use Rattle.std.specs.Prelude.{◌≡◌};
ghost use Rattle.apex_types.specs.Room.{HasRoom, Grows};
ghost use Rattle.kernel_meaning.specs.HealthServices as meaning;
ghost use Rattle.kernel_meaning.specs.Sharing.{both};
ghost use Rattle.kernel_meaning.specs.Made.{IsMade, IsTold};
ghost use Rattle.health.specs.Raising.{raises_of};

use crate::errors::Errors;
use apex_types::{
    ActionKind, ErrorKind, ErrorLevel, HealthTable, LineKind, Mode, Out, PartitionAction, Response,
    Runner, Subject, Words,
};
use process_table_base::ProcessTable;

/// Whether the error handler was created since the last Clear.
fn is_handler_created(table: &ProcessTable) -> bool
    ensures { result ≡ meaning.is_handler_created table.now }
{
    match table.row(Runner::Handler) {
        Some(row) => row.created,
        None => false,
    }
}

/// How many more errors may wait for the error handler, at most 64: 0 unless it is created and the
/// mode is normal.
pub fn free_places(table: &ProcessTable, errors: &Errors, mode: Mode) -> u8
    ensures { result ≡ meaning.free_places mode (both table.now errors.now) }
{
    if mode == Mode::Normal && is_handler_created(table) {
        errors.free_places()
    } else {
        0
    }
}

/// The partition's action for an error.
pub fn action_of(table: HealthTable, error: ErrorKind) -> PartitionAction
    ensures { result ≡ meaning.action_of table error }
{
    match error {
        ErrorKind::DeadlineMissed => table.deadline_missed,
        ErrorKind::ApplicationError => table.application_error,
        ErrorKind::NumericError => table.numeric_error,
        ErrorKind::IllegalRequest => table.illegal_request,
        ErrorKind::StackOverflow => table.stack_overflow,
        ErrorKind::MemoryViolation => table.memory_violation,
        ErrorKind::HardwareFault => table.hardware_fault,
    }
}

/// The level of an error of `runner`: process level, if it is the error of a process and may wait
/// for the error handler; otherwise partition level.
pub fn level_of(mode: Mode, table: &ProcessTable, errors: &Errors, runner: Runner) -> ErrorLevel
    ensures { result ≡ meaning.level_of mode (both table.now errors.now) runner }
{
    match runner {
        Runner::Process(_) if free_places(table, errors, mode) > 0 => ErrorLevel::Process,
        _ => ErrorLevel::Partition,
    }
}

/// The response to an error: at process level by the error handler, otherwise by this action of the
/// partition.
fn response_at(level: ErrorLevel, action: PartitionAction) -> Response
    ensures { result ≡ meaning.response_at level action }
{
    match level {
        ErrorLevel::Process => Response::Handler,
        _ => Response::Partition(action),
    }
}

/// Queues the error of a process, with its message, for the handler.
fn queue(runner: Runner, error: ErrorKind, words: Words, out: &mut Out)
    requires { HasRoom 0 1 out.old }
    ensures step { IsTold (meaning.queues runner error words.items) out.old out.new }
    ensures grows { Grows 0 1 out.old out.new }
{
    if let Runner::Process(process) = runner {
        out.act(ActionKind::Queue(error, process), &words);
    }
}

/// Queues the error, with its message, for the handler, or returns the partition's action for it,
/// which remains to be done.
fn wait_or_leave(
    runner: Runner,
    error: ErrorKind,
    words: Words,
    response: Response,
    out: &mut Out,
) -> Option<PartitionAction>
    requires { HasRoom 0 1 out.old }
    ensures step { IsMade (meaning.waits_or_leaves runner error words.items response)
        result out.old out.new }
    ensures grows { Grows 0 1 out.old out.new }
{
    match response {
        Response::Handler => {
            queue(runner, error, words, out);
            None
        }
        Response::Partition(action) => Some(action),
        Response::Module(_) => None,
    }
}

/// An error of a runner: the runner and its subject in trace lines, the error, and its message.
#[derive(Drop)]
pub struct Raised {
    pub runner: Runner,
    pub who: Subject,
    pub error: ErrorKind,
    pub words: Words,
}

/// Raises an error of a runner, with its message: writes its line; at process level, queues it for
/// the error handler; at partition level, returns the partition's action for it, which remains to
/// be done.
pub fn raise_error(
    health: HealthTable,
    mode: Mode,
    table: &ProcessTable,
    errors: &Errors,
    raised: Raised,
    out: &mut Out,
) -> Option<PartitionAction>
    requires { HasRoom 1 1 out.old }
    ensures step { let how =
        meaning.response_of health mode (both table.now errors.now) raised.runner raised.error in
        IsMade (raises_of raised.runner raised.who raised.error raised.words.items how)
        result out.old out.new }
    ensures grows { Grows 1 1 out.old out.new }
{
    let Raised {
        runner,
        who,
        error,
        words,
    } = raised;
    let level = level_of(mode, table, errors, runner);
    let response = response_at(level, action_of(health, error));
    out.tell(LineKind::Error(error, Some(who), response), &[]);
    wait_or_leave(runner, error, words, response, out)
}
