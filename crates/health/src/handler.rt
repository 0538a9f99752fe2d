//! The error handler: its creation, its start, and the service that hands it the errors.

ghost use Rattle.std.specs.Prelude.{◌≡◌, pos, true};
ghost use Rattle.apex_types.specs.Room.{HasRoom, Grows};
ghost use Rattle.kernel_meaning.specs.HealthServices as meaning;
ghost use Rattle.kernel_meaning.specs.Processes.{is_created, row_of};
ghost use Rattle.kernel_meaning.specs.ProcessServices.{of_row};
ghost use Rattle.kernel_meaning.specs.Sharing.{both};
ghost use Rattle.kernel_meaning.specs.Made.{IsMade};
ghost use Rattle.kernel_meaning.specs.Step.{nothing};
ghost use Rattle.process_table_base.specs.FoundView.{record_of};

use crate::errors::Errors;
use apex_types::limits::MOST_REPORT_WORDS;
use apex_types::{
    ActionKind, ArrayPlace, ErrorKind, Mode, Out, ReturnCode, Runner, Service, WaitingError,
};
use process_table_base::{
    Found, ProcessTable, Request, fill, is_dormant, is_large_enough, is_same,
};

/// CREATE_ERROR_HANDLER (ARINC 653 Part 1, health monitoring): creates the error handler, which is
/// dormant until an error waits for it. INVALID_MODE: in normal mode; INVALID_CONFIG: the source
/// has no error handler; NO_ACTION: it was created since the last Clear.
pub fn create_error_handler(
    table: &mut ProcessTable,
    errors: &Errors,
    request: Request,
    out: &mut Out,
)
    requires { HasRoom 1 1 out.old }
    ensures step { IsMade
        (meaning.create_error_handler request.mode (both table.old errors.now) request.caller)
        (both table.new errors.now) out.old out.new }
    ensures grows { Grows 1 1 out.old out.new }
{
    let service = Service::CreateErrorHandler;
    let caller = request.caller;
    if request.mode == Mode::Normal {
        return table.refuse(caller, service, ReturnCode::InvalidMode, out);
    }
    if !errors.has_handler() {
        return table.refuse(caller, service, ReturnCode::InvalidConfig, out);
    }
    let handler = table.found(Runner::Handler);
    if is_created(&handler) {
        return table.refuse(caller, service, ReturnCode::NoAction, out);
    }
    table.answer(caller, service, ReturnCode::NoError, &[], out);
    if let Some(handler) = handler {
        table.create(&handler);
    }
}

/// Whether a created runner was found.
fn is_created(found: &Option<Found>) -> bool
    ensures { result ≡ of_row is_created (record_of found.now) }
{
    match found {
        Some(found) => found.row.created,
        None => false,
    }
}

/// The number of an error as a program reads it, 0 to 6.
fn number_of_error(error: ErrorKind) -> i64
    ensures { result ≡ pos (meaning.number_of_error error) }
{
    error as i64
}

/// What a program learns of an error: its number, that of its process, and the length of its
/// message.
fn status_of(error: &WaitingError) -> [i64; 3]
    ensures { result ≡ meaning.error_status error.now }
{
    let process = i64::from(error.process.0) + 1;
    let length = error.words.len() as i64;
    [number_of_error(error.kind), process, length]
}

/// Takes the first error, and writes its message into the array. NO_ACTION: no error waits.
#[tactic(auto, using(crate::proofs::Taking::taking))]
fn take_error(
    table: &ProcessTable,
    errors: &mut Errors,
    request: Request,
    array: ArrayPlace,
    out: &mut Out,
)
    requires { HasRoom 1 2 out.old }
    ensures step { IsMade
        (meaning.takes_error (both table.now errors.old) request.caller array errors.old.waiting)
        (both table.now errors.new) out.old out.new }
    ensures grows { Grows 1 2 out.old out.new }
{
    let service = Service::GetErrorStatus;
    match errors.pop() {
        Some(error) => {
            let outputs = status_of(&error);
            table.answer(request.caller, service, ReturnCode::NoError, &outputs, out);
            fill(Some(array), &error.words, out);
        }
        None => table.refuse(request.caller, service, ReturnCode::NoAction, out),
    }
}

/// GET_ERROR_STATUS (ARINC 653 Part 1, health monitoring): takes the error that has waited longest.
/// Returns its number, 0 to 6, the number of its process, from 1 on, and the length of its message
/// in words; the message goes into the array. INVALID_CONFIG: the caller is not the error handler;
/// INVALID_PARAM: an array without room for 16 words; NO_ACTION: no error waits.
pub fn get_error_status(
    table: &ProcessTable,
    errors: &mut Errors,
    request: Request,
    array: ArrayPlace,
    out: &mut Out,
)
    requires { HasRoom 1 2 out.old }
    ensures step { IsMade
        (meaning.get_error_status (both table.now errors.old) request.caller array)
        (both table.now errors.new) out.old out.new }
    ensures grows { Grows 1 2 out.old out.new }
{
    let service = Service::GetErrorStatus;
    if !is_same(request.caller, Runner::Handler) {
        return table.refuse(request.caller, service, ReturnCode::InvalidConfig, out);
    }
    if !is_large_enough(MOST_REPORT_WORDS, array) {
        return table.refuse(request.caller, service, ReturnCode::InvalidParam, out);
    }
    take_error(table, errors, request, array, out);
}

/// A created, dormant handler begins with a fresh stack, and becomes READY.
#[tactic(auto, using(crate::proofs::Waking::waking))]
fn begin_if_dormant(table: &mut ProcessTable, out: &mut Out)
    requires { HasRoom 1 1 out.old }
    ensures step { IsMade (meaning.begins_if_dormant table.old (row_of table.old Runner.Handler))
        table.new out.old out.new }
    ensures grows { Grows 1 1 out.old out.new }
{
    if let Some(handler) = table.found(Runner::Handler) {
        if handler.row.created && is_dormant(&handler.row) {
            table.wake(&handler, out);
            out.act(ActionKind::Begin(Runner::Handler), &[]);
        }
    }
}

/// Whether the handler is not dormant, or was not created.
fn cannot_begin(table: &ProcessTable) -> bool
    ensures { result ≡ true
        → meaning.begins_if_dormant table.now (row_of table.now Runner.Handler)
        ≡ nothing table.now }
{
    match table.row(Runner::Handler) {
        Some(row) => !(row.created && is_dormant(&row)),
        None => true,
    }
}

/// Whether [`start_handler`] would change nothing: the mode is not normal, no error waits, or the
/// handler is not dormant.
pub fn handler_stays(table: &ProcessTable, errors: &Errors, mode: Mode) -> bool
    ensures { result ≡ true
        → meaning.starts_handler mode (both table.now errors.now) ≡ nothing table.now }
{
    mode != Mode::Normal || !errors.is_waiting() || cannot_begin(table)
}

/// In normal mode, starts a dormant error handler if an error waits for it; it becomes READY.
pub fn start_handler(table: &mut ProcessTable, errors: &Errors, mode: Mode, out: &mut Out)
    requires { HasRoom 1 1 out.old }
    ensures step { IsMade (meaning.starts_handler mode (both table.old errors.now))
        table.new out.old out.new }
    ensures grows { Grows 1 1 out.old out.new }
{
    if mode == Mode::Normal && errors.is_waiting() {
        begin_if_dormant(table, out);
    }
}
