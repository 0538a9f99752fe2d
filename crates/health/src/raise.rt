//! RAISE_APPLICATION_ERROR.

ghost use Rattle.std.specs.Prelude.{◌≡◌, ◌+◌, ◌∷◌, [], not, pos};
ghost use Rattle.std.specs.Ordering.{int_eq};
ghost use Rattle.apex_types.specs.Room.{HasRoom, Grows};
ghost use Rattle.kernel_meaning.specs.HealthServices as meaning;
ghost use Rattle.kernel_meaning.specs.HealthServices.{leaves_none};
ghost use Rattle.kernel_meaning.specs.Processes.{answers, refuses};
ghost use Rattle.kernel_meaning.specs.Sharing.{both};
ghost use Rattle.kernel_meaning.specs.Made.{IsMade};
ghost use Rattle.kernel_meaning.specs.Step.{after, first_words, row};

use crate::errors::Errors;
use crate::respond::{Raised, raise_error};
use crate::tell::is_message_length;
use apex_types::{ErrorKind, HealthTable, Out, PartitionAction, ReturnCode, Service, Words};
use process_table_base::{Handed, ProcessTable, Request, answer, first_words, name_of};

/// Replies to the caller, then raises its error APPLICATION_ERROR with the message.
fn raise(
    health: HealthTable,
    table: &ProcessTable,
    errors: &Errors,
    request: Request,
    message: Words,
    out: &mut Out,
) -> Option<PartitionAction>
    requires { HasRoom 2 2 out.old }
    ensures step { IsMade
        (after
        (leaves_none
        (answers table.now request.caller Service.RaiseApplicationError ReturnCode.NoError []))
        (meaning.raises health request.mode (both table.now errors.now)
        request.caller ErrorKind.ApplicationError message.items))
        result out.old out.new }
    ensures grows { Grows 2 2 out.old out.new }
{
    let caller = request.caller;
    let found = table.found(caller);
    let service = Service::RaiseApplicationError;
    let code = ReturnCode::NoError;
    answer(caller, name_of(&found), service, code, &[], out);
    let raised = Raised {
        runner: caller,
        who: name_of(&found),
        error: ErrorKind::ApplicationError,
        words: message,
    };
    raise_error(health, request.mode, table, errors, raised, out)
}

/// Raises an error that a process may raise, unless its message has a wrong length.
fn raise_message(
    health: HealthTable,
    table: &ProcessTable,
    errors: &Errors,
    request: Request,
    handed: Handed,
    words: &Words,
    out: &mut Out,
) -> Option<PartitionAction>
    requires { HasRoom 2 2 out.old }
    ensures step { IsMade
        (row (λ c. leaves_none (refuses table.now request.caller Service.RaiseApplicationError c))
        ((
          not (meaning.is_message_length handed.array.size handed.length),
          ReturnCode.InvalidParam,
        )
        ∷ [])
        (after
        (leaves_none
        (answers table.now request.caller Service.RaiseApplicationError ReturnCode.NoError []))
        (meaning.raises health request.mode (both table.now errors.now)
        request.caller ErrorKind.ApplicationError
        (first_words handed.length words.now.items))))
        result out.old out.new }
    ensures grows { Grows 2 2 out.old out.new }
{
    if !is_message_length(handed.array.size, handed.length) {
        let service = Service::RaiseApplicationError;
        table.refuse(request.caller, service, ReturnCode::InvalidParam, out);
        return None;
    }
    let message = first_words(handed.length, words);
    raise(health, table, errors, request, message, out)
}

/// RAISE_APPLICATION_ERROR (ARINC 653 Part 1, health monitoring): raises the caller's error
/// APPLICATION_ERROR with a message, the first `handed.length` words of the call. At partition
/// level, returns the partition's action for it, which remains to be done. INVALID_PARAM: the error
/// is not 1, or a length below 1, above 16, or above the array's size.
pub fn raise_application_error(
    health: HealthTable,
    table: &ProcessTable,
    errors: &Errors,
    request: Request,
    error: i64,
    handed: Handed,
    words: &Words,
    out: &mut Out,
) -> Option<PartitionAction>
    requires { HasRoom 2 2 out.old }
    ensures step { IsMade
        (meaning.raise_application_error health request.mode (both table.now errors.now)
        request.caller error handed.array handed.length words.now.items)
        result out.old out.new }
    ensures grows { Grows 2 2 out.old out.new }
{
    if !is_application_error(error) {
        let service = Service::RaiseApplicationError;
        table.refuse(request.caller, service, ReturnCode::InvalidParam, out);
        return None;
    }
    raise_message(health, table, errors, request, handed, words, out)
}

/// Whether `error` is the number of the error that a process may raise.
fn is_application_error(error: i64) -> bool
    ensures { result ≡ int_eq error (pos 1) }
{
    error == 1
}
