//! Writing a message into the array of a caller.

ghost use Rattle.std.specs.Prelude.{◌≡◌, ◌≤◌, length};
ghost use Rattle.apex_types.specs.Room.{HasRoom, Grows};
ghost use Rattle.kernel_meaning.specs.Made.{IsTold};
ghost use Rattle.ports.specs.Delivering.{delivers};

use apex_types::{ActionKind, ArrayPlace, Out, ReturnCode, Service, Words};
use process_table_base::{ProcessTable, Request};

/// Ends the service with a code and its outputs, and writes the message into the caller's array.
pub(crate) fn deliver(
    table: &ProcessTable,
    request: Request,
    service: Service,
    code: ReturnCode,
    outputs: &[i64],
    array: ArrayPlace,
    message: Words,
    out: &mut Out,
)
    requires outputs { length outputs.now ≤ 6 }
    requires room { HasRoom 1 2 out.old }
    ensures step { IsTold (delivers table.now request.caller service code outputs.now array message)
        out.old out.new }
    ensures grows { Grows 1 2 out.old out.new }
{
    table.answer(request.caller, service, code, outputs, out);
    out.act(ActionKind::Write(array.base), &message);
}
