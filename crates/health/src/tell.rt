//! Application messages.

ghost use Rattle.std.specs.Prelude.{◌≡◌};
ghost use Rattle.apex_types.specs.Room.{HasRoom, Grows};
ghost use Rattle.kernel_meaning.specs.HealthServices as meaning;
ghost use Rattle.kernel_meaning.specs.Made.{IsTold};

use apex_types::limits::MOST_REPORT_WORDS;
use apex_types::{LineKind, Out, ReturnCode, Service, Words};
use process_table_base::{Handed, ProcessTable, Request, answer, first_words, name_of, refuse};

/// Whether a message of `length` words is allowed from an array of `size` words.
pub fn is_message_length(size: i64, length: i64) -> bool
    ensures { result ≡ meaning.is_message_length size length }
{
    1 <= length && length <= MOST_REPORT_WORDS as i64 && length <= size
}

/// REPORT_APPLICATION_MESSAGE (ARINC 653 Part 1, health monitoring): writes a message, the first
/// `handed.length` words of the call, to the trace. INVALID_PARAM: a length below 1, above 16, or
/// above the array's size.
pub fn report_application_message(
    table: &ProcessTable,
    request: Request,
    handed: Handed,
    words: &Words,
    out: &mut Out,
)
    requires { HasRoom 2 1 out.old }
    ensures step { IsTold
        (meaning.report table.now request.caller handed.array handed.length
        words.now.items)
        out.old out.new }
    ensures grows { Grows 2 1 out.old out.new }
{
    let service = Service::ReportApplicationMessage;
    let caller = request.caller;
    let found = table.found(caller);
    if !is_message_length(handed.array.size, handed.length) {
        return refuse(
            caller,
            name_of(&found),
            service,
            ReturnCode::InvalidParam,
            out,
        );
    }
    answer(
        caller,
        name_of(&found),
        service,
        ReturnCode::NoError,
        &[],
        out,
    );
    let message = first_words(handed.length, words);
    out.tell(LineKind::Report(name_of(&found)), &message);
}
