//! The services on semaphores.

ghost use Rattle.std.specs.Prelude.{◌≡◌, ◌<◌, ◌+◌, length};
ghost use Rattle.apex_types.specs.Room.{HasRoom, Grows};
ghost use Rattle.kernel_meaning.specs.SemaphoreServices as meaning;
ghost use Rattle.kernel_meaning.specs.Made.{IsMade};
ghost use Rattle.kernel_meaning.specs.Sharing.{both};

use apex_types::{ListKey, Out, ReturnCode, Service, Waiting};
use process_table_base::{ProcessTable, Request, is_duration};
use sync_objects_base::Objects;

/// CREATE_SEMAPHORE (ARINC 653 Part 1, intrapartition communication): creates the semaphore of this
/// number, and returns the number. INVALID_MODE: in normal mode; INVALID_CONFIG: no such semaphore
/// is declared; NO_ACTION: it was already created.
pub fn create_semaphore(
    table: &ProcessTable,
    objects: &mut Objects,
    request: Request,
    name: i64,
    out: &mut Out,
)
    requires { HasRoom 1 1 out.old }
    ensures step { IsMade
        (meaning.create_semaphore request.mode (both table.now objects.old) request.caller name)
        (both table.now objects.new) out.old out.new }
    ensures grows { Grows 1 1 out.old out.new }
{
    let service = Service::CreateSemaphore;
    let found = objects
        .semaphore(name)
        .map(|(place, semaphore)| (place, semaphore.is_created()));
    if let Some(place) = table.answer_create(&request, service, name, found, out) {
        objects.create_semaphore(place);
    }
}

/// GET_SEMAPHORE_ID (ARINC 653 Part 1, intrapartition communication): returns the number of a
/// semaphore. INVALID_CONFIG: no semaphore of this number was created.
pub fn get_semaphore_id(
    table: &ProcessTable,
    objects: &Objects,
    request: Request,
    name: i64,
    out: &mut Out,
)
    requires { HasRoom 1 1 out.old }
    ensures step { IsMade
        (meaning.get_semaphore_id (both table.now objects.now) request.caller name)
        (both table.now objects.now) out.old out.new }
    ensures grows { Grows 1 1 out.old out.new }
{
    let service = Service::GetSemaphoreId;
    let created = objects
        .semaphore(name)
        .is_some_and(|(_, semaphore)| semaphore.is_created());
    table.answer_id(request.caller, service, name, created, out);
}

/// WAIT_SEMAPHORE (ARINC 653 Part 1, intrapartition communication): lowers the value of a semaphore
/// by one. If it is 0, blocks the caller for at most `limit` ticks; -1 is no limit. INVALID_PARAM:
/// no semaphore of this number was created, or a limit below -1 or above 2^40 ticks; NOT_AVAILABLE:
/// the value and the limit are 0; INVALID_MODE: the caller may not wait; TIMED_OUT: the wait
/// reached the limit.
pub fn wait_semaphore(
    table: &mut ProcessTable,
    objects: &mut Objects,
    request: Request,
    id: i64,
    limit: i64,
    out: &mut Out,
)
    requires room { HasRoom 1 1 out.old }
    ensures step { IsMade
        (meaning.wait_semaphore request.moment.at (both table.old objects.old)
        request.caller id limit)
        (both table.new objects.new) out.old out.new }
    ensures grows { Grows 1 1 out.old out.new }
{
    let service = Service::WaitSemaphore;
    let Some((place, semaphore)) = objects.semaphore(id) else {
        return table.refuse(request.caller, service, ReturnCode::InvalidParam, out);
    };
    if !semaphore.is_created() || !is_duration(limit) {
        return table.refuse(request.caller, service, ReturnCode::InvalidParam, out);
    }
    let value = semaphore.value();
    if 0 < value {
        table.answer(request.caller, service, ReturnCode::NoError, &[], out);
        return objects.put_semaphore(place, semaphore.with_value(value - 1));
    }
    let waiting = Waiting {
        service,
        list: ListKey::Semaphore(place),
        discipline: semaphore.discipline(),
        array: None,
    };
    table.block(request, limit, waiting, &[], out);
}

/// SIGNAL_SEMAPHORE (ARINC 653 Part 1, intrapartition communication): releases the first process
/// that waits for a semaphore; if none waits, raises its value by one. INVALID_PARAM: no semaphore
/// of this number was created; NO_ACTION: its value is its maximum.
pub fn signal_semaphore(
    table: &mut ProcessTable,
    objects: &mut Objects,
    request: Request,
    id: i64,
    out: &mut Out,
)
    requires { HasRoom 3 2 out.old }
    ensures step { IsMade (meaning.signal_semaphore (both table.old objects.old) request.caller id)
        (both table.new objects.new) out.old out.new }
    ensures grows { Grows 3 2 out.old out.new }
{
    let service = Service::SignalSemaphore;
    let Some((place, semaphore)) = objects.semaphore(id) else {
        return table.refuse(request.caller, service, ReturnCode::InvalidParam, out);
    };
    if !semaphore.is_created() {
        return table.refuse(request.caller, service, ReturnCode::InvalidParam, out);
    }
    let value = semaphore.value();
    if value >= semaphore.maximum() {
        return table.refuse(request.caller, service, ReturnCode::NoAction, out);
    }
    table.answer(request.caller, service, ReturnCode::NoError, &[], out);
    match table.first_waiting(ListKey::Semaphore(place)) {
        Some(first) => table.release(&first, ReturnCode::NoError, out),
        None => objects.put_semaphore(place, semaphore.with_value(value + 1)),
    }
}

/// GET_SEMAPHORE_STATUS (ARINC 653 Part 1, intrapartition communication): returns the value of a
/// semaphore, its maximum, and the number of waiting processes. INVALID_PARAM: no semaphore of this
/// number was created.
pub fn get_semaphore_status(
    table: &ProcessTable,
    objects: &Objects,
    request: Request,
    id: i64,
    out: &mut Out,
)
    requires { HasRoom 1 1 out.old }
    ensures step { IsMade
        (meaning.get_semaphore_status (both table.now objects.now) request.caller id)
        (both table.now objects.now) out.old out.new }
    ensures grows { Grows 1 1 out.old out.new }
{
    let service = Service::GetSemaphoreStatus;
    match objects.semaphore(id) {
        Some((place, semaphore)) if semaphore.is_created() => {
            let value = i64::from(semaphore.value());
            let maximum = i64::from(semaphore.maximum());
            let waiting = table.waiting_count(ListKey::Semaphore(place));
            let outputs = [value, maximum, i64::from(waiting)];
            table.answer(request.caller, service, ReturnCode::NoError, &outputs, out)
        }
        _ => table.refuse(request.caller, service, ReturnCode::InvalidParam, out),
    }
}
