//! The services on events.

ghost use Rattle.std.specs.Prelude.{◌≡◌, ◌<◌, ◌+◌, length, pos};
ghost use Rattle.apex_types.specs.Room.{HasRoom, Grows};
ghost use Rattle.kernel_meaning.specs.EventServices as meaning;
ghost use Rattle.kernel_meaning.specs.Made.{IsMade};
ghost use Rattle.kernel_meaning.specs.Sharing.{both};
ghost use Rattle.process_table_base.specs.declared.rooms.TheConstants.{ACTIONS_TO_RELEASE_ALL, LINES_TO_RELEASE_ALL};

use apex_types::{Discipline, ListKey, Out, ReturnCode, Service, Waiting};
use process_table_base::{ProcessTable, Request, is_duration};
use sync_objects_base::Objects;

/// CREATE_EVENT (ARINC 653 Part 1, intrapartition communication): creates the event of this number,
/// down, and returns the number. INVALID_MODE: in normal mode; INVALID_CONFIG: no such event is
/// declared; NO_ACTION: it was already created.
pub fn create_event(
    table: &ProcessTable,
    objects: &mut Objects,
    request: Request,
    name: i64,
    out: &mut Out,
)
    requires { HasRoom 1 1 out.old }
    ensures step { IsMade
        (meaning.create_event request.mode (both table.now objects.old) request.caller name)
        (both table.now objects.new) out.old out.new }
    ensures grows { Grows 1 1 out.old out.new }
{
    let service = Service::CreateEvent;
    let found = objects
        .event(name)
        .map(|(place, event)| (place, event.is_created()));
    if let Some(place) = table.answer_create(&request, service, name, found, out) {
        objects.create_event(place);
    }
}

/// GET_EVENT_ID (ARINC 653 Part 1, intrapartition communication): returns the number of an event.
/// INVALID_CONFIG: no event of this number was created.
pub fn get_event_id(
    table: &ProcessTable,
    objects: &Objects,
    request: Request,
    name: i64,
    out: &mut Out,
)
    requires { HasRoom 1 1 out.old }
    ensures step { IsMade (meaning.get_event_id (both table.now objects.now) request.caller name)
        (both table.now objects.now) out.old out.new }
    ensures grows { Grows 1 1 out.old out.new }
{
    let service = Service::GetEventId;
    let created = objects
        .event(name)
        .is_some_and(|(_, event)| event.is_created());
    table.answer_id(request.caller, service, name, created, out);
}

/// SET_EVENT (ARINC 653 Part 1, intrapartition communication): sets an event up, and releases all
/// processes that wait for it, in order of arrival. INVALID_PARAM: no event of this number was
/// created.
pub fn set_event(
    table: &mut ProcessTable,
    objects: &mut Objects,
    request: Request,
    id: i64,
    out: &mut Out,
)
    requires { HasRoom (1 + LINES_TO_RELEASE_ALL) (1 + ACTIONS_TO_RELEASE_ALL) out.old }
    ensures step { IsMade (meaning.set_event (both table.old objects.old) request.caller id)
        (both table.new objects.new) out.old out.new }
    ensures grows { Grows (1 + LINES_TO_RELEASE_ALL) (1 + ACTIONS_TO_RELEASE_ALL) out.old out.new }
{
    let service = Service::SetEvent;
    match objects.event(id) {
        Some((place, event)) if event.is_created() => {
            table.answer(request.caller, service, ReturnCode::NoError, &[], out);
            objects.put_event(place, event.with_state(true));
            table.release_all(ListKey::Event(place), out)
        }
        _ => table.refuse(request.caller, service, ReturnCode::InvalidParam, out),
    }
}

/// RESET_EVENT (ARINC 653 Part 1, intrapartition communication): sets an event down. INVALID_PARAM:
/// no event of this number was created.
pub fn reset_event(
    table: &ProcessTable,
    objects: &mut Objects,
    request: Request,
    id: i64,
    out: &mut Out,
)
    requires { HasRoom 1 1 out.old }
    ensures step { IsMade (meaning.reset_event (both table.now objects.old) request.caller id)
        (both table.now objects.new) out.old out.new }
    ensures grows { Grows 1 1 out.old out.new }
{
    let service = Service::ResetEvent;
    match objects.event(id) {
        Some((place, event)) if event.is_created() => {
            table.answer(request.caller, service, ReturnCode::NoError, &[], out);
            objects.put_event(place, event.with_state(false))
        }
        _ => table.refuse(request.caller, service, ReturnCode::InvalidParam, out),
    }
}

/// WAIT_EVENT (ARINC 653 Part 1, intrapartition communication): if an event is down, blocks the
/// caller for at most `limit` ticks; -1 is no limit. INVALID_PARAM: no event of this number was
/// created, or a limit below -1 or above 2^40 ticks; NOT_AVAILABLE: it is down and the limit is 0;
/// INVALID_MODE: the caller may not wait; TIMED_OUT: the wait reached the limit.
pub fn wait_event(
    table: &mut ProcessTable,
    objects: &Objects,
    request: Request,
    id: i64,
    limit: i64,
    out: &mut Out,
)
    requires room { HasRoom 1 1 out.old }
    ensures step { IsMade
        (meaning.wait_event request.moment.at (both table.old objects.now) request.caller id limit)
        (both table.new objects.now) out.old out.new }
    ensures grows { Grows 1 1 out.old out.new }
{
    let service = Service::WaitEvent;
    let Some((place, event)) = objects.event(id) else {
        return table.refuse(request.caller, service, ReturnCode::InvalidParam, out);
    };
    if !event.is_created() || !is_duration(limit) {
        return table.refuse(request.caller, service, ReturnCode::InvalidParam, out);
    }
    if event.is_up() {
        return table.answer(request.caller, service, ReturnCode::NoError, &[], out);
    }
    let waiting = Waiting {
        service,
        list: ListKey::Event(place),
        discipline: Discipline::Fifo,
        array: None,
    };
    table.block(request, limit, waiting, &[], out);
}

/// 0 for down, 1 for up.
fn number_of_state(up: bool) -> i64
    ensures { result ≡ pos (meaning.number_of_state up) }
{
    if up { 1 } else { 0 }
}

/// GET_EVENT_STATUS (ARINC 653 Part 1, intrapartition communication): returns the state of an
/// event, 0 for down and 1 for up, and the number of waiting processes. INVALID_PARAM: no event of
/// this number was created.
pub fn get_event_status(
    table: &ProcessTable,
    objects: &Objects,
    request: Request,
    id: i64,
    out: &mut Out,
)
    requires { HasRoom 1 1 out.old }
    ensures step { IsMade (meaning.get_event_status (both table.now objects.now) request.caller id)
        (both table.now objects.now) out.old out.new }
    ensures grows { Grows 1 1 out.old out.new }
{
    let service = Service::GetEventStatus;
    match objects.event(id) {
        Some((place, event)) if event.is_created() => {
            let state = number_of_state(event.is_up());
            let waiting = table.waiting_count(ListKey::Event(place));
            let outputs = [state, i64::from(waiting)];
            table.answer(request.caller, service, ReturnCode::NoError, &outputs, out)
        }
        _ => table.refuse(request.caller, service, ReturnCode::InvalidParam, out),
    }
}
