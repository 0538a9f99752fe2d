//! The services on blackboards.

ghost use Rattle.std.specs.Prelude.{◌≡◌, ◌<◌, ◌+◌, [], length, pos, true};
ghost use Rattle.apex_types.specs.Room.{HasRoom, Grows};
ghost use Rattle.apex_types.specs.Limits.{MOST_OBJECTS};
ghost use Rattle.kernel_meaning.specs.BlackboardServices as meaning;
ghost use Rattle.kernel_meaning.specs.Times as durations;
ghost use Rattle.kernel_meaning.specs.Made.{IsMade};
ghost use Rattle.kernel_meaning.specs.Step.{after};
ghost use Rattle.kernel_meaning.specs.Sharing.{answers};
ghost use Rattle.sync_objects_base.specs.Status.{blackboard_at};
ghost use Rattle.kernel_meaning.specs.Sharing.{both};
ghost use Rattle.sync_objects.specs.Both.{number_of_occupied};
ghost use Rattle.process_table_base.specs.declared.rooms.TheConstants.{ACTIONS_TO_GIVE_ALL, LINES_TO_GIVE_ALL};

use apex_types::{
    ActionKind, ArrayPlace, Discipline, ListKey, Out, ReturnCode, Service, Waiting, Words,
};
use process_table_base::{
    Handed, ProcessTable, Request, first_words, is_duration, is_large_enough, is_length,
};
use sync_objects_base::Objects;

/// CREATE_BLACKBOARD (ARINC 653 Part 1, intrapartition communication): creates the blackboard of
/// this number, empty, and returns the number. INVALID_MODE: in normal mode; INVALID_CONFIG: no
/// such blackboard is declared; NO_ACTION: it was already created.
pub fn create_blackboard(
    table: &ProcessTable,
    objects: &mut Objects,
    request: Request,
    name: i64,
    out: &mut Out,
)
    requires { HasRoom 1 1 out.old }
    ensures step { IsMade
        (meaning.create_blackboard request.mode (both table.now objects.old) request.caller name)
        (both table.now objects.new) out.old out.new }
    ensures grows { Grows 1 1 out.old out.new }
{
    let service = Service::CreateBlackboard;
    let found = objects
        .blackboard(name)
        .map(|(place, blackboard)| (place, blackboard.created));
    if let Some(place) = table.answer_create(&request, service, name, found, out) {
        objects.create_blackboard(place);
    }
}

/// GET_BLACKBOARD_ID (ARINC 653 Part 1, intrapartition communication): returns the number of a
/// blackboard. INVALID_CONFIG: no blackboard of this number was created.
pub fn get_blackboard_id(
    table: &ProcessTable,
    objects: &Objects,
    request: Request,
    name: i64,
    out: &mut Out,
)
    requires { HasRoom 1 1 out.old }
    ensures step { IsMade
        (meaning.get_blackboard_id (both table.now objects.now) request.caller name)
        (both table.now objects.now) out.old out.new }
    ensures grows { Grows 1 1 out.old out.new }
{
    let service = Service::GetBlackboardId;
    let created = objects
        .blackboard(name)
        .is_some_and(|(_, blackboard)| blackboard.created);
    table.answer_id(request.caller, service, name, created, out);
}

/// Ends the call. The blackboard displays the message, and all waiting processes take it in order
/// of arrival.
fn display(
    table: &mut ProcessTable,
    objects: &mut Objects,
    request: Request,
    message: Words,
    place: u8,
    out: &mut Out,
)
    requires place { place < MOST_OBJECTS }
    requires room { HasRoom (1 + LINES_TO_GIVE_ALL) (1 + ACTIONS_TO_GIVE_ALL) out.old }
    ensures step { let b = both table.old objects.old in
        IsMade
        (after (answers b request.caller Service.DisplayBlackboard ReturnCode.NoError [])
        (meaning.displays b message place (blackboard_at objects.old place)))
        (both table.new objects.new) out.old out.new }
    ensures grows { Grows (1 + LINES_TO_GIVE_ALL) (1 + ACTIONS_TO_GIVE_ALL) out.old out.new }
{
    let service = Service::DisplayBlackboard;
    table.answer(request.caller, service, ReturnCode::NoError, &[], out);
    table.give_all(ListKey::Blackboard(place), &message, out);
    objects.show(place, Some(message));
}

/// DISPLAY_BLACKBOARD (ARINC 653 Part 1, intrapartition communication): displays a message, the
/// first `handed.length` words of the call; all waiting processes take it in order of arrival.
/// INVALID_PARAM: no blackboard of this number was created, or a length below 1, above the
/// blackboard's or above the array's.
pub fn display_blackboard(
    table: &mut ProcessTable,
    objects: &mut Objects,
    request: Request,
    id: i64,
    handed: Handed,
    words: &Words,
    out: &mut Out,
)
    requires { HasRoom (1 + LINES_TO_GIVE_ALL) (1 + ACTIONS_TO_GIVE_ALL) out.old }
    ensures step { IsMade
        (meaning.display_blackboard (both table.old objects.old)
        request.caller id handed.array handed.length words.now.items)
        (both table.new objects.new) out.old out.new }
    ensures grows { Grows (1 + LINES_TO_GIVE_ALL) (1 + ACTIONS_TO_GIVE_ALL) out.old out.new }
{
    let service = Service::DisplayBlackboard;
    let Some((place, blackboard)) = objects.blackboard(id) else {
        return table.refuse(request.caller, service, ReturnCode::InvalidParam, out);
    };
    if !blackboard.created || !is_length(blackboard.row.words, handed.array, handed.length) {
        return table.refuse(request.caller, service, ReturnCode::InvalidParam, out);
    }
    let message = first_words(handed.length, words);
    display(table, objects, request, message, place, out);
}

/// CLEAR_BLACKBOARD (ARINC 653 Part 1, intrapartition communication): removes the message of a
/// blackboard. INVALID_PARAM: no blackboard of this number was created.
pub fn clear_blackboard(
    table: &ProcessTable,
    objects: &mut Objects,
    request: Request,
    id: i64,
    out: &mut Out,
)
    requires { HasRoom 1 1 out.old }
    ensures step { IsMade (meaning.clear_blackboard (both table.now objects.old) request.caller id)
        (both table.now objects.new) out.old out.new }
    ensures grows { Grows 1 1 out.old out.new }
{
    let service = Service::ClearBlackboard;
    match objects.blackboard(id) {
        Some((place, blackboard)) if blackboard.created => {
            table.answer(request.caller, service, ReturnCode::NoError, &[], out);
            objects.show(place, None)
        }
        _ => table.refuse(request.caller, service, ReturnCode::InvalidParam, out),
    }
}

/// Copies the displayed message into the array. Without one, blocks the caller for at most `limit`
/// ticks.
fn read(
    table: &mut ProcessTable,
    objects: &Objects,
    request: Request,
    array: ArrayPlace,
    limit: i64,
    place: u8,
    out: &mut Out,
)
    requires limit { durations.is_duration limit ≡ true }
    requires place { place < MOST_OBJECTS }
    requires room { HasRoom 1 2 out.old }
    ensures step { IsMade
        (meaning.reads request.moment.at (both table.old objects.now)
        request.caller array limit place (blackboard_at objects.now place).shown)
        (both table.new objects.now) out.old out.new }
    ensures grows { Grows 1 2 out.old out.new }
{
    let service = Service::ReadBlackboard;
    if let Some(message) = objects.shown(place) {
        let count = message.len() as i64;
        table.answer(request.caller, service, ReturnCode::NoError, &[count], out);
        out.act(ActionKind::Write(array.base), &message);
        return;
    }
    let waiting = Waiting {
        service,
        list: ListKey::Blackboard(place),
        discipline: Discipline::Fifo,
        array: Some(array),
    };
    table.block(request, limit, waiting, &[], out);
}

/// READ_BLACKBOARD (ARINC 653 Part 1, intrapartition communication): copies the displayed message
/// into the array, and returns its length in words. Without one, blocks the caller for at most
/// `limit` ticks; -1 is no limit. INVALID_PARAM: no blackboard of this number was created, an array
/// without room for its longest message, or a limit below -1 or above 2^40 ticks; NOT_AVAILABLE: it
/// displays none and the limit is 0; INVALID_MODE: the caller may not wait; TIMED_OUT: the wait
/// reached the limit.
pub fn read_blackboard(
    table: &mut ProcessTable,
    objects: &Objects,
    request: Request,
    id: i64,
    array: ArrayPlace,
    limit: i64,
    out: &mut Out,
)
    requires room { HasRoom 1 2 out.old }
    ensures step { IsMade
        (meaning.read_blackboard request.moment.at (both table.old objects.now)
        request.caller id array limit)
        (both table.new objects.now) out.old out.new }
    ensures grows { Grows 1 2 out.old out.new }
{
    let service = Service::ReadBlackboard;
    let Some((place, blackboard)) = objects.blackboard(id) else {
        return table.refuse(request.caller, service, ReturnCode::InvalidParam, out);
    };
    let large = is_large_enough(blackboard.row.words, array);
    if !blackboard.created || !large || !is_duration(limit) {
        return table.refuse(request.caller, service, ReturnCode::InvalidParam, out);
    }
    read(table, objects, request, array, limit, place, out);
}

/// 0 for empty, 1 for occupied.
fn indicator(occupied: bool) -> i64
    ensures { result ≡ pos (number_of_occupied occupied) }
{
    if occupied { 1 } else { 0 }
}

/// GET_BLACKBOARD_STATUS (ARINC 653 Part 1, intrapartition communication): returns 0 for an empty
/// blackboard and 1 for one that displays a message, the most words of a message, and the number of
/// waiting processes. INVALID_PARAM: no blackboard of this number was created.
#[tactic(auto, using(crate::proofs::Showing::showing))]
pub fn get_blackboard_status(
    table: &ProcessTable,
    objects: &Objects,
    request: Request,
    id: i64,
    out: &mut Out,
)
    requires { HasRoom 1 1 out.old }
    ensures step { IsMade
        (meaning.get_blackboard_status (both table.now objects.now) request.caller id)
        (both table.now objects.now) out.old out.new }
    ensures grows { Grows 1 1 out.old out.new }
{
    let service = Service::GetBlackboardStatus;
    match objects.blackboard(id) {
        Some((place, blackboard)) if blackboard.created => {
            let occupied = indicator(blackboard.occupied);
            let words = i64::from(blackboard.row.words);
            let waiting = table.waiting_count(ListKey::Blackboard(place));
            let outputs = [occupied, words, i64::from(waiting)];
            table.answer(request.caller, service, ReturnCode::NoError, &outputs, out)
        }
        _ => table.refuse(request.caller, service, ReturnCode::InvalidParam, out),
    }
}
