//! The services on buffers.

ghost use Rattle.std.specs.Prelude.{◌≡◌, ◌<◌, ◌+◌, length, true};
ghost use Rattle.apex_types.specs.Room.{HasRoom, Grows};
ghost use Rattle.apex_types.specs.Limits.{MOST_OBJECTS};
ghost use Rattle.kernel_meaning.specs.BufferServices as meaning;
ghost use Rattle.kernel_meaning.specs.Times as durations;
ghost use Rattle.kernel_meaning.specs.Made.{IsMade};
ghost use Rattle.kernel_meaning.specs.Sharing.{first_waiting};
ghost use Rattle.sync_objects_base.specs.Status.{buffer_at, buffer_status};
ghost use Rattle.kernel_meaning.specs.Sharing.{both};
ghost use Rattle.sync_objects.specs.Both.{delivers};

use apex_types::{
    ActionKind, ArrayPlace, Discipline, ListKey, Out, ReturnCode, Service, Waiting, Words,
};
use process_table_base::{
    Handed, ProcessTable, Request, first_words, is_duration, is_large_enough, is_length,
};
use sync_objects_base::{BufferStatus, Objects};

/// CREATE_BUFFER (ARINC 653 Part 1, intrapartition communication): creates the buffer of this
/// number, empty, and returns the number. INVALID_MODE: in normal mode; INVALID_CONFIG: no such
/// buffer is declared; NO_ACTION: it was already created.
pub fn create_buffer(
    table: &ProcessTable,
    objects: &mut Objects,
    request: Request,
    name: i64,
    out: &mut Out,
)
    requires { HasRoom 1 1 out.old }
    ensures step { IsMade
        (meaning.create_buffer request.mode (both table.now objects.old) request.caller name)
        (both table.now objects.new) out.old out.new }
    ensures grows { Grows 1 1 out.old out.new }
{
    let service = Service::CreateBuffer;
    let found = objects
        .buffer(name)
        .map(|(place, buffer)| (place, buffer.created));
    if let Some(place) = table.answer_create(&request, service, name, found, out) {
        objects.create_buffer(place);
    }
}

/// GET_BUFFER_ID (ARINC 653 Part 1, intrapartition communication): returns the number of a buffer.
/// INVALID_CONFIG: no buffer of this number was created.
pub fn get_buffer_id(
    table: &ProcessTable,
    objects: &Objects,
    request: Request,
    name: i64,
    out: &mut Out,
)
    requires { HasRoom 1 1 out.old }
    ensures step { IsMade (meaning.get_buffer_id (both table.now objects.now) request.caller name)
        (both table.now objects.now) out.old out.new }
    ensures grows { Grows 1 1 out.old out.new }
{
    let service = Service::GetBufferId;
    let created = objects
        .buffer(name)
        .is_some_and(|(_, buffer)| buffer.created);
    table.answer_id(request.caller, service, name, created, out);
}

/// Gives the message to the first waiting receiver; without one, appends it to the buffer. If the
/// buffer is full, blocks the caller for at most `limit` ticks.
fn send(
    table: &mut ProcessTable,
    objects: &mut Objects,
    request: Request,
    limit: i64,
    message: &Words,
    place: u8,
    buffer: BufferStatus,
    out: &mut Out,
)
    requires limit { durations.is_duration limit ≡ true }
    requires place { place < MOST_OBJECTS }
    requires status { buffer ≡ buffer_status (buffer_at objects.old place) }
    requires room { HasRoom 3 3 out.old }
    ensures step { IsMade
        (meaning.sends request.moment.at (both table.old objects.old)
        request.caller limit message.now place (buffer_at objects.old place))
        (both table.new objects.new) out.old out.new }
    ensures grows { Grows 3 3 out.old out.new }
{
    let service = Service::SendBuffer;
    let list = ListKey::Buffer(place);
    if buffer.messages >= buffer.row.depth {
        let waiting = Waiting {
            service,
            list,
            discipline: buffer.row.discipline,
            array: None,
        };
        return table.block(request, limit, waiting, message.as_slice(), out);
    }
    table.answer(request.caller, service, ReturnCode::NoError, &[], out);
    match table.first_waiting(list) {
        Some(receiver) => table.give(&receiver, message, out),
        None => objects.push_message(place, message),
    }
}

/// SEND_BUFFER (ARINC 653 Part 1, intrapartition communication): gives a message, the first
/// `handed.length` words of the call, to the first waiting receiver; without one, appends it to the
/// buffer. If the buffer is full, blocks the caller for at most `limit` ticks; -1 is no limit.
/// INVALID_PARAM: no buffer of this number was created, a length below 1, above the buffer's or
/// above the array's, or a limit below -1 or above 2^40 ticks; NOT_AVAILABLE: it is full and the
/// limit is 0; INVALID_MODE: the caller may not wait; TIMED_OUT: the wait reached the limit.
pub fn send_buffer(
    table: &mut ProcessTable,
    objects: &mut Objects,
    request: Request,
    id: i64,
    handed: Handed,
    words: &Words,
    limit: i64,
    out: &mut Out,
)
    requires room { HasRoom 3 3 out.old }
    ensures step { IsMade
        (meaning.send_buffer request.moment.at (both table.old objects.old)
        request.caller id handed.array handed.length limit
        words.now.items)
        (both table.new objects.new) out.old out.new }
    ensures grows { Grows 3 3 out.old out.new }
{
    let service = Service::SendBuffer;
    let Some((place, buffer)) = objects.buffer(id) else {
        return table.refuse(request.caller, service, ReturnCode::InvalidParam, out);
    };
    if !buffer.created || !is_length(buffer.row.words, handed.array, handed.length) {
        return table.refuse(request.caller, service, ReturnCode::InvalidParam, out);
    }
    if !is_duration(limit) {
        return table.refuse(request.caller, service, ReturnCode::InvalidParam, out);
    }
    let message = first_words(handed.length, words);
    send(table, objects, request, limit, &message, place, buffer, out);
}

/// Appends the message of the first waiting sender, if any, to the buffer, and releases the sender.
fn admit(table: &mut ProcessTable, objects: &mut Objects, place: u8, out: &mut Out)
    requires place { place < MOST_OBJECTS }
    requires free { let x = buffer_at objects.old place in length x.messages < x.row.depth }
    requires room { HasRoom 2 1 out.old }
    ensures step { IsMade
        (meaning.admits (both table.old objects.old) place (buffer_at objects.old place)
        (first_waiting table.old (meaning.list place)))
        (both table.new objects.new) out.old out.new }
    ensures grows { Grows 2 1 out.old out.new }
{
    if let Some(sender) = table.first_waiting(ListKey::Buffer(place)) {
        objects.push_message(place, &table.handed_by(sender.runner));
        table.release(&sender, ReturnCode::NoError, out);
    }
}

/// Writes a message into the array, and admits the first waiting sender.
fn deliver(
    table: &mut ProcessTable,
    objects: &mut Objects,
    request: Request,
    array: ArrayPlace,
    place: u8,
    message: Words,
    out: &mut Out,
)
    requires place { place < MOST_OBJECTS }
    requires free { let x = buffer_at objects.old place in length x.messages < x.row.depth }
    requires room { HasRoom 3 3 out.old }
    ensures step { IsMade
        (delivers (both table.old objects.old) request.caller array place
        (buffer_at objects.old place) message)
        (both table.new objects.new) out.old out.new }
    ensures grows { Grows 3 3 out.old out.new }
{
    let service = Service::ReceiveBuffer;
    let count = message.len() as i64;
    table.answer(request.caller, service, ReturnCode::NoError, &[count], out);
    out.act(ActionKind::Write(array.base), &message);
    admit(table, objects, place, out);
}

/// Takes the first message of a buffer into the array. If the buffer is empty, blocks the caller
/// for at most `limit` ticks.
#[tactic(auto, using(crate::proofs::Receiving::receiving))]
fn receive(
    table: &mut ProcessTable,
    objects: &mut Objects,
    request: Request,
    array: ArrayPlace,
    limit: i64,
    place: u8,
    discipline: Discipline,
    out: &mut Out,
)
    requires limit { durations.is_duration limit ≡ true }
    requires place { place < MOST_OBJECTS }
    requires discipline { discipline ≡ (buffer_at objects.old place).row.discipline }
    requires room { HasRoom 3 3 out.old }
    ensures step { let x = buffer_at objects.old place in
        IsMade
        (meaning.receives request.moment.at (both table.old objects.old)
        request.caller array limit place x x.messages)
        (both table.new objects.new) out.old out.new }
    ensures grows { Grows 3 3 out.old out.new }
{
    if let Some(message) = objects.pop_message(place) {
        return deliver(table, objects, request, array, place, message, out);
    }
    let waiting = Waiting {
        service: Service::ReceiveBuffer,
        list: ListKey::Buffer(place),
        discipline,
        array: Some(array),
    };
    table.block(request, limit, waiting, &[], out);
}

/// RECEIVE_BUFFER (ARINC 653 Part 1, intrapartition communication): takes the first message of a
/// buffer into the array, and returns its length in words; appends the message of the first waiting
/// sender. If the buffer is empty, blocks the caller for at most `limit` ticks; -1 is no limit.
/// INVALID_PARAM: no buffer of this number was created, an array without room for its longest
/// message, or a limit below -1 or above 2^40 ticks; NOT_AVAILABLE: it is empty and the limit is 0;
/// INVALID_MODE: the caller may not wait; TIMED_OUT: the wait reached the limit.
pub fn receive_buffer(
    table: &mut ProcessTable,
    objects: &mut Objects,
    request: Request,
    id: i64,
    array: ArrayPlace,
    limit: i64,
    out: &mut Out,
)
    requires room { HasRoom 3 3 out.old }
    ensures step { IsMade
        (meaning.receive_buffer request.moment.at (both table.old objects.old)
        request.caller id array limit)
        (both table.new objects.new) out.old out.new }
    ensures grows { Grows 3 3 out.old out.new }
{
    let service = Service::ReceiveBuffer;
    let Some((place, buffer)) = objects.buffer(id) else {
        return table.refuse(request.caller, service, ReturnCode::InvalidParam, out);
    };
    let large = is_large_enough(buffer.row.words, array);
    if !buffer.created || !large || !is_duration(limit) {
        return table.refuse(request.caller, service, ReturnCode::InvalidParam, out);
    }
    let discipline = buffer.row.discipline;
    receive(
        table, objects, request, array, limit, place, discipline, out,
    );
}

/// GET_BUFFER_STATUS (ARINC 653 Part 1, intrapartition communication): returns the number of
/// messages in a buffer, the number it has room for, the most words of a message, and the number of
/// waiting processes. INVALID_PARAM: no buffer of this number was created.
pub fn get_buffer_status(
    table: &ProcessTable,
    objects: &Objects,
    request: Request,
    id: i64,
    out: &mut Out,
)
    requires { HasRoom 1 1 out.old }
    ensures step { IsMade (meaning.get_buffer_status (both table.now objects.now) request.caller id)
        (both table.now objects.now) out.old out.new }
    ensures grows { Grows 1 1 out.old out.new }
{
    let service = Service::GetBufferStatus;
    match objects.buffer(id) {
        Some((place, buffer)) if buffer.created => {
            let messages = i64::from(buffer.messages);
            let depth = i64::from(buffer.row.depth);
            let words = i64::from(buffer.row.words);
            let waiting = table.waiting_count(ListKey::Buffer(place));
            let outputs = [messages, depth, words, i64::from(waiting)];
            table.answer(request.caller, service, ReturnCode::NoError, &outputs, out)
        }
        _ => table.refuse(request.caller, service, ReturnCode::InvalidParam, out),
    }
}
