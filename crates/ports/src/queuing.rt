//! The services on queuing ports.

ghost use Rattle.std.specs.Prelude.{◌≡◌, ◌<◌, length, true};
ghost use Rattle.apex_types.specs.Room.{HasRoom, Grows};
ghost use Rattle.apex_types.specs.Limits.{MOST_OBJECTS};
ghost use Rattle.kernel_meaning.specs.Times as durations;
ghost use Rattle.kernel_meaning.specs.Objects.{discipline_of};
ghost use Rattle.kernel_meaning.specs.PortServices as meaning;
ghost use Rattle.kernel_meaning.specs.Sharing.{answers, both};
ghost use Rattle.kernel_meaning.specs.Made.{IsMade, IsTold};
ghost use Rattle.ports.specs.Status.{placed_port, port_status};

use crate::deliver::deliver;
use crate::port::PortStatus;
use crate::ports::Ports;
use apex_types::{ArrayPlace, Discipline, ListKey, Out, ReturnCode, Service, Waiting, Words};
use process_table_base::{
    Handed, ProcessTable, Request, first_words, is_duration, is_large_enough, is_length,
};

/// CREATE_QUEUING_PORT (ARINC 653 Part 1, interpartition communication): creates the queuing port
/// of this number, and returns the number. INVALID_MODE: in normal mode; INVALID_CONFIG: the
/// partition has no such port in the module table, or it is a sampling port; NO_ACTION: it was
/// already created.
pub fn create_queuing_port(
    table: &ProcessTable,
    ports: &mut Ports,
    request: Request,
    name: i64,
    out: &mut Out,
)
    requires { HasRoom 1 1 out.old }
    ensures step { IsMade
        (meaning.create_queuing_port request.mode (both table.now ports.old) request.caller name)
        (both table.now ports.new) out.old out.new }
    ensures grows { Grows 1 1 out.old out.new }
{
    let service = Service::CreateQueuingPort;
    let found = ports
        .queuing(name)
        .map(|(place, port)| (place, port.created));
    if let Some(place) = table.answer_create(&request, service, name, found, out) {
        ports.create(place);
    }
}

/// GET_QUEUING_PORT_ID (ARINC 653 Part 1, interpartition communication): returns the number of a
/// queuing port. INVALID_CONFIG: no queuing port of this number was created.
pub fn get_queuing_port_id(
    table: &ProcessTable,
    ports: &Ports,
    request: Request,
    name: i64,
    out: &mut Out,
)
    requires { HasRoom 1 1 out.old }
    ensures step { IsMade
        (meaning.get_queuing_port_id (both table.now ports.now) request.caller name)
        (both table.now ports.now) out.old out.new }
    ensures grows { Grows 1 1 out.old out.new }
{
    let service = Service::GetQueuingPortId;
    let created = ports.queuing(name).is_some_and(|(_, port)| port.created);
    table.answer_id(request.caller, service, name, created, out);
}

/// Appends a message to a port. If the port is full, blocks the caller for at most `limit` ticks.
fn send(
    table: &mut ProcessTable,
    ports: &mut Ports,
    request: Request,
    limit: i64,
    message: &Words,
    place: u8,
    port: PortStatus,
    out: &mut Out,
)
    requires limit { durations.is_duration limit ≡ true }
    requires place { place < MOST_OBJECTS }
    requires status { port ≡ port_status (placed_port ports.old place) }
    requires room { HasRoom 1 1 out.old }
    ensures step { IsMade
        (meaning.sends request.moment.at (both table.old ports.old)
        request.caller limit message.now place (placed_port ports.old place))
        (both table.new ports.new) out.old out.new }
    ensures grows { Grows 1 1 out.old out.new }
{
    let service = Service::SendQueuingMessage;
    if port.is_full() {
        let waiting = Waiting {
            service,
            list: ListKey::Port(place),
            discipline: port.discipline(),
            array: None,
        };
        return table.block(request, limit, waiting, message.as_slice(), out);
    }
    table.answer(request.caller, service, ReturnCode::NoError, &[], out);
    ports.push_message(place, message);
}

/// SEND_QUEUING_MESSAGE (ARINC 653 Part 1, interpartition communication): appends a message, the
/// first `handed.length` words of the call, to the port, until the end of the partition's window
/// moves it. If the port is full, blocks the caller for at most `limit` ticks; -1 is no limit.
/// INVALID_PARAM: no queuing port of this number was created, or a limit below -1 or above 2^40
/// ticks; INVALID_MODE: it is a destination; INVALID_PARAM: a length below 1, above the port's or
/// above the array's; NOT_AVAILABLE: it is full and the limit is 0; INVALID_MODE: the caller may
/// not wait; TIMED_OUT: the wait reached the limit.
pub fn send_queuing_message(
    table: &mut ProcessTable,
    ports: &mut Ports,
    request: Request,
    id: i64,
    handed: Handed,
    words: &Words,
    limit: i64,
    out: &mut Out,
)
    requires room { HasRoom 1 1 out.old }
    ensures step { IsMade
        (meaning.send_queuing_message request.moment.at (both table.old ports.old)
        request.caller id handed.array handed.length limit
        words.now.items)
        (both table.new ports.new) out.old out.new }
    ensures grows { Grows 1 1 out.old out.new }
{
    let service = Service::SendQueuingMessage;
    let Some((place, port)) = ports.queuing(id) else {
        return table.refuse(request.caller, service, ReturnCode::InvalidParam, out);
    };
    if !port.created || !is_duration(limit) {
        return table.refuse(request.caller, service, ReturnCode::InvalidParam, out);
    }
    if !port.is_source() {
        return table.refuse(request.caller, service, ReturnCode::InvalidMode, out);
    }
    if !is_length(port.row.words, handed.array, handed.length) {
        return table.refuse(request.caller, service, ReturnCode::InvalidParam, out);
    }
    let message = first_words(handed.length, words);
    send(table, ports, request, limit, &message, place, port, out);
}

/// The return code of a receive; the first after an overflow reports it.
fn code_of_receive(overflowed: bool) -> ReturnCode
    ensures { result ≡ meaning.code_of_receive overflowed }
{
    match overflowed {
        false => ReturnCode::NoError,
        true => ReturnCode::InvalidConfig,
    }
}

/// Takes the first message of a port into the array. If the port is empty, blocks the caller for at
/// most `limit` ticks.
#[tactic(auto, using(crate::proofs::Receiving::receiving))]
fn receive(
    table: &mut ProcessTable,
    ports: &mut Ports,
    request: Request,
    array: ArrayPlace,
    limit: i64,
    place: u8,
    discipline: Discipline,
    out: &mut Out,
)
    requires limit { durations.is_duration limit ≡ true }
    requires place { place < MOST_OBJECTS }
    requires discipline { discipline ≡ discipline_of (placed_port ports.old place).row.kind }
    requires room { HasRoom 1 2 out.old }
    ensures step { let x = placed_port ports.old place in
        IsMade
        (meaning.receives request.moment.at (both table.old ports.old)
        request.caller array limit place x x.messages)
        (both table.new ports.new) out.old out.new }
    ensures grows { Grows 1 2 out.old out.new }
{
    let service = Service::ReceiveQueuingMessage;
    if let Some((message, overflowed)) = ports.receive_message(place) {
        let code = code_of_receive(overflowed);
        let count = message.len() as i64;
        return deliver(table, request, service, code, &[count], array, message, out);
    }
    let waiting = Waiting {
        service,
        list: ListKey::Port(place),
        discipline,
        array: Some(array),
    };
    table.block(request, limit, waiting, &[], out);
}

/// RECEIVE_QUEUING_MESSAGE (ARINC 653 Part 1, interpartition communication): takes the first
/// message of the port into the array, and returns its length in words. If the port is empty,
/// blocks the caller for at most `limit` ticks; -1 is no limit. INVALID_PARAM: no queuing port of
/// this number was created, or a limit below -1 or above 2^40 ticks; INVALID_MODE: it is a source;
/// INVALID_PARAM: an array without room for its longest message; NOT_AVAILABLE: it is empty and the
/// limit is 0; INVALID_MODE: the caller may not wait; TIMED_OUT: the wait reached the limit;
/// INVALID_CONFIG, with the message: a message was lost since the last receive, because the port
/// was full.
pub fn receive_queuing_message(
    table: &mut ProcessTable,
    ports: &mut Ports,
    request: Request,
    id: i64,
    array: ArrayPlace,
    limit: i64,
    out: &mut Out,
)
    requires room { HasRoom 1 2 out.old }
    ensures step { IsMade
        (meaning.receive_queuing_message request.moment.at (both table.old ports.old)
        request.caller id array limit)
        (both table.new ports.new) out.old out.new }
    ensures grows { Grows 1 2 out.old out.new }
{
    let service = Service::ReceiveQueuingMessage;
    let Some((place, port)) = ports.queuing(id) else {
        return table.refuse(request.caller, service, ReturnCode::InvalidParam, out);
    };
    if !port.created || !is_duration(limit) {
        return table.refuse(request.caller, service, ReturnCode::InvalidParam, out);
    }
    if port.is_source() {
        return table.refuse(request.caller, service, ReturnCode::InvalidMode, out);
    }
    if !is_large_enough(port.row.words, array) {
        return table.refuse(request.caller, service, ReturnCode::InvalidParam, out);
    }
    let discipline = port.discipline();
    receive(table, ports, request, array, limit, place, discipline, out);
}

/// Returns the status of a port: the number of its messages, the number it has room for, the most
/// words of a message, the direction, and the number of waiting processes.
fn tell_status(
    table: &ProcessTable,
    ports: &Ports,
    request: Request,
    place: u8,
    port: PortStatus,
    out: &mut Out,
)
    requires place { place < MOST_OBJECTS }
    requires status { port ≡ port_status (placed_port ports.now place) }
    requires room { HasRoom 1 1 out.old }
    ensures step { let b = both table.now ports.now in
        IsTold
        (answers b request.caller Service.GetQueuingPortStatus ReturnCode.NoError
        (meaning.queuing_status b place (placed_port ports.now place)))
        out.old out.new }
    ensures grows { Grows 1 1 out.old out.new }
{
    let waiting = table.waiting_count(ListKey::Port(place));
    let outputs = [
        i64::from(port.messages),
        i64::from(port.depth()),
        i64::from(port.row.words),
        port.direction_number(),
        i64::from(waiting),
    ];
    let service = Service::GetQueuingPortStatus;
    table.answer(request.caller, service, ReturnCode::NoError, &outputs, out);
}

/// GET_QUEUING_PORT_STATUS (ARINC 653 Part 1, interpartition communication): returns the number of
/// messages in the port, the number it has room for, the most words of a message, its direction,
/// and the number of waiting processes. INVALID_PARAM: no queuing port of this number was created.
pub fn get_queuing_port_status(
    table: &ProcessTable,
    ports: &Ports,
    request: Request,
    id: i64,
    out: &mut Out,
)
    requires { HasRoom 1 1 out.old }
    ensures step { IsMade
        (meaning.get_queuing_port_status (both table.now ports.now) request.caller id)
        (both table.now ports.now) out.old out.new }
    ensures grows { Grows 1 1 out.old out.new }
{
    let service = Service::GetQueuingPortStatus;
    let Some((place, port)) = ports.queuing(id) else {
        return table.refuse(request.caller, service, ReturnCode::InvalidParam, out);
    };
    if !port.created {
        return table.refuse(request.caller, service, ReturnCode::InvalidParam, out);
    }
    tell_status(table, ports, request, place, port, out);
}

/// CLEAR_QUEUING_PORT (ARINC 653 Part 1, interpartition communication): removes the messages of the
/// port, and forgets that a message was lost; receivers continue to wait. INVALID_PARAM: no queuing
/// port of this number was created; INVALID_MODE: it is a source.
pub fn clear_queuing_port(
    table: &ProcessTable,
    ports: &mut Ports,
    request: Request,
    id: i64,
    out: &mut Out,
)
    requires { HasRoom 1 1 out.old }
    ensures step { IsMade (meaning.clear_queuing_port (both table.now ports.old) request.caller id)
        (both table.now ports.new) out.old out.new }
    ensures grows { Grows 1 1 out.old out.new }
{
    let service = Service::ClearQueuingPort;
    let Some((place, port)) = ports.queuing(id) else {
        return table.refuse(request.caller, service, ReturnCode::InvalidParam, out);
    };
    if !port.created {
        return table.refuse(request.caller, service, ReturnCode::InvalidParam, out);
    }
    if port.is_source() {
        return table.refuse(request.caller, service, ReturnCode::InvalidMode, out);
    }
    table.answer(request.caller, service, ReturnCode::NoError, &[], out);
    ports.empty(place);
}
