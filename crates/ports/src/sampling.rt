//! The services on sampling ports.

ghost use Rattle.std.specs.Prelude.{◌≡◌, length};
ghost use Rattle.apex_types.specs.Room.{HasRoom, Grows};
ghost use Rattle.kernel_meaning.specs.PortServices as meaning;
ghost use Rattle.kernel_meaning.specs.Sharing.{both};
ghost use Rattle.kernel_meaning.specs.Made.{IsMade};
ghost use Rattle.ports.specs.Status.{placed_port};

use crate::deliver::deliver;
use crate::port::validity_number;
use crate::ports::Ports;
use apex_types::{ArrayPlace, Out, ReturnCode, Service, Words};
use process_table_base::{Handed, ProcessTable, Request, first_words, is_large_enough, is_length};

/// CREATE_SAMPLING_PORT (ARINC 653 Part 1, interpartition communication): creates the sampling port
/// of this number, and returns the number. INVALID_MODE: in normal mode; INVALID_CONFIG: the
/// partition has no such port in the module table, or it is a queuing port; NO_ACTION: it was
/// already created.
pub fn create_sampling_port(
    table: &ProcessTable,
    ports: &mut Ports,
    request: Request,
    name: i64,
    out: &mut Out,
)
    requires { HasRoom 1 1 out.old }
    ensures step { IsMade
        (meaning.create_sampling_port request.mode (both table.now ports.old) request.caller name)
        (both table.now ports.new) out.old out.new }
    ensures grows { Grows 1 1 out.old out.new }
{
    let service = Service::CreateSamplingPort;
    let found = ports
        .sampling(name)
        .map(|(place, port)| (place, port.created));
    if let Some(place) = table.answer_create(&request, service, name, found, out) {
        ports.create(place);
    }
}

/// GET_SAMPLING_PORT_ID (ARINC 653 Part 1, interpartition communication): returns the number of a
/// sampling port. INVALID_CONFIG: no sampling port of this number was created.
pub fn get_sampling_port_id(
    table: &ProcessTable,
    ports: &Ports,
    request: Request,
    name: i64,
    out: &mut Out,
)
    requires { HasRoom 1 1 out.old }
    ensures step { IsMade
        (meaning.get_sampling_port_id (both table.now ports.now) request.caller name)
        (both table.now ports.now) out.old out.new }
    ensures grows { Grows 1 1 out.old out.new }
{
    let service = Service::GetSamplingPortId;
    let created = ports.sampling(name).is_some_and(|(_, port)| port.created);
    table.answer_id(request.caller, service, name, created, out);
}

/// WRITE_SAMPLING_MESSAGE (ARINC 653 Part 1, interpartition communication): replaces the port's
/// message with the first `handed.length` words of the call, until the end of the partition's
/// window moves it. INVALID_PARAM: no sampling port of this number was created; INVALID_MODE: it is
/// a destination; INVALID_PARAM: a length below 1, above the port's or above the array's.
pub fn write_sampling_message(
    table: &ProcessTable,
    ports: &mut Ports,
    request: Request,
    id: i64,
    handed: Handed,
    words: &Words,
    out: &mut Out,
)
    requires { HasRoom 1 1 out.old }
    ensures step { IsMade
        (meaning.write_sampling_message (both table.now ports.old)
        request.caller id handed.array handed.length words.now.items)
        (both table.now ports.new) out.old out.new }
    ensures grows { Grows 1 1 out.old out.new }
{
    let service = Service::WriteSamplingMessage;
    let Some((place, port)) = ports.sampling(id) else {
        return table.refuse(request.caller, service, ReturnCode::InvalidParam, out);
    };
    if !port.created {
        return table.refuse(request.caller, service, ReturnCode::InvalidParam, out);
    }
    if !port.is_source() {
        return table.refuse(request.caller, service, ReturnCode::InvalidMode, out);
    }
    if !is_length(port.row.words, handed.array, handed.length) {
        return table.refuse(request.caller, service, ReturnCode::InvalidParam, out);
    }
    table.answer(request.caller, service, ReturnCode::NoError, &[], out);
    ports.put_sample(place, &first_words(handed.length, words));
}

/// Copies the port's message into the array; the message stays in the port. NO_ACTION: the port
/// holds no message.
#[tactic(auto, using(crate::proofs::Reading::reading))]
fn read(
    table: &ProcessTable,
    ports: &mut Ports,
    request: Request,
    array: ArrayPlace,
    place: u8,
    out: &mut Out,
)
    requires { HasRoom 1 2 out.old }
    ensures step { let x = placed_port ports.old place in
        IsMade
        (meaning.reads_sample request.moment.at (both table.now ports.old)
        request.caller array place x x.messages)
        (both table.now ports.new) out.old out.new }
    ensures grows { Grows 1 2 out.old out.new }
{
    let service = Service::ReadSamplingMessage;
    match ports.read_message(place, request.moment) {
        Some((message, valid)) => {
            let outputs = [message.len() as i64, validity_number(valid)];
            deliver(
                table,
                request,
                service,
                ReturnCode::NoError,
                &outputs,
                array,
                message,
                out,
            );
        }
        None => table.refuse(request.caller, service, ReturnCode::NoAction, out),
    }
}

/// READ_SAMPLING_MESSAGE (ARINC 653 Part 1, interpartition communication): copies the port's
/// message into the array; the message stays in the port. Returns its length in words, and whether
/// it is valid: its arrival is at most the port's refresh period ago. INVALID_PARAM: no sampling
/// port of this number was created; INVALID_MODE: it is a source; INVALID_PARAM: an array without
/// room for its longest message; NO_ACTION: no message has arrived.
pub fn read_sampling_message(
    table: &ProcessTable,
    ports: &mut Ports,
    request: Request,
    id: i64,
    array: ArrayPlace,
    out: &mut Out,
)
    requires room { HasRoom 1 2 out.old }
    ensures step { IsMade
        (meaning.read_sampling_message request.moment.at (both table.now ports.old)
        request.caller id array)
        (both table.now ports.new) out.old out.new }
    ensures grows { Grows 1 2 out.old out.new }
{
    let service = Service::ReadSamplingMessage;
    let Some((place, port)) = ports.sampling(id) else {
        return table.refuse(request.caller, service, ReturnCode::InvalidParam, out);
    };
    if !port.created {
        return table.refuse(request.caller, service, ReturnCode::InvalidParam, out);
    }
    if port.is_source() {
        return table.refuse(request.caller, service, ReturnCode::InvalidMode, out);
    }
    if !is_large_enough(port.row.words, array) {
        return table.refuse(request.caller, service, ReturnCode::InvalidParam, out);
    }
    read(table, ports, request, array, place, out);
}

/// GET_SAMPLING_PORT_STATUS (ARINC 653 Part 1, interpartition communication): returns the most
/// words of a message, the direction, the refresh period in ticks, and whether the last message
/// read was valid. INVALID_PARAM: no sampling port of this number was created.
pub fn get_sampling_port_status(
    table: &ProcessTable,
    ports: &Ports,
    request: Request,
    id: i64,
    out: &mut Out,
)
    requires { HasRoom 1 1 out.old }
    ensures step { IsMade
        (meaning.get_sampling_port_status (both table.now ports.now) request.caller id)
        (both table.now ports.now) out.old out.new }
    ensures grows { Grows 1 1 out.old out.new }
{
    let service = Service::GetSamplingPortStatus;
    match ports.sampling(id) {
        Some((_, port)) if port.created => {
            let words = i64::from(port.row.words);
            let direction = port.direction_number();
            let refresh = port.refresh() as i64;
            let outputs = [words, direction, refresh, validity_number(port.valid)];
            table.answer(request.caller, service, ReturnCode::NoError, &outputs, out)
        }
        _ => table.refuse(request.caller, service, ReturnCode::InvalidParam, out),
    }
}
