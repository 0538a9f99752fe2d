//! The dispatch of service calls on ports.

ghost use Rattle.std.specs.Prelude.{◌≡◌, ◌+◌, length};
ghost use Rattle.apex_types.specs.Room.{HasRoom, Grows};
ghost use Rattle.kernel_meaning.specs.PortServices as meaning;
ghost use Rattle.kernel_meaning.specs.Sharing.{both};
ghost use Rattle.kernel_meaning.specs.Made.{IsMade};
ghost use Rattle.partition.specs.declared.rooms.TheConstants.{ACTIONS_TO_SERVE, LINES_TO_SERVE};

use apex_types::{Out, PortCall, Words};
use ports::{
    Ports, clear_queuing_port, create_queuing_port, create_sampling_port, get_queuing_port_id,
    get_queuing_port_status, get_sampling_port_id, get_sampling_port_status, read_sampling_message,
    receive_queuing_message, send_queuing_message, write_sampling_message,
};
use process_table_base::{Handed, ProcessTable, Request};

/// Serves a call on ports, as requested.
pub(crate) fn serve_ports(
    table: &mut ProcessTable,
    ports: &mut Ports,
    request: Request,
    call: &PortCall,
    words: &Words,
    out: &mut Out,
)
    requires room { HasRoom LINES_TO_SERVE ACTIONS_TO_SERVE out.old }
    ensures step { IsMade
        (meaning.serves_ports request.mode request.moment.at (both table.old ports.old)
        request.caller call.now words.now.items)
        (both table.new ports.new) out.old out.new }
    ensures grows { Grows LINES_TO_SERVE ACTIONS_TO_SERVE out.old out.new }
{
    match *call {
        PortCall::CreateSamplingPort { name } => {
            create_sampling_port(table, ports, request, name, out)
        }
        PortCall::WriteSamplingMessage {
            port,
            array,
            length,
        } => {
            let handed = Handed { array, length };
            write_sampling_message(table, ports, request, port, handed, words, out)
        }
        PortCall::ReadSamplingMessage { port, array } => {
            read_sampling_message(table, ports, request, port, array, out)
        }
        PortCall::GetSamplingPortId { name } => get_sampling_port_id(
            table, ports, request, name, out,
        ),
        PortCall::GetSamplingPortStatus { port } => {
            get_sampling_port_status(table, ports, request, port, out)
        }
        PortCall::CreateQueuingPort { name } => {
            create_queuing_port(table, ports, request, name, out)
        }
        PortCall::SendQueuingMessage {
            port,
            array,
            length,
            timeout,
        } => {
            let handed = Handed { array, length };
            send_queuing_message(table, ports, request, port, handed, words, timeout, out)
        }
        PortCall::ReceiveQueuingMessage {
            port,
            array,
            timeout,
        } => receive_queuing_message(table, ports, request, port, array, timeout, out),
        PortCall::GetQueuingPortId { name } => get_queuing_port_id(
            table, ports, request, name, out,
        ),
        PortCall::GetQueuingPortStatus { port } => {
            get_queuing_port_status(table, ports, request, port, out)
        }
        PortCall::ClearQueuingPort { port } => clear_queuing_port(table, ports, request, port, out),
    }
}
