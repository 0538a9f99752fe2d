//! The dispatch of service calls on objects.

ghost use Rattle.std.specs.Prelude.{◌≡◌, ◌+◌, length};
ghost use Rattle.apex_types.specs.Room.{HasRoom, Grows};
ghost use Rattle.kernel_meaning.specs.ObjectServices.{serves_objects};
ghost use Rattle.kernel_meaning.specs.Sharing.{both};
ghost use Rattle.kernel_meaning.specs.Made.{IsMade};
ghost use Rattle.partition.specs.declared.rooms.TheConstants.{ACTIONS_TO_SERVE, LINES_TO_SERVE};

use apex_types::{ObjectCall, Out, Words};
use process_table_base::{Handed, ProcessTable, Request};
use sync_objects::blackboards::{
    clear_blackboard, create_blackboard, display_blackboard, get_blackboard_id,
    get_blackboard_status, read_blackboard,
};
use sync_objects::buffers::{
    create_buffer, get_buffer_id, get_buffer_status, receive_buffer, send_buffer,
};
use sync_objects::events::{
    create_event, get_event_id, get_event_status, reset_event, set_event, wait_event,
};
use sync_objects::semaphores::{
    create_semaphore, get_semaphore_id, get_semaphore_status, signal_semaphore, wait_semaphore,
};
use sync_objects_base::Objects;

/// Serves a call on semaphores, events, buffers or blackboards, as requested.
pub(crate) fn serve_objects(
    table: &mut ProcessTable,
    objects: &mut Objects,
    request: Request,
    call: &ObjectCall,
    words: &Words,
    out: &mut Out,
)
    requires room { HasRoom LINES_TO_SERVE ACTIONS_TO_SERVE out.old }
    ensures step { IsMade
        (serves_objects request.mode request.moment.at (both table.old objects.old)
        request.caller call.now words.now.items)
        (both table.new objects.new) out.old out.new }
    ensures grows { Grows LINES_TO_SERVE ACTIONS_TO_SERVE out.old out.new }
{
    match *call {
        ObjectCall::CreateBuffer { name } => create_buffer(table, objects, request, name, out),
        ObjectCall::SendBuffer {
            buffer,
            array,
            length,
            timeout,
        } => {
            let handed = Handed { array, length };
            send_buffer(table, objects, request, buffer, handed, words, timeout, out)
        }
        ObjectCall::ReceiveBuffer {
            buffer,
            array,
            timeout,
        } => receive_buffer(table, objects, request, buffer, array, timeout, out),
        ObjectCall::GetBufferId { name } => get_buffer_id(table, objects, request, name, out),
        ObjectCall::GetBufferStatus { buffer } => {
            get_buffer_status(table, objects, request, buffer, out)
        }
        ObjectCall::CreateBlackboard { name } => {
            create_blackboard(table, objects, request, name, out)
        }
        ObjectCall::DisplayBlackboard {
            blackboard,
            array,
            length,
        } => {
            let handed = Handed { array, length };
            display_blackboard(table, objects, request, blackboard, handed, words, out)
        }
        ObjectCall::ReadBlackboard {
            blackboard,
            array,
            timeout,
        } => read_blackboard(table, objects, request, blackboard, array, timeout, out),
        ObjectCall::ClearBlackboard { blackboard } => {
            clear_blackboard(table, objects, request, blackboard, out)
        }
        ObjectCall::GetBlackboardId { name } => get_blackboard_id(
            table, objects, request, name, out,
        ),
        ObjectCall::GetBlackboardStatus { blackboard } => {
            get_blackboard_status(table, objects, request, blackboard, out)
        }
        ObjectCall::CreateSemaphore { name } => {
            create_semaphore(table, objects, request, name, out)
        }
        ObjectCall::WaitSemaphore { semaphore, timeout } => {
            wait_semaphore(table, objects, request, semaphore, timeout, out)
        }
        ObjectCall::SignalSemaphore { semaphore } => {
            signal_semaphore(table, objects, request, semaphore, out)
        }
        ObjectCall::GetSemaphoreId { name } => get_semaphore_id(table, objects, request, name, out),
        ObjectCall::GetSemaphoreStatus { semaphore } => {
            get_semaphore_status(table, objects, request, semaphore, out)
        }
        ObjectCall::CreateEvent { name } => create_event(table, objects, request, name, out),
        ObjectCall::SetEvent { event } => set_event(table, objects, request, event, out),
        ObjectCall::ResetEvent { event } => reset_event(table, objects, request, event, out),
        ObjectCall::WaitEvent { event, timeout } => {
            wait_event(table, objects, request, event, timeout, out)
        }
        ObjectCall::GetEventId { name } => get_event_id(table, objects, request, name, out),
        ObjectCall::GetEventStatus { event } => get_event_status(
            table, objects, request, event, out,
        ),
    }
}
