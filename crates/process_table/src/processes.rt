//! The services on processes: names, states, priorities, starts and stops.

ghost use Rattle.std.specs.Prelude.{◌≡◌, ◌<◌, ◌≤◌, ◌+◌, ◌^◌, length, IfSome};
ghost use Rattle.apex_types.specs.Room.{HasRoom, Grows};
ghost use Rattle.apex_types.specs.Runners.{place_of};
ghost use Rattle.apex_types.specs.declared.limits.TheConstants.{LATEST_RELEASE_POINT};
ghost use Rattle.kernel_meaning.specs.Times.{amount};
ghost use Rattle.kernel_meaning.specs.ProcessServices as meaning;
ghost use Rattle.kernel_meaning.specs.Made.{IsMade, IsTold};

use apex_types::limits::GREATEST_PRIORITY;
use apex_types::{Mode, Out, Priority, ProcessStatus, ReturnCode, Runner, Service, Ticks};
use process_table_base::{Points, ProcessTable, Request, is_delay, is_dormant, is_same};

/// The tick of a deadline as a word, -1 for none.
fn word_of_deadline(deadline: Option<Ticks>) -> i64
    requires { IfSome deadline (λ tick. tick.0 ≤ LATEST_RELEASE_POINT) }
    ensures { result ≡ meaning.word_of_deadline deadline }
{
    match deadline {
        Some(tick) => tick.0 as i64,
        None => -1,
    }
}

/// GET_PROCESS_ID (ARINC 653 Part 1, process management): returns the number of a process.
/// INVALID_CONFIG: no process of this number was created.
pub fn get_process_id(table: &ProcessTable, request: Request, name: i64, out: &mut Out)
    requires { HasRoom 1 1 out.old }
    ensures step { IsTold (meaning.get_process_id table.now request.caller name) out.old out.new }
    ensures grows { Grows 1 1 out.old out.new }
{
    let service = Service::GetProcessId;
    match table.process_at(name) {
        Some(found) if found.row.created => {
            table.answer(request.caller, service, ReturnCode::NoError, &[name], out)
        }
        _ => table.refuse(request.caller, service, ReturnCode::InvalidConfig, out),
    }
}

/// GET_PROCESS_STATUS (ARINC 653 Part 1, process management): returns the state of a process, its
/// current priority, and the tick of its deadline, -1 for none. INVALID_PARAM: no process of this
/// number was created.
pub fn get_process_status(table: &ProcessTable, request: Request, id: i64, out: &mut Out)
    requires { HasRoom 1 1 out.old }
    ensures step { IsTold (meaning.get_process_status table.now request.caller id) out.old out.new }
    ensures grows { Grows 1 1 out.old out.new }
{
    let service = Service::GetProcessStatus;
    match table.process_at(id) {
        Some(found) if found.row.created => {
            let state = found.row.state as i64;
            let priority = i64::from(found.row.current_priority.0);
            let deadline = word_of_deadline(found.row.deadline);
            let outputs = [state, priority, deadline];
            table.answer(request.caller, service, ReturnCode::NoError, &outputs, out)
        }
        _ => table.refuse(request.caller, service, ReturnCode::InvalidParam, out),
    }
}

/// CREATE_PROCESS (ARINC 653 Part 1, process management): creates the process of this number, and
/// returns the number. INVALID_MODE: in normal mode; INVALID_CONFIG: no such process is declared;
/// NO_ACTION: it was already created.
pub fn create_process(table: &mut ProcessTable, request: Request, name: i64, out: &mut Out)
    requires { HasRoom 1 1 out.old }
    ensures step { IsMade (meaning.create_process request.mode table.old request.caller name)
        table.new out.old out.new }
    ensures grows { Grows 1 1 out.old out.new }
{
    let service = Service::CreateProcess;
    if request.mode == Mode::Normal {
        return table.refuse(request.caller, service, ReturnCode::InvalidMode, out);
    }
    let Some(found) = table.process_at(name) else {
        return table.refuse(request.caller, service, ReturnCode::InvalidConfig, out);
    };
    if found.row.created {
        return table.refuse(request.caller, service, ReturnCode::NoAction, out);
    }
    table.answer(request.caller, service, ReturnCode::NoError, &[name], out);
    table.create(&found);
}

/// SET_PRIORITY (ARINC 653 Part 1, process management): changes the current priority of a process.
/// A ready process goes last among those of its new priority. INVALID_PARAM: no process of this
/// number was created, or a priority below 1 or above 239; INVALID_MODE: it is dormant.
pub fn set_priority(
    table: &mut ProcessTable,
    request: Request,
    id: i64,
    priority: i64,
    out: &mut Out,
)
    requires { HasRoom 1 1 out.old }
    ensures step { IsMade (meaning.set_priority table.old request.caller id priority)
        table.new out.old out.new }
    ensures grows { Grows 1 1 out.old out.new }
{
    let service = Service::SetPriority;
    let Some(found) = table.process_at(id) else {
        return table.refuse(request.caller, service, ReturnCode::InvalidParam, out);
    };
    if !found.row.created || priority < 1 || priority > GREATEST_PRIORITY as i64 {
        return table.refuse(request.caller, service, ReturnCode::InvalidParam, out);
    }
    if is_dormant(&found.row) {
        return table.refuse(request.caller, service, ReturnCode::InvalidMode, out);
    }
    table.answer(request.caller, service, ReturnCode::NoError, &[], out);
    table.take_priority(&found, Priority(priority as u8));
}

/// STOP (ARINC 653 Part 1, process management): makes another process dormant. INVALID_PARAM: no
/// process of this number was created, or it is the caller; NO_ACTION: it is dormant.
pub fn stop(table: &mut ProcessTable, request: Request, id: i64, out: &mut Out)
    requires { HasRoom 2 2 out.old }
    ensures step { IsMade (meaning.stop table.old request.caller id) table.new out.old out.new }
    ensures grows { Grows 2 2 out.old out.new }
{
    let service = Service::Stop;
    let Some(found) = table.process_at(id) else {
        return table.refuse(request.caller, service, ReturnCode::InvalidParam, out);
    };
    if !found.row.created || is_same(request.caller, found.runner) {
        return table.refuse(request.caller, service, ReturnCode::InvalidParam, out);
    }
    if is_dormant(&found.row) {
        return table.refuse(request.caller, service, ReturnCode::NoAction, out);
    }
    table.answer(request.caller, service, ReturnCode::NoError, &[], out);
    table.rest(&found, out);
}

/// STOP_SELF (ARINC 653 Part 1, process management), and the end of a body: the caller becomes
/// dormant, and gets no reply. At the end of INIT this does nothing: the partition's Clear remains
/// to be done.
pub fn stop_self(table: &mut ProcessTable, caller: Runner, out: &mut Out)
    requires { HasRoom 1 1 out.old }
    ensures step { IsMade (meaning.stop_self table.old caller) table.new out.old out.new }
    ensures grows { Grows 1 1 out.old out.new }
{
    if let Runner::Init = caller {
        return;
    }
    if let Some(caller) = table.found(caller) {
        table.rest(&caller, out);
    }
}

/// START (ARINC 653 Part 1, process management): starts the body of a dormant process with a fresh
/// stack and its base priority; before normal mode the process waits for the normal start.
/// INVALID_PARAM: no process of this number was created; NO_ACTION: it is not dormant.
pub fn start(table: &mut ProcessTable, request: Request, points: Points, id: i64, out: &mut Out)
    requires room { HasRoom 2 2 out.old }
    ensures step { IsMade
        (meaning.start request.mode points.moment.at points.next.0 table.old request.caller id)
        table.new out.old out.new }
    ensures grows { Grows 2 2 out.old out.new }
{
    let service = Service::Start;
    let Some(found) = table.process_at(id) else {
        return table.refuse(request.caller, service, ReturnCode::InvalidParam, out);
    };
    if !found.row.created {
        return table.refuse(request.caller, service, ReturnCode::InvalidParam, out);
    }
    if !is_dormant(&found.row) {
        return table.refuse(request.caller, service, ReturnCode::NoAction, out);
    }
    table.answer(request.caller, service, ReturnCode::NoError, &[], out);
    table.start(request.mode, points, &found, Ticks(0), out);
}

/// Whether `delay` is at least `period`, if there is a period.
fn is_beyond(delay: i64, period: Option<Ticks>) -> bool
    ensures { result ≡ meaning.is_beyond (amount delay) period }
{
    match period {
        Some(period) => period.0 <= delay.max(0) as u64,
        None => false,
    }
}

/// DELAYED_START (ARINC 653 Part 1, process management): like START, `delay` ticks from now or, for
/// a periodic process, after the partition's next release point. INVALID_PARAM: no process of this
/// number was created, a delay below 0 or above 2^40 ticks, or one of at least the period of a
/// periodic process; NO_ACTION: it is not dormant.
pub fn delayed_start(
    table: &mut ProcessTable,
    request: Request,
    points: Points,
    id: i64,
    delay: i64,
    out: &mut Out,
)
    requires room { HasRoom 2 2 out.old }
    ensures step { IsMade
        (meaning.delayed_start request.mode points.moment.at points.next.0 table.old
        request.caller id delay)
        table.new out.old out.new }
    ensures grows { Grows 2 2 out.old out.new }
{
    let service = Service::DelayedStart;
    let Some(found) = table.process_at(id) else {
        return table.refuse(request.caller, service, ReturnCode::InvalidParam, out);
    };
    if !found.row.created || !is_delay(delay) || is_beyond(delay, found.row.period) {
        return table.refuse(request.caller, service, ReturnCode::InvalidParam, out);
    }
    if !is_dormant(&found.row) {
        return table.refuse(request.caller, service, ReturnCode::NoAction, out);
    }
    table.answer(request.caller, service, ReturnCode::NoError, &[], out);
    table.start(request.mode, points, &found, Ticks(delay as u64), out);
}
