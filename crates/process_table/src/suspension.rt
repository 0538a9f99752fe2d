//! The services that suspend processes and resume them.

ghost use Rattle.std.specs.Prelude.{◌≡◌, ◌<◌, ◌+◌, length, true};
ghost use Rattle.apex_types.specs.Room.{HasRoom, Grows};
ghost use Rattle.kernel_meaning.specs.Times.{is_duration};
ghost use Rattle.kernel_meaning.specs.Processes.{is_periodic};
ghost use Rattle.kernel_meaning.specs.ProcessServices as meaning;
ghost use Rattle.kernel_meaning.specs.Made.{IsMade};
ghost use Rattle.process_table_base.specs.FoundView.{record_of};

use apex_types::{Lock, Out, ReturnCode, Runner, Service};
use process_table_base::{
    Found, ProcessTable, Request, answer, is_dormant, is_duration, is_same, name_of, refuse,
};

/// Whether a periodic process was found.
fn is_periodic(found: &Option<Found>) -> bool
    ensures { result ≡ meaning.of_row is_periodic (record_of found.now) }
{
    match found {
        Some(found) => found.row.period.is_some(),
        None => false,
    }
}

/// SUSPEND_SELF (ARINC 653 Part 1, process management): suspends the caller until it is resumed,
/// for at most `limit` ticks; -1 is no limit, and at 0 nothing happens. INVALID_MODE: the caller
/// may not wait, or is periodic; INVALID_PARAM: a time-out below -1 or above 2^40 ticks.
pub fn suspend_self(table: &mut ProcessTable, request: Request, limit: i64, out: &mut Out)
    requires room { HasRoom 1 1 out.old }
    ensures step { IsMade (meaning.suspend_self request.moment.at table.old request.caller limit)
        table.new out.old out.new }
    ensures grows { Grows 1 1 out.old out.new }
{
    let service = Service::SuspendSelf;
    let caller = request.caller;
    if table.is_busy(caller) {
        return table.refuse(caller, service, ReturnCode::InvalidMode, out);
    }
    if !is_duration(limit) {
        return table.refuse(caller, service, ReturnCode::InvalidParam, out);
    }
    let found = table.found(caller);
    let who = name_of(&found);
    if is_periodic(&found) {
        return refuse(caller, who, service, ReturnCode::InvalidMode, out);
    }
    if limit == 0 {
        return answer(caller, who, service, ReturnCode::NoError, &[], out);
    }
    if let Some(found) = &found {
        table.suspend_self(request.moment, found, limit, out);
    }
}

/// Whether `process` holds the preemption lock.
fn holds(lock: Lock, process: Runner) -> bool
    ensures { result ≡ meaning.holds lock process }
{
    match lock {
        Lock::Free => false,
        Lock::Held { holder, .. } => is_same(process, Runner::Process(holder)),
    }
}

/// SUSPEND (ARINC 653 Part 1, process management): suspends another process until it is resumed.
/// INVALID_PARAM: no process of this number was created, or it is the caller; INVALID_MODE: it is
/// dormant or periodic, or holds the preemption lock; NO_ACTION: it is already suspended.
pub fn suspend(table: &mut ProcessTable, request: Request, id: i64, out: &mut Out)
    requires { HasRoom 2 1 out.old }
    ensures step { IsMade (meaning.suspend table.old request.caller id) table.new out.old out.new }
    ensures grows { Grows 2 1 out.old out.new }
{
    let service = Service::Suspend;
    let Some(found) = table.process_at(id) else {
        return table.refuse(request.caller, service, ReturnCode::InvalidParam, out);
    };
    if !found.row.created || is_same(request.caller, found.runner) {
        return table.refuse(request.caller, service, ReturnCode::InvalidParam, out);
    }
    if is_dormant(&found.row) || found.row.period.is_some() || holds(table.lock(), found.runner) {
        return table.refuse(request.caller, service, ReturnCode::InvalidMode, out);
    }
    if found.row.suspended {
        return table.refuse(request.caller, service, ReturnCode::NoAction, out);
    }
    table.answer(request.caller, service, ReturnCode::NoError, &[], out);
    table.suspend(&found, out);
}

/// RESUME (ARINC 653 Part 1, process management): ends the suspension of another process. Its
/// SUSPEND_SELF ends; if it waits for nothing else it becomes READY. INVALID_PARAM: no process of
/// this number was created, or it is the caller; INVALID_MODE: it is dormant or periodic;
/// NO_ACTION: it is not suspended.
pub fn resume(table: &mut ProcessTable, request: Request, id: i64, out: &mut Out)
    requires { HasRoom 3 2 out.old }
    ensures step { IsMade (meaning.resume table.old request.caller id) table.new out.old out.new }
    ensures grows { Grows 3 2 out.old out.new }
{
    let service = Service::Resume;
    let Some(found) = table.process_at(id) else {
        return table.refuse(request.caller, service, ReturnCode::InvalidParam, out);
    };
    if !found.row.created || is_same(request.caller, found.runner) {
        return table.refuse(request.caller, service, ReturnCode::InvalidParam, out);
    }
    if is_dormant(&found.row) || found.row.period.is_some() {
        return table.refuse(request.caller, service, ReturnCode::InvalidMode, out);
    }
    if !found.row.suspended {
        return table.refuse(request.caller, service, ReturnCode::NoAction, out);
    }
    table.answer(request.caller, service, ReturnCode::NoError, &[], out);
    table.resume(&found, out);
}
