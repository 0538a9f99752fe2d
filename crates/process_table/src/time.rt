//! The services on time.

ghost use Rattle.std.specs.Prelude.{◌≡◌, ◌<◌, ◌≤ℤ◌, ◌+◌, ◌^◌, pos, length, true, Some};
ghost use Rattle.apex_types.specs.declared.limits.TheConstants.{LATEST_RELEASE_POINT};
ghost use Rattle.apex_types.specs.Room.{HasRoom, Grows};
ghost use Rattle.kernel_meaning.specs.Made.{IsMade, IsTold};
ghost use Rattle.kernel_meaning.specs.Times.{is_delay, is_duration};
ghost use Rattle.kernel_meaning.specs.ProcessServices as meaning;
ghost use Rattle.process_table_base.specs.Bounds.{IsAtMost};

use crate::lock::may_not_lock;
use apex_types::{Due, Moment, Out, ReturnCode, Service, Ticks};
use process_table_base::{
    Found, ProcessTable, Request, answer, is_delay, is_duration, name_of, refuse,
};

/// GET_TIME (ARINC 653 Part 1, time management): returns the current tick.
pub fn get_time(table: &ProcessTable, request: Request, out: &mut Out)
    requires room { HasRoom 1 1 out.old }
    ensures step { IsTold (meaning.get_time request.moment.at table.now request.caller)
        out.old out.new }
    ensures grows { Grows 1 1 out.old out.new }
{
    let now = request.moment.at.now.0 as i64;
    let service = Service::GetTime;
    table.answer(request.caller, service, ReturnCode::NoError, &[now], out);
}

/// TIMED_WAIT (ARINC 653 Part 1, time management): blocks the caller for `delay` ticks; at a delay
/// of 0 the caller goes last among those of its priority. INVALID_MODE: the caller may not wait;
/// INVALID_PARAM: a delay below 0 or above 2^40 ticks.
pub fn timed_wait(table: &mut ProcessTable, request: Request, delay: i64, out: &mut Out)
    requires room { HasRoom 1 1 out.old }
    ensures step { IsMade (meaning.timed_wait request.moment.at table.old request.caller delay)
        table.new out.old out.new }
    ensures grows { Grows 1 1 out.old out.new }
{
    let service = Service::TimedWait;
    if table.is_busy(request.caller) {
        return table.refuse(request.caller, service, ReturnCode::InvalidMode, out);
    }
    if !is_delay(delay) {
        return table.refuse(request.caller, service, ReturnCode::InvalidParam, out);
    }
    wait_for(table, request, delay, out);
}

fn wait_for(table: &mut ProcessTable, request: Request, delay: i64, out: &mut Out)
    requires delay { is_delay delay ≡ true }
    requires room { HasRoom 1 1 out.old }
    ensures step { IsMade (meaning.delays request.moment.at table.old request.caller delay)
        table.new out.old out.new }
    ensures grows { Grows 1 1 out.old out.new }
{
    let service = Service::TimedWait;
    let caller = request.caller;
    if delay == 0 {
        table.answer(caller, service, ReturnCode::NoError, &[], out);
        table.go_last(caller);
    } else {
        let found = table.found(caller);
        let due = Due::Delay(Ticks(request.moment.at.now.0 + delay as u64));
        if let Some(found) = &found {
            table.wait(found, service, Some(due), out);
        }
    }
}

/// PERIODIC_WAIT (ARINC 653 Part 1, time management): blocks the caller until its next release, one
/// period after the last; it has met its deadline. INVALID_MODE: the caller may not wait, or is
/// aperiodic.
pub fn periodic_wait(table: &mut ProcessTable, request: Request, out: &mut Out)
    requires { HasRoom 1 1 out.old }
    ensures step { IsMade (meaning.periodic_wait table.old request.caller)
        table.new out.old out.new }
    ensures grows { Grows 1 1 out.old out.new }
{
    let service = Service::PeriodicWait;
    let caller = request.caller;
    if table.is_busy(caller) {
        return table.refuse(caller, service, ReturnCode::InvalidMode, out);
    }
    let found = table.found(caller);
    let who = name_of(&found);
    match &found {
        Some(found) if found.row.period.is_some() => table.wait_for_period(found, out),
        _ => refuse(caller, who, service, ReturnCode::InvalidMode, out),
    }
}

/// The deadline `budget` ticks from now; `None` without a limit.
fn deadline_in(moment: Moment, budget: i64) -> Option<Ticks>
    requires budget { is_duration budget ≡ true }
    ensures deadline { result ≡ meaning.deadline_in moment.at budget }
    ensures bounded { IsAtMost LATEST_RELEASE_POINT result }
{
    if budget < 0 {
        None
    } else {
        Some(Ticks(moment.at.now.0 + budget as u64))
    }
}

/// Whether `budget` reaches past the next release of a periodic process.
fn reaches_past(moment: Moment, budget: i64, found: &Found) -> bool
    requires budget { is_duration budget ≡ true }
    ensures { result ≡ meaning.reaches_past moment.at budget found.now.row found.now.row.period }
{
    match found.row.period {
        None => false,
        Some(_) if budget < 0 => true,
        Some(period) => moment.at.now.0 + budget as u64 > found.row.release.0 + period.0,
    }
}

/// REPLENISH (ARINC 653 Part 1, time management): moves the caller's deadline to `budget` ticks
/// from now; -1 is no limit. NO_ACTION: the caller is the handler, the mode is not normal, or its
/// time capacity is unlimited; INVALID_PARAM: a budget below -1 or above 2^40 ticks; INVALID_MODE:
/// the new deadline of a periodic process is past its next release.
pub fn replenish(table: &mut ProcessTable, request: Request, budget: i64, out: &mut Out)
    requires room { HasRoom 1 1 out.old }
    ensures step { IsMade
        (meaning.replenish request.mode request.moment.at table.old request.caller budget)
        table.new out.old out.new }
    ensures grows { Grows 1 1 out.old out.new }
{
    let service = Service::Replenish;
    let caller = request.caller;
    if may_not_lock(request) {
        return table.refuse(caller, service, ReturnCode::NoAction, out);
    }
    if !is_duration(budget) {
        return table.refuse(caller, service, ReturnCode::InvalidParam, out);
    }
    let Some(found) = table.found(caller) else {
        return table.answer(caller, service, ReturnCode::NoError, &[], out);
    };
    if found.row.capacity.is_none() {
        return refuse(caller, found.name(), service, ReturnCode::NoAction, out);
    }
    if reaches_past(request.moment, budget, &found) {
        return refuse(caller, found.name(), service, ReturnCode::InvalidMode, out);
    }
    answer(caller, found.name(), service, ReturnCode::NoError, &[], out);
    table.set_deadline(&found, deadline_in(request.moment, budget));
}
