//! The preemption lock, and the number of the caller.

ghost use Rattle.std.specs.Prelude.{◌≡◌, ◌<◌, ◌≤◌, ◌+◌, length};
ghost use Rattle.apex_types.specs.Limits.{MOST_LOCK_LEVEL};
ghost use Rattle.apex_types.specs.Room.{HasRoom, Grows};
ghost use Rattle.kernel_meaning.specs.ProcessServices as meaning;
ghost use Rattle.kernel_meaning.specs.Made.{IsMade, IsTold};

use apex_types::limits::MOST_LOCK_LEVEL;
use apex_types::{Lock, Mode, Out, ReturnCode, Runner, Service};
use process_table_base::{ProcessTable, Request};

/// Whether the caller may neither lock nor unlock preemption: it is the handler, or the mode is not
/// normal.
pub(crate) fn may_not_lock(request: Request) -> bool
    ensures { result ≡ meaning.may_not_lock request.mode request.caller }
{
    match request.caller {
        Runner::Handler => true,
        _ => request.mode != Mode::Normal,
    }
}

fn level_of(lock: Lock) -> u8
    ensures { result ≡ meaning.level_of lock }
{
    match lock {
        Lock::Free => 0,
        Lock::Held { level, .. } => level,
    }
}

/// The lock one level up; the caller becomes the holder of a free lock.
fn locked_by(caller: Runner, lock: Lock) -> Lock
    requires { meaning.level_of lock < MOST_LOCK_LEVEL }
    ensures { result ≡ meaning.locked_by caller lock }
{
    match lock {
        Lock::Held { level, holder } => Lock::Held {
            level: level + 1,
            holder,
        },
        Lock::Free => match caller {
            Runner::Process(holder) => Lock::Held { level: 1, holder },
            _ => Lock::Free,
        },
    }
}

/// The lock one level down; at level 0 it is free.
fn unlocked(lock: Lock) -> Lock
    ensures { result ≡ meaning.unlocked lock }
{
    match lock {
        Lock::Held { level, holder } if level > 1 => Lock::Held {
            level: level - 1,
            holder,
        },
        _ => Lock::Free,
    }
}

/// LOCK_PREEMPTION (ARINC 653 Part 1, process management): raises the lock level, which is its
/// output; no other process runs until the lock is free again. NO_ACTION: the caller is the
/// handler, or the mode is not normal; INVALID_CONFIG: the level is 16.
pub fn lock_preemption(table: &mut ProcessTable, request: Request, out: &mut Out)
    requires { HasRoom 1 1 out.old }
    ensures step { IsMade (meaning.lock_preemption request.mode table.old request.caller)
        table.new out.old out.new }
    ensures grows { Grows 1 1 out.old out.new }
{
    let service = Service::LockPreemption;
    if may_not_lock(request) {
        return table.refuse(request.caller, service, ReturnCode::NoAction, out);
    }
    if level_of(table.lock()) >= MOST_LOCK_LEVEL {
        return table.refuse(request.caller, service, ReturnCode::InvalidConfig, out);
    }
    let lock = locked_by(request.caller, table.lock());
    let level = i64::from(level_of(lock));
    table.answer(request.caller, service, ReturnCode::NoError, &[level], out);
    table.set_lock(lock);
}

/// UNLOCK_PREEMPTION (ARINC 653 Part 1, process management): lowers the lock level, which is its
/// output; at 0 the lock is free. NO_ACTION: the caller is the handler, the mode is not normal, or
/// the level is 0.
pub fn unlock_preemption(table: &mut ProcessTable, request: Request, out: &mut Out)
    requires { HasRoom 1 1 out.old }
    ensures step { IsMade (meaning.unlock_preemption request.mode table.old request.caller)
        table.new out.old out.new }
    ensures grows { Grows 1 1 out.old out.new }
{
    let service = Service::UnlockPreemption;
    if may_not_lock(request) || table.lock() == Lock::Free {
        return table.refuse(request.caller, service, ReturnCode::NoAction, out);
    }
    let lock = unlocked(table.lock());
    let level = i64::from(level_of(lock));
    table.answer(request.caller, service, ReturnCode::NoError, &[level], out);
    table.set_lock(lock);
}

/// GET_MY_ID (ARINC 653 Part 1, process management): returns the number of the caller.
/// INVALID_MODE: the caller is INIT or the handler.
pub fn get_my_id(table: &ProcessTable, request: Request, out: &mut Out)
    requires { HasRoom 1 1 out.old }
    ensures step { IsTold
        (meaning.get_my_id table.now request.caller (meaning.number_of request.caller))
        out.old out.new }
    ensures grows { Grows 1 1 out.old out.new }
{
    let service = Service::GetMyId;
    match request.caller {
        Runner::Process(process) => {
            let number = i64::from(process.0) + 1;
            table.answer(request.caller, service, ReturnCode::NoError, &[number], out)
        }
        _ => table.refuse(request.caller, service, ReturnCode::InvalidMode, out),
    }
}
