//! A timer list, kept exact.

ghost use Rattle.std.specs.Prelude.{◌≡◌, ◌<◌, ℕ, Option, Some, None};
ghost use Rattle.apex_types.specs.Limits.{MOST_PROCESSES};
ghost use Rattle.links.specs.DueOrder.{behind_earlier, due_at};
ghost use Rattle.links.specs.Timers.{IsDueMask, IsExact, IsLeastTick, IsNextDue, number_of, earlier as earlier_of, set_timer as timer_set, tick_in, ticks_with};

use crate::due_list::DueList;
use apex_types::{MOST_PROCESSES, ProcessIndex, Ticks};

/// Sets the tick of a process, or removes it.
pub fn set_timer(dues: &mut DueList, process: ProcessIndex, tick: Option<Ticks>)
    requires { process.0 < MOST_PROCESSES }
    ensures list { dues.new ≡ timer_set process tick dues.old }
    ensures exact { (ticks : ℕ → Option ℕ) → IsExact ticks dues.old
        → IsExact (ticks_with process.0 (number_of tick) ticks) dues.new }
{
    dues.remove(process);
    if let Some(tick) = tick {
        dues.insert_by_due(process, tick);
    }
}

/// Sets the tick of a process that has none yet.
pub fn begin_timer(dues: &mut DueList, process: ProcessIndex, due: Ticks)
    requires below { process.0 < MOST_PROCESSES }
    requires none { tick_in process.0 dues.old ≡ None }
    ensures list { dues.new ≡ behind_earlier (due_at process due) dues.old }
    ensures exact { (ticks : ℕ → Option ℕ) → IsExact ticks dues.old
        → IsExact (ticks_with process.0 (Some due.0) ticks) dues.new }
{
    dues.insert_by_due(process, due);
}

/// The least tick.
fn least(dues: &DueList) -> Option<Ticks>
    ensures { (ticks : ℕ → Option ℕ) → IsExact ticks dues.now
        → IsLeastTick ticks (number_of result) }
{
    match dues.first() {
        Some(entry) => Some(entry.tick),
        None => None,
    }
}

/// The earlier of two ticks; if only one is given, that tick.
fn earlier(one: Option<Ticks>, other: Option<Ticks>) -> Option<Ticks>
    ensures { number_of result ≡ earlier_of (number_of one) (number_of other) }
{
    match (one, other) {
        (Some(one), Some(other)) => Some(if one.0 <= other.0 { one } else { other }),
        (Some(one), None) => Some(one),
        (None, other) => other,
    }
}

/// The least due time or deadline, if any.
pub fn next_due(dues: &DueList, deadlines: &DueList) -> Option<Ticks>
    ensures { (due deadline : ℕ → Option ℕ) → IsExact due dues.now → IsExact deadline deadlines.now
        → IsNextDue due deadline (number_of result) }
{
    let due = least(dues);
    let deadline = least(deadlines);
    earlier(due, deadline)
}

/// A bit for each process whose due time or deadline is not later than now: bit 0 is that of process 0.
pub fn due_mask(dues: &DueList, deadlines: &DueList, now: Ticks) -> u64
    ensures { (due deadline : ℕ → Option ℕ) → IsExact due dues.now → IsExact deadline deadlines.now
        → IsDueMask now.0 due deadline result }
{
    let due = dues.due_by(now);
    let missed = deadlines.due_by(now);
    due | missed
}
