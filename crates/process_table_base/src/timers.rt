//! The timers of the processes: their due times and their deadlines.

ghost use Rattle.std.specs.Prelude.{◌≡◌, ◌<◌, ℕ, List, Option, Some, true, [], slice_get, slice_set};
ghost use Rattle.apex_types.specs.Limits.{MOST_PROCESSES};
ghost use Rattle.apex_types.specs.Runners.{place_of};
ghost use Rattle.apex_types.specs.declared.process.ProcessStatus.{ProcessStatus as Row};
ghost use Rattle.links.specs.Timers.{IsDueMask, IsExact, IsNextDue, number_of, tick_in, ticks_with};
ghost use Rattle.process_table_base.specs.Timed.{AreTimed, HasTicksOf, deadlines, due_tick as tick_of_due, due_times};

use apex_types::{Due, MOST_PROCESSES, MOST_RUNNERS, ProcessIndex, ProcessStatus, Runner, Ticks};
use links::{DueList, begin_timer, due_mask, next_due, set_timer};

/// The due times of the processes that have one, and their deadlines.
#[derive(Drop)]
pub(crate) struct Timers {
    pub(crate) dues: DueList,
    pub(crate) deadlines: DueList,
}

fn due_tick(due: Option<Due>) -> Option<Ticks>
    ensures { number_of result ≡ tick_of_due due }
{
    match due {
        Some(Due::Release(tick) | Due::Delay(tick) | Due::TimeOut(tick)) => Some(tick),
        None => None,
    }
}

fn are_same(one: Option<Ticks>, other: Option<Ticks>) -> bool
    ensures { result ≡ true → one ≡ other }
{
    match (one, other) {
        (Some(one), Some(other)) => one.0 == other.0,
        (None, None) => true,
        _ => false,
    }
}

/// Changes the tick of a process, or removes it. Without an old one the list is not searched.
#[tactic(auto, using(crate::proofs::Timed::unchanged))]
#[inline(always)]
fn renew(list: &mut DueList, process: ProcessIndex, old: Option<Ticks>, next: Option<Ticks>)
    requires below { process.0 < MOST_PROCESSES }
    requires known { tick_in process.0 list.old ≡ number_of old }
    ensures { (ticks : ℕ → Option ℕ) → ticks process.0 ≡ number_of old → IsExact ticks list.old
        → IsExact (ticks_with process.0 (number_of next) ticks) list.new }
{
    match (old, next) {
        (None, Some(tick)) => begin_timer(list, process, tick),
        _ => {
            if !are_same(old, next) {
                set_timer(list, process, next);
            }
        }
    }
}

impl Timers {
    /// Timers with nothing due for any process.
    pub(crate) fn new() -> Timers
        ensures dues { result.dues ≡ [] }
        ensures deadlines { result.deadlines ≡ [] }
    {
        Timers {
            dues: DueList::new(),
            deadlines: DueList::new(),
        }
    }

    /// Updates the timers for a record that replaces the old one.
    pub(crate) fn renew(&mut self, runner: Runner, old: &ProcessStatus, row: &ProcessStatus)
        requires runner { place_of runner < MOST_RUNNERS }
        requires known { HasTicksOf runner old.now self.old }
        ensures { (rows : List Row) → slice_get rows (place_of runner) ≡ Some old.now
            → AreTimed rows self.old
            → AreTimed (slice_set rows (place_of runner) row.now) self.new }
    {
        if let Runner::Process(process) = runner {
            renew(
                &mut self.dues,
                process,
                due_tick(old.due),
                due_tick(row.due),
            );
            renew(&mut self.deadlines, process, old.deadline, row.deadline);
        }
    }

    /// The least due time or deadline, if any.
    pub(crate) fn next_due(&self) -> Option<Ticks>
        ensures { (rows : List Row) → AreTimed rows self.now
            → IsNextDue (due_times rows) (deadlines rows) (number_of result) }
    {
        next_due(&self.dues, &self.deadlines)
    }

    /// A bit for each process whose due time or deadline is not later than now: bit 0 is that of
    /// process 0.
    pub(crate) fn due_mask(&self, now: Ticks) -> u64
        ensures { (rows : List Row) → AreTimed rows self.now
            → IsDueMask now.0 (due_times rows) (deadlines rows) result }
    {
        due_mask(&self.dues, &self.deadlines, now)
    }
}
