//! The due list: processes with a due tick.

ghost use Rattle.std.specs.Prelude.{◌≡◌, ◌<◌, [], slice_get, IfSome};
ghost use Rattle.apex_types.specs.Limits.{MOST_PROCESSES};
ghost use Rattle.links.specs.DueOrder.{AreFrom, behind_earlier, due_at, times_due, without};
ghost use Rattle.links.specs.Timers.{HasThoseDue};

use crate::dues::{self, DueEntry, Dues};
use apex_types::{MOST_PROCESSES, ProcessIndex, Ticks};
use std::marker::Model;

/// The processes with a due tick, each at most once, in the order of their ticks; equal ticks keep
/// the order of insertion. A contract sees it as a list of entries.
#[derive(Drop)]
pub struct DueList {
    dues: Dues,
}

impl Model for DueList {
    ghost use Rattle.std.specs.Prelude.{List};
    ghost use Rattle.links.specs.declared.dues.DueEntry.{DueEntry as Item};

    ghost Value = { List Item };

    ghost use Rattle.links.specs.DueView.{entries_of, IsSound};

    ghost view = { entries_of };

    ghost invariant = { IsSound };
}

impl DueList {
    /// An empty due list.
    pub fn new() -> DueList
        ensures { result ≡ [] }
    {
        DueList { dues: Dues::new() }
    }

    /// The entry with the least tick.
    pub fn first(&self) -> Option<DueEntry>
        ensures value { result ≡ slice_get self.now 0 }
        ensures least { IfSome result (λ entry. AreFrom entry.tick.0 self.now) }
        ensures below { IfSome result (λ entry. entry.process.0 < MOST_PROCESSES) }
    {
        self.dues.first().copied()
    }

    /// A bit for each process whose tick is not later than now: bit 0 is that of process 0.
    pub fn due_by(&self, now: Ticks) -> u64
        ensures { HasThoseDue now.0 self.now result }
    {
        dues::due_by(&self.dues, now)
    }

    /// Removes a process, for which nothing is due any longer.
    pub fn remove(&mut self, process: ProcessIndex)
        ensures { self.new ≡ without process.0 self.old }
    {
        dues::leave(&mut self.dues, process);
    }

    /// Inserts a process, for which nothing is due yet, after all entries whose tick is not later
    /// than `tick`.
    pub fn insert_by_due(&mut self, process: ProcessIndex, tick: Ticks)
        requires below { process.0 < MOST_PROCESSES }
        requires absent { times_due process.0 self.old ≡ 0 }
        ensures { self.new ≡ behind_earlier (due_at process tick) self.old }
    {
        dues::enter(&mut self.dues, DueEntry { process, tick });
    }
}
