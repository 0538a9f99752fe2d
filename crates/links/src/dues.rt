//! Entries in the order of their ticks.

ghost use Rattle.std.specs.Prelude.{◌≡◌, ℕ, ◌<◌, ◌≤◌, length};
ghost use Rattle.apex_types.specs.Limits.{MOST_PROCESSES};
ghost use Rattle.links.specs.DueOrder.{AreDueBelow, AreInOrder, behind_earlier, times_due, without};
ghost use Rattle.links.specs.Timers.{HasThoseDue};

use apex_types::{MOST_PROCESSES, ProcessIndex, Ticks};
use arrayvec::ArrayVec;

/// A process, and the tick at which something is due for it.
#[derive(Clone, Copy)]
pub struct DueEntry {
    pub process: ProcessIndex,
    pub tick: Ticks,
}

impl Default for DueEntry {
    fn default() -> DueEntry {
        DueEntry {
            process: ProcessIndex(0),
            tick: Ticks(0),
        }
    }
}

/// The entries of a due list, the earliest first.
pub(crate) type Dues = ArrayVec<DueEntry, MOST_DUE>;

/// The most entries of a due list.
const MOST_DUE: usize = MOST_PROCESSES as usize;

/// Removes a process from the list.
pub(crate) fn leave(dues: &mut Dues, process: ProcessIndex)
    requires { (p : ℕ) → times_due p dues.old.items ≤ 1 }
    ensures { dues.new.items ≡ without process.0 dues.old.items }
{
    let mut place = 0;
    while place < dues.len() && dues[place].process.0 != process.0 {
        place += 1;
    }
    if place < dues.len() {
        dues.remove(place);
    }
}

/// Inserts an entry after all entries whose tick is not later.
pub(crate) fn enter(dues: &mut Dues, entry: DueEntry)
    requires { length dues.old.items < MOST_PROCESSES }
    ensures { dues.new.items ≡ behind_earlier entry dues.old.items }
{
    let mut place = 0;
    while place < dues.len() && dues[place].tick.0 <= entry.tick.0 {
        place += 1;
    }
    dues.insert(place, entry);
}

/// A bit for each process whose tick is not later than now: bit 0 is that of process 0.
pub(crate) fn due_by(dues: &Dues, now: Ticks) -> u64
    requires below { AreDueBelow MOST_PROCESSES dues.now.items }
    requires ordered { AreInOrder dues.now.items }
    ensures { HasThoseDue now.0 dues.now.items result }
{
    let mut mask = 0;
    let mut place = 0;
    while place < dues.len() && dues[place].tick.0 <= now.0 {
        mask |= 1 << dues[place].process.0;
        place += 1;
    }
    mask
}
