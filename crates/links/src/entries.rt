//! One list.

ghost use Rattle.std.specs.Prelude.{◌≡◌, ◌<◌, ◌≤◌, length, slice_get};
ghost use Rattle.apex_types.specs.Limits.{MOST_PROCESSES};
ghost use Rattle.kernel_meaning.specs.Queues.{behind_equals, without};
ghost use Rattle.kernel_meaning.specs.Queues.{joined};
ghost use Rattle.kernel_laws.specs.Ready.{times_listed};

use apex_types::{Discipline, Entry, MOST_PROCESSES, ProcessIndex};
use arrayvec::ArrayVec;

/// The processes that wait for one object, in the order of their release.
pub type Entries = ArrayVec<Entry, MOST_WAITING>;

/// The most processes that wait together.
pub(crate) const MOST_WAITING: usize = MOST_PROCESSES as usize;

/// The entry that is released next.
pub(crate) fn front(entries: &[Entry]) -> Option<Entry>
    ensures { result ≡ slice_get entries.now 0 }
{
    entries.first().copied()
}

/// Removes a process from the list, which contains it at most once.
pub(crate) fn leave(entries: &mut Entries, process: ProcessIndex)
    requires { times_listed process.0 entries.old.items ≤ 1 }
    ensures { entries.new.items ≡ without process.0 entries.old.items }
{
    let mut place = 0;
    while place < entries.len() && entries[place].process.0 != process.0 {
        place += 1;
    }
    if place < entries.len() {
        entries.remove(place);
    }
}

/// Inserts an entry after all entries of its priority or a higher one.
fn enter(entries: &mut Entries, entry: Entry)
    requires { length entries.old.items < MOST_PROCESSES }
    ensures { entries.new.items ≡ behind_equals entry entries.old.items }
{
    let mut place = 0;
    while place < entries.len() && entries[place].priority.0 >= entry.priority.0 {
        place += 1;
    }
    entries.insert(place, entry);
}

/// Inserts an entry into the list, at the place that follows from the discipline.
pub(crate) fn join(entries: &mut Entries, discipline: Discipline, entry: Entry)
    requires { length entries.old.items < MOST_PROCESSES }
    ensures { entries.new.items ≡ joined discipline entry entries.old.items }
{
    match discipline {
        Discipline::Fifo => entries.push(entry),
        Discipline::Priority => enter(entries, entry),
    }
}
