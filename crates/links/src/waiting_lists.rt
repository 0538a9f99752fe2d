//! The waiting lists of a partition, each by its key.

ghost use Rattle.std.specs.Prelude.{◌*◌, ◌≡◌, ◌<◌, ◌≤◌, length, slice_get, IfOk, IfSome};
ghost use Rattle.apex_types.specs.Limits.{MOST_OBJECTS, MOST_PROCESSES};
ghost use Rattle.kernel_meaning.specs.Queues.{emptied, joins, list_at, without_in_all};
ghost use Rattle.kernel_meaning.specs.Fresh.{fresh_queues};
ghost use Rattle.links.specs.ByKind as by_kind;

use crate::entries::Entries;
use crate::links::Links;
use crate::lists::ListId;
use apex_types::limits::MOST_OBJECTS;
use apex_types::{Discipline, Entry, ListKey, ProcessIndex};
use std::alloc::{AllocError, Global};
use std::marker::Model;

/// One list for each semaphore, event, buffer, blackboard and port that a partition may have.
const ALL_LISTS: u8 = 5 * MOST_OBJECTS;

/// The waiting lists of a partition, one for each object and port that it may have. At most one of
/// them contains a process. A contract sees them as the queues of the definitions.
#[derive(Drop)]
pub struct WaitingLists {
    lists: Links,
}

impl Model for WaitingLists {
    ghost use Rattle.kernel_meaning.specs.Queues.{Queues};

    ghost Value = { Queues };

    ghost use Rattle.links.specs.ByKind.{queues_of, IsWhole};

    ghost view = { queues_of };

    ghost invariant = { IsWhole };
}

/// The number of the list at index `place` of a kind. If the kind has no such list, no list has the
/// number.
fn number_from(first: u8, place: u8) -> ListId
    requires { first ≤ 4 * MOST_OBJECTS }
    ensures { result.0 ≡ by_kind.number_from first place }
{
    if place < MOST_OBJECTS {
        ListId(first + place)
    } else {
        ListId(ALL_LISTS)
    }
}

/// The number of the list with a key.
fn number_of(key: ListKey) -> ListId
    ensures { result.0 ≡ by_kind.number_of key }
{
    match key {
        ListKey::Semaphore(place) => number_from(0, place),
        ListKey::Event(place) => number_from(MOST_OBJECTS, place),
        ListKey::Buffer(place) => number_from(2 * MOST_OBJECTS, place),
        ListKey::Blackboard(place) => number_from(3 * MOST_OBJECTS, place),
        ListKey::Port(place) => number_from(4 * MOST_OBJECTS, place),
    }
}

impl WaitingLists {
    /// Makes the lists, with no process waiting. `AllocError`: out of memory.
    pub fn new(alloc: Global) -> Result<WaitingLists, AllocError>
        ensures { IfOk result (λ lists. lists ≡ fresh_queues) }
    {
        Ok(WaitingLists {
            lists: Links::new(alloc, u16::from(ALL_LISTS))?,
        })
    }

    /// The entry of `list` that is released next.
    pub fn first(&self, list: ListKey) -> Option<Entry>
        ensures value { result ≡ slice_get (list_at self.now list) 0 }
        ensures below { IfSome result (λ entry. entry.process.0 < MOST_PROCESSES) }
    {
        self.lists.first(number_of(list))
    }

    /// The number of entries in `list`.
    pub fn count(&self, list: ListKey) -> u8
        ensures count { result ≡ length (list_at self.now list) }
        ensures most { result ≤ MOST_PROCESSES }
    {
        self.lists.count(number_of(list))
    }

    /// A copy of a list.
    pub fn entries(&self, list: ListKey) -> Entries
        ensures { result.items ≡ list_at self.now list }
    {
        self.lists.entries(number_of(list))
    }

    /// Removes a process from its list.
    pub fn remove(&mut self, process: ProcessIndex)
        ensures { self.new ≡ without_in_all process.0 self.old }
    {
        self.lists.remove(process);
    }

    /// Moves a process from its list, if it is in one, to `list`, where its place follows the
    /// discipline.
    pub fn move_to(&mut self, list: ListKey, discipline: Discipline, entry: Entry)
        requires { entry.process.0 < MOST_PROCESSES }
        ensures { self.new ≡ joins list discipline entry self.old }
    {
        self.lists.move_to(number_of(list), discipline, entry);
    }

    /// Empties all lists.
    pub fn clear(&mut self)
        ensures { self.new ≡ emptied self.old }
    {
        self.lists.clear();
    }
}
