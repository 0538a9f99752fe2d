//! Lists of processes, with the list of each process.

ghost use Rattle.std.specs.Prelude.{◌≡◌, ℕ, ◌<◌, ◌≤◌, [], drop, length, replicate, slice_get, IfOk, IfSome};
ghost use Rattle.apex_types.specs.Limits.{MOST_PROCESSES};
ghost use Rattle.apex_types.specs.declared.codes.Discipline.TheVariants as discipline;
ghost use Rattle.kernel_meaning.specs.Queues.{list_in};
ghost use Rattle.links.specs.Lists.{IsInNone, emptied_each, joins_in, moves_to, put_in, without_in_each};
ghost use Rattle.kernel_laws.specs.Ready.{times_listed};
ghost use Rattle.links.specs.Levels.{in_order};
ghost use Rattle.links.specs.OneHome.{once_at};

use crate::entries::{Entries, MOST_WAITING};
use crate::lists::ListId;
use crate::{homes, lists};
use apex_types::{Discipline, Entry, MOST_PROCESSES, ProcessIndex};
use std::alloc::{AllocError, Global};
use std::marker::Model;

/// Several lists of processes, of which at most one contains a process. A contract sees them as
/// lists of entries.
#[derive(Drop)]
pub struct Links {
    lists: Vec<Entries>,
    homes: [Option<ListId>; MOST_WAITING],
}

impl Model for Links {
    ghost use Rattle.std.specs.Prelude.{List};
    ghost use Rattle.apex_types.specs.declared.process.Entry.{Entry as Item};

    ghost Value = { List (List Item) };

    ghost use Rattle.links.specs.View.{lists_of, IsSound};

    ghost view = { lists_of };

    ghost invariant = { IsSound };
}

impl Links {
    /// Makes `lists` empty lists. `AllocError`: out of memory.
    pub fn new(alloc: Global, lists: u16) -> Result<Links, AllocError>
        ensures { IfOk result (λ links. links ≡ replicate lists []) }
    {
        Ok(Links {
            lists: lists::empty_lists(alloc, lists)?,
            homes: [None; MOST_WAITING],
        })
    }

    /// The entry of `list` that is released next.
    pub fn first(&self, list: ListId) -> Option<Entry>
        ensures value { result ≡ slice_get (list_in self.now list.0) 0 }
        ensures below { IfSome result (λ entry. entry.process.0 < MOST_PROCESSES) }
    {
        lists::front_at(&self.lists, list)
    }

    /// The number of entries in `list`.
    pub fn count(&self, list: ListId) -> u8
        ensures count { result ≡ length (list_in self.now list.0) }
        ensures most { result ≤ MOST_PROCESSES }
    {
        lists::count_at(&self.lists, list)
    }

    /// A copy of a list.
    pub fn entries(&self, list: ListId) -> Entries
        ensures { result.items ≡ list_in self.now list.0 }
    {
        lists::copy_at(&self.lists, list)
    }

    /// The entries of all lists, one list after another. `AllocError`: out of memory.
    pub fn all(&self, alloc: Global) -> Result<Vec<Entry>, AllocError>
        ensures { IfOk result (λ entries. entries.items ≡ in_order self.now) }
    {
        lists::copy_all(alloc, &self.lists)
    }

    /// The list that contains a process, once; no other list does.
    pub fn which(&self, process: ProcessIndex) -> Option<ListId>
        ensures { (k : ℕ) → times_listed process.0 (list_in self.now k) ≡ once_at result k }
    {
        homes::home_of(&self.homes, process)
    }

    /// Removes a process from its list.
    pub fn remove(&mut self, process: ProcessIndex)
        ensures { self.new ≡ without_in_each process.0 self.old }
    {
        match homes::home_of(&self.homes, process) {
            Some(list) => {
                lists::leave_at(&mut self.lists, list, process);
                homes::put_home(&mut self.homes, process, None);
            }
            None => {}
        }
    }

    /// Adds an entry to `list`, where its place follows the discipline.
    #[inline(always)]
    fn join(&mut self, list: ListId, discipline: Discipline, entry: Entry)
        requires below { entry.process.0 < MOST_PROCESSES }
        requires nowhere { IsInNone entry.process.0 self.old }
        ensures { self.new ≡ joins_in list.0 discipline entry self.old }
    {
        if usize::from(list.0) < self.lists.len() {
            lists::join_at(&mut self.lists, list, discipline, entry);
            homes::put_home(&mut self.homes, entry.process, Some(list));
        }
    }

    /// Adds an entry to the end of `list`. Its process is in no list.
    pub fn push_back(&mut self, list: ListId, entry: Entry)
        requires below { entry.process.0 < MOST_PROCESSES }
        requires nowhere { IsInNone entry.process.0 self.old }
        ensures { self.new ≡ joins_in list.0 discipline.Fifo entry self.old }
    {
        self.join(list, Discipline::Fifo, entry);
    }

    /// Adds an entry to `list`, after all entries of its priority or a higher one. Its process is
    /// in no list.
    pub fn insert_by_priority(&mut self, list: ListId, entry: Entry)
        requires below { entry.process.0 < MOST_PROCESSES }
        requires nowhere { IsInNone entry.process.0 self.old }
        ensures { self.new ≡ joins_in list.0 discipline.Priority entry self.old }
    {
        self.join(list, Discipline::Priority, entry);
    }

    /// Moves a process from its list, if it is in one, to `list`, where its place follows the
    /// discipline.
    #[inline(always)]
    pub fn move_to(&mut self, list: ListId, discipline: Discipline, entry: Entry)
        requires below { entry.process.0 < MOST_PROCESSES }
        ensures { self.new ≡ moves_to list.0 discipline entry self.old }
    {
        self.remove(entry.process);
        self.join(list, discipline, entry);
    }

    /// Removes and returns the first entry of `list`.
    pub fn pop_front(&mut self, list: ListId) -> Option<Entry>
        ensures value { result ≡ slice_get (list_in self.old list.0) 0 }
        ensures below { IfSome result (λ entry. entry.process.0 < MOST_PROCESSES) }
        ensures lists { self.new ≡ put_in self.old list.0 (drop 1 (list_in self.old list.0)) }
    {
        let first = lists::front_at(&self.lists, list)?;
        self.remove(first.process);
        Some(first)
    }

    /// Empties all lists.
    pub fn clear(&mut self)
        ensures { self.new ≡ emptied_each self.old }
    {
        lists::clear_all(&mut self.lists);
        self.homes = [None; MOST_WAITING];
    }
}
