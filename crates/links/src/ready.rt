//! The ready processes.

ghost use Rattle.std.specs.Prelude.{◌≡◌, ◌<◌, ◌≤◌, [], slice_get, IfOk, IfSome};
ghost use Rattle.apex_types.specs.Limits.{MOST_PROCESSES};
ghost use Rattle.kernel_meaning.specs.Queues.{behind_equals, without};

use crate::links::Links;
use crate::lists::ListId;
use crate::marks::{self, Marks};
use apex_types::limits::PRIORITY_LEVELS;
use apex_types::{Entry, MOST_PROCESSES, ProcessIndex};
use std::alloc::{AllocError, Global};
use std::marker::Model;

/// The ready processes, a list for each priority. A contract sees the lists as one, the highest
/// priority first.
#[derive(Drop)]
pub struct ReadyLists {
    lists: Links,
    marks: Marks,
}

impl Model for ReadyLists {
    ghost use Rattle.std.specs.Prelude.{List};
    ghost use Rattle.apex_types.specs.declared.process.Entry.{Entry as Item};

    ghost Value = { List Item };

    ghost use Rattle.links.specs.Ready.{entries_of, IsSound};

    ghost view = { entries_of };

    ghost invariant = { IsSound };
}

impl ReadyLists {
    /// Makes the lists, with no process ready. `AllocError`: out of memory.
    pub fn new(alloc: Global) -> Result<ReadyLists, AllocError>
        ensures { IfOk result (λ ready. ready ≡ []) }
    {
        Ok(ReadyLists {
            lists: Links::new(alloc, PRIORITY_LEVELS)?,
            marks: [0; 4],
        })
    }

    /// The first entry of the highest priority.
    pub fn first(&self) -> Option<Entry>
        ensures { result ≡ slice_get self.now 0 }
    {
        match marks::first(&self.marks) {
            Some(level) => self.lists.first(ListId(level)),
            None => None,
        }
    }

    /// All entries in their order. `AllocError`: out of memory.
    pub fn entries(&self, alloc: Global) -> Result<Vec<Entry>, AllocError>
        ensures { IfOk result (λ entries. entries.items ≡ self.now) }
    {
        self.lists.all(alloc)
    }

    /// Removes a process that is no longer ready.
    #[inline(always)]
    pub fn remove(&mut self, process: ProcessIndex)
        ensures { self.new ≡ without process.0 self.old }
    {
        match self.lists.which(process) {
            Some(list) => {
                self.lists.remove(process);
                let any = self.lists.count(list) > 0;
                marks::put(&mut self.marks, list.0, any);
            }
            None => {}
        }
    }

    /// Moves a process after its equals, whether it was ready before or not.
    #[inline(always)]
    pub fn move_back(&mut self, entry: Entry)
        requires { entry.process.0 < MOST_PROCESSES }
        ensures { self.new ≡ behind_equals entry (without entry.process.0 self.old) }
    {
        self.remove(entry.process);
        let level = 255 - entry.priority.0;
        self.lists.push_back(ListId(level), entry);
        marks::put(&mut self.marks, level, true);
    }

    /// Empties all lists.
    pub fn clear(&mut self)
        ensures { self.new ≡ [] }
    {
        self.lists.clear();
        self.marks = [0; 4];
    }
}
