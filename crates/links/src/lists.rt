//! All lists, each with its number.

ghost use Rattle.std.specs.Prelude.{◌≡◌, ◌<◌, ◌≤◌, [], length, map, replicate, slice_get, IfOk};
ghost use Rattle.apex_types.specs.Limits.{MOST_PROCESSES};
ghost use Rattle.kernel_meaning.specs.Queues.{without};
ghost use Rattle.kernel_meaning.specs.Queues.{joined, list_in};
ghost use Rattle.kernel_laws.specs.Ready.{times_listed};
ghost use Rattle.links.specs.Levels.{in_order};
ghost use Rattle.links.specs.Lists.{emptied_each, put_in};
ghost use Rattle.links.specs.OneHome.{entries_of};

use crate::entries::{self, Entries};
use apex_types::{Discipline, Entry, MOST_PROCESSES, ProcessIndex};
use std::alloc::{AllocError, Global};

/// One of several lists, from 0.
#[derive(Clone, Copy)]
pub struct ListId(pub u8);

/// Makes `count` empty lists. `AllocError`: out of memory.
pub(crate) fn empty_lists(alloc: Global, count: u16) -> Result<Vec<Entries>, AllocError>
    ensures { IfOk result (λ lists. map entries_of lists.items ≡ replicate count []) }
{
    let mut lists = Vec::with_capacity(alloc, usize::from(count))?;
    for _ in 0..count {
        lists.push(Entries::new())?;
    }
    Ok(lists)
}

/// The entry of `list` that is released next.
pub(crate) fn front_at(lists: &[Entries], list: ListId) -> Option<Entry>
    ensures { result ≡ slice_get (list_in (map entries_of lists.now) list.0) 0 }
{
    match lists.get(usize::from(list.0)) {
        Some(entries) => entries::front(entries),
        None => None,
    }
}

/// The number of entries in `list`.
pub(crate) fn count_at(lists: &[Entries], list: ListId) -> u8
    ensures count { result ≡ length (list_in (map entries_of lists.now) list.0) }
    ensures most { result ≤ MOST_PROCESSES }
{
    match lists.get(usize::from(list.0)) {
        Some(entries) => entries.len() as u8,
        None => 0,
    }
}

/// A copy of one list.
fn copy_of(entries: &Entries) -> Entries
    ensures { result.items ≡ entries.now.items }
{
    let mut copy = Entries::new();
    for entry in entries.as_slice() {
        copy.push(*entry);
    }
    copy
}

/// A copy of a list.
pub(crate) fn copy_at(lists: &[Entries], list: ListId) -> Entries
    ensures { result.items ≡ list_in (map entries_of lists.now) list.0 }
{
    match lists.get(usize::from(list.0)) {
        Some(entries) => copy_of(entries),
        None => Entries::new(),
    }
}

/// The entries of all lists, one list after another. `AllocError`: out of memory.
#[tactic(auto, using(std::proofs::lemmas::List::drop_more))]
pub(crate) fn copy_all(alloc: Global, lists: &[Entries]) -> Result<Vec<Entry>, AllocError>
    ensures { IfOk result (λ all. all.items ≡ in_order (map entries_of lists.now)) }
{
    let mut all = Vec::new(alloc);
    for list in lists {
        all.extend_from_slice(list.as_slice())?;
    }
    Ok(all)
}

/// Removes a process from `list`, which contains it at most once.
pub(crate) fn leave_at(lists: &mut Vec<Entries>, list: ListId, process: ProcessIndex)
    requires { times_listed process.0 (list_in (map entries_of lists.old.items) list.0) ≤ 1 }
    ensures { map entries_of lists.new.items
        ≡ put_in (map entries_of lists.old.items) list.0
        (without process.0 (list_in (map entries_of lists.old.items) list.0)) }
{
    if let Some(entries) = lists.get_mut(usize::from(list.0)) {
        entries::leave(entries, process);
    }
}

/// Inserts an entry into `list`, at the place that follows from the discipline.
pub(crate) fn join_at(lists: &mut Vec<Entries>, list: ListId, discipline: Discipline, entry: Entry)
    requires { length (list_in (map entries_of lists.old.items) list.0) < MOST_PROCESSES }
    ensures { map entries_of lists.new.items
        ≡ put_in (map entries_of lists.old.items) list.0
        (joined discipline entry (list_in (map entries_of lists.old.items) list.0)) }
{
    if let Some(entries) = lists.get_mut(usize::from(list.0)) {
        entries::join(entries, discipline, entry);
    }
}

/// Empties all lists.
pub(crate) fn clear_all(lists: &mut Vec<Entries>)
    ensures { map entries_of lists.new.items ≡ emptied_each (map entries_of lists.old.items) }
{
    for entries in lists.iter_mut() {
        entries.clear();
    }
}
