//! The waiting lists of a partition, of which at most one contains a process; the list of the ready
//! processes, by priority; and the due lists.
#![tactic(auto)]

mod due_list;
mod dues;
mod entries;
mod homes;
mod links;
mod lists;
mod marks;
mod ready;
mod timers;
mod waiting_lists;

pub use due_list::DueList;
pub use dues::DueEntry;
pub use entries::Entries;
pub use links::Links;
pub use lists::ListId;
pub use ready::ReadyLists;
pub use timers::{begin_timer, due_mask, next_due, set_timer};
pub use waiting_lists::WaitingLists;
