//! The room that operations on many processes need: for their lines, and for their actions.

use apex_types::MOST_PROCESSES;

/// The service of each process that waits at an object ends, and the process becomes ready.
pub const LINES_TO_RELEASE_ALL: u16 = 2 * MOST_PROCESSES as u16;

/// Each process that waits at an object gets its reply.
pub const ACTIONS_TO_RELEASE_ALL: u16 = MOST_PROCESSES as u16;

/// Each process that waits at an object has a message: its service ends and it becomes ready.
pub const LINES_TO_GIVE_ALL: u16 = 2 * MOST_PROCESSES as u16;

/// Each process that waits at an object gets the message's words and its reply.
pub const ACTIONS_TO_GIVE_ALL: u16 = 2 * MOST_PROCESSES as u16;

/// The service of each process may end, the process may become ready, and may miss its deadline.
pub const LINES_TO_TREAT_DUE: u16 = 3 * MOST_PROCESSES as u16;

/// Each process may get a reply, and may have an error that waits for the handler.
pub const ACTIONS_TO_TREAT_DUE: u16 = 2 * MOST_PROCESSES as u16;
