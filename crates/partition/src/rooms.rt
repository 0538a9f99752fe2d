//! The room that the parts of a tick need: for their lines, and for their actions.

use apex_types::MOST_PROCESSES;
use process_table_base::{ACTIONS_TO_GIVE_ALL, LINES_TO_GIVE_ALL, LINES_TO_TREAT_DUE};

/// A Clear: the mode, and that INIT is ready.
pub const LINES_TO_CLEAR: u16 = 2;

/// A Clear: all runners stop, the data are restored, and INIT begins.
pub const ACTIONS_TO_CLEAR: u16 = 3;

/// The choice: the handler is ready, one runner leaves the processor, another one takes it.
pub const LINES_TO_CHOOSE: u16 = 3;

/// The choice: the handler begins.
pub const ACTIONS_TO_CHOOSE: u16 = 1;

/// INIT becomes dormant, the mode normal, and each process may be ready.
pub const LINES_TO_START_NORMALLY: u16 = 2 + MOST_PROCESSES as u16;

/// INIT stops.
pub const ACTIONS_TO_START_NORMALLY: u16 = 1;

/// A service that sets the mode: the line of its return, and the normal start.
pub const LINES_TO_SET_MODE: u16 = 1 + LINES_TO_START_NORMALLY;

/// A service that sets the mode: its reply, and the Clear.
pub const ACTIONS_TO_SET_MODE: u16 = 1 + ACTIONS_TO_CLEAR;

/// A call: no call writes more lines than one that gives a message to all waiting processes, and
/// the line of its return.
pub const LINES_TO_SERVE: u16 = 1 + LINES_TO_GIVE_ALL;

/// A call: no call has more actions than one that gives a message to all waiting processes, and its
/// reply.
pub const ACTIONS_TO_SERVE: u16 = 1 + ACTIONS_TO_GIVE_ALL;

/// What is due, with the Clear that a missed deadline leads to.
pub const LINES_FOR_DUE: u16 = LINES_TO_TREAT_DUE + LINES_TO_CLEAR;

/// What is due, then the choice.
pub const LINES_TO_PREPARE: u16 = LINES_FOR_DUE + LINES_TO_CHOOSE;

/// A whole tick: what is due, the choice, and the call of the current runner.
pub const LINES_FOR_TICK: u16 = LINES_TO_PREPARE + LINES_TO_SERVE;
