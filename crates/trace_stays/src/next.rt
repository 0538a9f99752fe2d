//! Where lines say that processes go.

ghost use Rattle.std.specs.Prelude.{◌≡◌};
ghost use Rattle.apex_types.specs.Line.{subject_text};
ghost use Rattle.trace_stays.specs.Following.{next_by, next_in, next_of_all};

use crate::clearing::{clears, resets, starts_again};
use crate::same::is_same_subject;
use apex_types::{Event, EventKind, Name, ProcessState, Subject};

/// Where a line says that a process goes.
#[derive(Clone, Copy)]
pub enum Next {
    /// It enters this state.
    Enters(ProcessState),
    /// Its partition starts again with the work of the tick, so it is gone.
    Gone,
    /// Its partition starts again before the work of the tick, so it is gone without this work.
    Cleared,
}

impl Next {
    ghost use Rattle.trace_stays.specs.Stays.{state_entered};

    /// The state that it enters; none if it is gone.
    pub fn state(self) -> Option<ProcessState>
        ensures { result ≡ state_entered self }
    {
        match self {
            Next::Enters(state) => Some(state),
            Next::Gone | Next::Cleared => None,
        }
    }
}

/// Where a line says that this process of the partition with this name goes; `None` if the line says
/// nothing of that.
pub fn next_by(event: &Event, name: &Name, who: &Subject) -> Option<Next>
    ensures { result
        ≡ next_by event.now.partition event.now.kind name.now (subject_text who.now) }
{
    match &event.partition {
        Some(partition) => {
            if partition.as_bytes() == name.as_bytes() {
                next_in(&event.kind, who)
            } else {
                None
            }
        }
        None => next_of_all(&event.kind),
    }
}

/// Where a line of its partition says that a process goes.
fn next_in(kind: &EventKind, who: &Subject) -> Option<Next>
    ensures { result ≡ next_in kind.now (subject_text who.now) }
{
    match kind {
        EventKind::State(other, state) if is_same_subject(other, who) => {
            Some(Next::Enters(*state))
        }
        EventKind::Mode(mode) if starts_again(*mode) => Some(Next::Gone),
        EventKind::Error(error, _, response) if clears(*error, *response) => Some(Next::Cleared),
        _ => None,
    }
}

/// Where a line of the module says that all processes go.
fn next_of_all(kind: &EventKind) -> Option<Next>
    ensures { result ≡ next_of_all kind.now }
{
    match kind {
        EventKind::Error(_, _, response) if resets(*response) => Some(Next::Cleared),
        _ => None,
    }
}
