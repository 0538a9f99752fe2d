//! The variables that show a stay.

ghost use Rattle.std.specs.Prelude.{◌≡◌, ◌++◌, OnOk};
ghost use Rattle.wave_dump.specs.Dumps.{begin_changes, end_changes, marks_of, mode_marks, state_marks};

use crate::change::{Change, Value, push_change};
use crate::variable::Variable;
use apex_types::{Mode, ProcessState};
use trace_stays::{Ended, MemoryFull, Span};

/// What shows that a process is in a state, or a partition in a mode: a wire that is 1, and a variable
/// that has the name of it.
#[derive(Clone, Copy)]
pub struct Marks {
    wire: Variable,
    named: Variable,
    name: Value,
}

impl Marks {
    pub fn of_state(place: usize, state: ProcessState) -> Marks
        ensures { result ≡ state_marks place state }
    {
        Marks {
            wire: Variable::State(place, state),
            named: Variable::StateName(place),
            name: Value::State(state),
        }
    }

    pub fn of_mode(place: usize, mode: Mode) -> Marks
        ensures { result ≡ mode_marks place mode }
    {
        Marks {
            wire: Variable::Mode(place, mode),
            named: Variable::ModeName(place),
            name: Value::Mode(mode),
        }
    }

    pub fn of(ended: &Ended) -> Marks
        ensures { result ≡ marks_of ended.now }
    {
        match ended {
            Ended::State(place, stay) => Marks::of_state(*place, stay.state),
            Ended::Mode(place, stay) => Marks::of_mode(*place, stay.mode),
        }
    }

    /// Returns true if both are of the same process, or of the same partition.
    pub fn are_of_same(&self, other: &Marks) -> bool {
        self.named == other.named
    }

    /// Adds the changes at the first tick of a stay; none for one without ticks.
    pub fn push_begin(self, changes: &mut Vec<Change>, span: Span) -> Result<(), MemoryFull>
        ensures { OnOk result
            (changes.new.items ≡ changes.old.items ++ begin_changes self span) }
    {
        if span.until.0 <= span.from.0 {
            return Ok(());
        }
        push_change(changes, span.from, self.wire, Value::High)?;
        push_change(changes, span.from, self.named, self.name)
    }

    /// Adds the changes at the tick after the last one of a stay; none for one without ticks.
    pub fn push_end(self, changes: &mut Vec<Change>, span: Span) -> Result<(), MemoryFull>
        ensures { OnOk result (changes.new.items ≡ changes.old.items ++ end_changes self span) }
    {
        if span.until.0 <= span.from.0 {
            return Ok(());
        }
        push_change(changes, span.until, self.wire, Value::Low)?;
        push_change(changes, span.until, self.named, Value::Nothing)
    }
}
