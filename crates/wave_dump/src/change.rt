//! Changes of variables.

ghost use Rattle.std.specs.Prelude.{◌≡◌, ◌++◌, OnOk};
ghost use Rattle.std.specs.List.Sorted.{IsNonDecreasingBy, IsPermutation};
ghost use Rattle.wave_dump.specs.Dumps.{changes_in, change_to, pulse_changes};

use crate::variable::Variable;
use apex_types::{Event, Mode, ProcessState, Ticks};
use std::fmt::{self, Display, Formatter, Write};
use trace_stays::MemoryFull;
use trace_windows::Stretch;

/// The new value of a variable.
#[derive(Clone, Copy)]
pub enum Value {
    /// The wire becomes 0.
    Low,
    /// The wire becomes 1, or the event happens.
    High,
    /// The process enters this state.
    State(ProcessState),
    /// The partition enters this mode.
    Mode(Mode),
    /// The process is in no state, or the partition in no mode.
    Nothing,
    /// The first word of a message.
    Word(i64),
}

/// Displays as written in a dump before the code of its variable: a digit, a word that viewers show
/// by its name, or the 64 bits of a number without those before the first 1.
impl Display for Value {
    fn fmt<W: Write>(&self, f: &mut Formatter<W>) -> fmt::Result {
        match self {
            Value::Low => f.write_str("0"),
            Value::High => f.write_str("1"),
            Value::State(state) => write!(f, "s{} ", state.word()),
            Value::Mode(mode) => write!(f, "s{} ", mode.word()),
            Value::Nothing => f.write_str("s- "),
            Value::Word(word) => write!(f, "b{:b} ", *word),
        }
    }
}

/// A variable changes in a tick.
#[derive(Clone, Copy)]
pub struct Change {
    pub tick: Ticks,
    pub variable: Variable,
    pub value: Value,
}

/// Adds the change of a variable to a value in a tick.
pub fn push_change(
    changes: &mut Vec<Change>,
    tick: Ticks,
    variable: Variable,
    value: Value,
) -> Result<(), MemoryFull>
    ensures { OnOk result
        (changes.new.items ≡ changes.old.items ++ change_to tick variable value) }
{
    changes.push(Change {
        tick,
        variable,
        value,
    })?;
    Ok(())
}

/// Adds the changes of the wire of a window; none for ticks in no window.
pub fn push_window(changes: &mut Vec<Change>, stretch: &Stretch) -> Result<(), MemoryFull>
    ensures { OnOk result
        (changes.new.items
        ≡ changes.old.items ++ changes_in stretch.now.owner stretch.now.span) }
{
    let Some(owner) = stretch.owner else {
        return Ok(());
    };
    let wire = Variable::Window(owner.0);
    push_change(changes, stretch.span.from, wire, Value::High)?;
    push_change(changes, stretch.span.until, wire, Value::Low)
}

/// Adds the changes of the pulse of an event, and of the first word of its message, if it has one.
pub fn push_pulse(changes: &mut Vec<Change>, place: usize, event: &Event) -> Result<(), MemoryFull>
    ensures { OnOk result
        (changes.new.items ≡ changes.old.items ++ pulse_changes place event.now) }
{
    let tick = event.tick;
    push_change(changes, tick, Variable::Pulse(place), Value::High)?;
    match event.kind.words().first() {
        Some(word) => push_change(changes, tick, Variable::Word(place), Value::Word(*word)),
        None => Ok(()),
    }
}

/// Brings changes into the order of their ticks. Those of one tick stay in their order.
pub fn in_order(changes: &mut Vec<Change>) -> Result<(), MemoryFull>
    ensures sorted { OnOk result
        (IsNonDecreasingBy (λ change. change.tick.0) changes.new.items) }
    ensures all { IsPermutation changes.old.items changes.new.items }
{
    changes.sort_by_key(
        |change| -> u64
            ensures { result ≡ change.now.tick.0 }
        { change.tick.0 },
    )?;
    Ok(())
}
