//! The variables of a dump.

use apex_types::{Mode, ProcessState};
use std::fmt::{self, Display, Formatter, Write};

/// A variable of a dump. Shown, it is its code in the dump: no two variables have the same.
#[derive(Clone, Copy, PartialEq, Eq)]
pub enum Variable {
    /// True while the process at this place is in this state.
    State(usize, ProcessState),
    /// True while the partition at this place is in this mode.
    Mode(usize, Mode),
    /// The state of the process at this place, by its name.
    StateName(usize),
    /// The mode of the partition at this place, by its name.
    ModeName(usize),
    /// The pulse at this place.
    Pulse(usize),
    /// The first word of the messages of the pulse at this place.
    Word(usize),
    /// True in the windows of the partition with this number in the module table.
    Window(u8),
}

impl Display for Variable {
    fn fmt<W: Write>(&self, f: &mut Formatter<W>) -> fmt::Result {
        match self {
            Variable::State(place, state) => write!(f, "s{place}.{}", *state as u8),
            Variable::Mode(place, mode) => write!(f, "m{place}.{}", *mode as u8),
            Variable::StateName(place) => write!(f, "t{place}"),
            Variable::ModeName(place) => write!(f, "n{place}"),
            Variable::Pulse(place) => write!(f, "e{place}"),
            Variable::Word(place) => write!(f, "v{place}"),
            Variable::Window(number) => write!(f, "w{number}"),
        }
    }
}
