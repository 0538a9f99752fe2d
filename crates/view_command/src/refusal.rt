//! Why nothing is shown.

ghost use Rattle.std.specs.Prelude.{◌≡◌, Some};
ghost use Rattle.view_command.specs.Faults.{of_shares};
ghost use Rattle.view_command.specs.Lines.{line_of};
ghost use Rattle.view_command.specs.declared.refusal.Refusal.TheVariants as refusal;

use apex_types::{Name, SinkFault};
use command_words::WantOfMemory;
use std::alloc::{AllocError, AllocFailed};
use std::fmt;
use trace_stays::MemoryFull;
use trace_windows::SharesFault;
use window_table::TableFault;

/// A trace that is not shown. Displays as its line on standard error.
#[derive(Drop)]
pub enum Refusal {
    /// The text of that name was not opened.
    Open(String),
    /// The text of that name was not read to its end.
    Read(String),
    /// The line of that number in the text of that name is no line of a trace.
    Line {
        number: u64,
        trace: String,
    },
    /// The line of that number in the text of that name is of a tick that the run did not have.
    Late {
        number: u64,
        trace: String,
    },
    /// The picture or the dump would have too many windows.
    TooMany,
    /// The picture would have `shapes` bars, arrows, flags and marks. From tick `from` on it has
    /// `elements` elements before tick `until`, and too many with it.
    Crowded {
        shapes: u64,
        from: u64,
        until: u64,
        elements: usize,
    },
    /// The text of that name breaks a rule of a module table.
    Table {
        fault: TableFault,
        table: String,
    },
    /// The line of that number in the text of that name is no row of a state.
    NoRow {
        number: u64,
        states: String,
    },
    /// The module table has no partition of this name, and the trace has.
    Foreign(Name),
    /// Neither the trace nor the module table has a name that is asked for, as this text says.
    Unknown(String),
    Memory,
    /// Standard output took no more bytes.
    Write,
}

impl fmt::Display for Refusal {
    ghost output = { λ refusal. Some (line_of refusal) };

    fn fmt<W: fmt::Write>(&self, f: &mut fmt::Formatter<W>) -> fmt::Result {
        match self {
            Refusal::Open(trace) => write!(f, "mbview: {trace} cannot be opened"),
            Refusal::Read(trace) => write!(f, "mbview: {trace} cannot be read to its end"),
            Refusal::Line { number, trace } => write!(
                f,
                "mbview: line {} of {} is no line of a trace",
                *number,
                trace.as_str()
            ),
            Refusal::Late { number, trace } => write!(
                f,
                "mbview: line {} of {} is behind the last tick of the run",
                *number,
                trace.as_str()
            ),
            Refusal::TooMany => write!(
                f,
                "mbview: the view would have too many windows; choose fewer ticks with --from and --to"
            ),
            Refusal::Crowded {
                shapes,
                from,
                until,
                elements,
            } => write!(
                f,
                "mbview: beside windows, the picture would have {} bars, arrows, flags and marks; from tick {} on it has {} elements before tick {}, and more than 5000 with it; end it there with --to {}",
                *shapes, *from, *elements, *until, *until
            ),
            Refusal::Table { fault, table } => write!(
                f,
                "mbview: {} breaks rule {} of a module table",
                table.as_str(),
                fault.number()
            ),
            Refusal::NoRow { number, states } => write!(
                f,
                "mbview: line {} of {} is no row of a state",
                *number,
                states.as_str()
            ),
            Refusal::Foreign(partition) => write!(
                f,
                "mbview: the trace has a partition that the module table has not: {}",
                partition.as_str()
            ),
            Refusal::Unknown(line) => write!(f, "mbview: {line}"),
            Refusal::Memory => write!(f, "mbview: there is too little memory"),
            Refusal::Write => write!(f, "mbview: the output cannot be written"),
        }
    }
}

impl From<AllocError> for Refusal {
    ghost from_gives = { λ _ r. r ≡ refusal.Memory };

    fn from(_: AllocError) -> Self {
        Refusal::Memory
    }
}

impl From<SinkFault> for Refusal {
    ghost from_gives = { λ _ r. r ≡ refusal.Write };

    fn from(_: SinkFault) -> Self {
        Refusal::Write
    }
}

impl From<MemoryFull> for Refusal {
    ghost from_gives = { λ _ r. r ≡ refusal.Memory };

    fn from(_: MemoryFull) -> Self {
        Refusal::Memory
    }
}

impl From<SharesFault> for Refusal {
    ghost from_gives = { λ why r. r ≡ of_shares why };

    fn from(fault: SharesFault) -> Self {
        match fault {
            SharesFault::Memory => Refusal::Memory,
            SharesFault::Unknown(partition) => Refusal::Foreign(partition),
        }
    }
}

impl WantOfMemory for Refusal {
    ghost memory = { refusal.Memory };

    fn want_of_memory() -> Self {
        Refusal::Memory
    }
}
