//! Why a command was refused.

ghost use Rattle.std.specs.Prelude.{◌≡◌, Some};
ghost use Rattle.command_line.specs.Lines.{line_of, rule_of};
ghost use Rattle.command_line.specs.Refusals.{refusal_of_both};
ghost use Rattle.command_line.specs.Told.{of_file};
ghost use Rattle.command_line.specs.declared.refusal.Refusal.TheVariants as refusal;

use apex_types::SinkFault;
use command_words::WantOfMemory;
use module::{BuildAndRunFault, BuildFault, InputsFault, RunFault};
use std::alloc::{AllocError, AllocFailed};
use std::fmt;
use streams::{NameFault, Reason};

/// A refused command. Displays as its line on standard error.
#[derive(Drop)]
pub enum Refusal {
    Build(BuildFault),
    Run(RunFault),
    /// A replay is refused. Its text has other rules.
    Replay(RunFault),
    Inputs(InputsFault),
    /// The file of that name was not read or not written, for that reason.
    File(String, Reason),
    /// The file of that name is longer than a table that is read.
    LongTable(String),
    Memory,
    /// Standard output took no more bytes.
    Write,
}

impl Refusal {
    /// The refusal if the file of that name was not read or not written.
    pub fn of_file(name: String, fault: NameFault) -> Refusal
        ensures { result ≡ of_file name fault }
    {
        match fault {
            NameFault::Unavailable(reason) => Refusal::File(name, reason),
            NameFault::Memory => Refusal::Memory,
        }
    }
}

/// What the line of a refusal says after the program's name.
#[derive(Clone, Copy)]
pub struct Rule<'a> {
    pub refusal: &'a Refusal,
}

impl<'a> fmt::Display for Rule<'a> {
    ghost output = { λ rule. Some (rule_of rule.refusal.now) };

    fn fmt<W: fmt::Write>(&self, f: &mut fmt::Formatter<W>) -> fmt::Result {
        match self.refusal {
            Refusal::Build(fault) => write!(f, "{fault}"),
            Refusal::Run(fault) | Refusal::Replay(fault) => write!(f, "{fault}"),
            Refusal::Inputs(fault) => write!(f, "{fault}"),
            Refusal::File(name, _) | Refusal::LongTable(name) => write!(f, "file {name}"),
            Refusal::Memory => write!(f, "memory"),
            Refusal::Write => write!(f, "write"),
        }
    }
}

impl fmt::Display for Refusal {
    ghost output = { λ refusal. Some (line_of refusal) };

    fn fmt<W: fmt::Write>(&self, f: &mut fmt::Formatter<W>) -> fmt::Result {
        let rule = Rule { refusal: self };
        write!(f, "mb: {rule}")
    }
}

impl From<AllocError> for Refusal {
    ghost from_gives = { λ _ r. r ≡ refusal.Memory };

    fn from(_: AllocError) -> Self {
        Refusal::Memory
    }
}

impl<T: Drop> From<AllocFailed<T>> for Refusal {
    ghost from_gives = { λ _ r. r ≡ refusal.Memory };

    fn from(_: AllocFailed<T>) -> Self {
        Refusal::Memory
    }
}

impl From<BuildFault> for Refusal {
    ghost from_gives = { λ fault r. r ≡ refusal.Build fault };

    fn from(fault: BuildFault) -> Self {
        Refusal::Build(fault)
    }
}

impl From<RunFault> for Refusal {
    ghost from_gives = { λ fault r. r ≡ refusal.Run fault };

    fn from(fault: RunFault) -> Self {
        Refusal::Run(fault)
    }
}

impl From<InputsFault> for Refusal {
    ghost from_gives = { λ fault r. r ≡ refusal.Inputs fault };

    fn from(fault: InputsFault) -> Self {
        Refusal::Inputs(fault)
    }
}

impl From<BuildAndRunFault> for Refusal {
    ghost from_gives = { λ fault r. r ≡ refusal_of_both fault };

    fn from(fault: BuildAndRunFault) -> Self {
        match fault {
            BuildAndRunFault::Build(fault) => Refusal::Build(fault),
            BuildAndRunFault::Run(fault) => Refusal::Run(fault),
        }
    }
}

impl From<SinkFault> for Refusal {
    ghost from_gives = { λ _ r. r ≡ refusal.Write };

    fn from(_: SinkFault) -> Self {
        Refusal::Write
    }
}

impl WantOfMemory for Refusal {
    ghost memory = { refusal.Memory };

    fn want_of_memory() -> Self {
        Refusal::Memory
    }
}
