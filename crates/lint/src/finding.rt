//! Findings.

ghost use Rattle.std.specs.Prelude.{◌≡◌, ◌++◌, OnOk};
ghost use Rattle.lint.specs.Views.{found_all, found_of, if_so, unless};

use std::alloc::AllocError;

/// What is probably not meant.
#[derive(Clone, Copy, PartialEq, Eq)]
pub enum FindingKind {
    /// A port is declared that the partition's row has not.
    UnknownPort,
    /// The row of the named partition lacks fewer of the declared ports than the partition's own.
    FitsAnother,
    /// The row has a port that the source does not declare.
    UndeclaredPort,
    /// A call on a port is for ports of the other kind.
    WrongKind,
    /// A call on a port is for ports of the other direction.
    WrongDirection,
    /// A service stores messages in an array that is smaller than they may be.
    SmallArray,
    /// The length of a message that a service sends is written, and above the words of a message.
    LongLength,
    /// A service takes a variable for the number of something, and nothing writes it.
    UnsetNumber,
    /// An index is written that is beyond its array.
    BadIndex,
    /// The divisor is written as 0.
    DivisionByZero,
    /// A loop has no end, and nothing in it waits.
    EndlessLoop,
    /// A procedure calls itself, and nothing ends that.
    EndlessRecursion,
    /// No call creates what is declared.
    NeverCreated,
    /// No call creates the handler.
    HandlerNeverCreated,
    /// No call may start the process.
    NeverStarted,
    /// A call waits for a semaphore or an event, and no call may signal or set it.
    NeverSignalled,
    /// No call in INIT or in a procedure may enter NORMAL.
    NeverNormal,
    /// A periodic process has no call of PERIODIC_WAIT, nor has a procedure.
    NoPeriodicWait,
    /// The time capacity of a process is above its period.
    LongCapacity,
    /// The handler has no call of GET_ERROR_STATUS, nor has a procedure.
    NoErrorStatus,
    /// INIT calls a service that waits.
    WaitInInit,
    /// A service waits while preemption is locked.
    WaitWhileLocked,
    /// No statement names a variable or an array; or a local, in its body.
    UnusedVariable,
    /// No statement names a procedure.
    UnusedProcedure,
    /// No statement of its body names a parameter.
    UnusedParameter,
    /// No channel leads to a destination port.
    UnconnectedPort,
    /// A message is valid for less than the period of the partition that sends it.
    ShortRefresh,
    /// The body of a process costs more than its time capacity, each construct counted once.
    AboveCapacity,
    /// A chain of calls takes more words than the stack has.
    SmallStack,
}

/// A finding: its line in the source, from 1, or 0 if it is about the row of the table; what is
/// probably not meant; and the name that it is about, which is empty for INIT and the handler.
#[derive(Clone, Copy)]
pub struct Finding<'a> {
    pub line: u32,
    pub kind: FindingKind,
    pub subject: &'a str,
}

/// Adds a finding if something is so.
pub fn add_if<'a>(
    so: bool,
    finding: Finding<'a>,
    findings: &mut Vec<Finding<'a>>,
) -> Result<(), AllocError>
    ensures { OnOk result
        (found_all findings.new.items
        ≡ found_all findings.old.items ++ if_so so (found_of finding.entry)) }
{
    if !so {
        return Ok(());
    }
    findings.push(finding)?;
    Ok(())
}

/// Adds a finding unless something is so.
pub fn add_unless<'a>(
    so: bool,
    finding: Finding<'a>,
    findings: &mut Vec<Finding<'a>>,
) -> Result<(), AllocError>
    ensures { OnOk result
        (found_all findings.new.items
        ≡ found_all findings.old.items ++ unless so (found_of finding.entry)) }
{
    if so {
        return Ok(());
    }
    findings.push(finding)?;
    Ok(())
}
