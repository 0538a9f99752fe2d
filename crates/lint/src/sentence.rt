//! Findings as sentences.

ghost use Rattle.std.specs.Prelude.{◌≡◌};
ghost use Rattle.lint.specs.Sentences.{advice, opening};

use crate::finding::FindingKind;

impl FindingKind {
    /// What is said in front of the name that a finding is about.
    pub fn opening(self) -> &'static str
        ensures { result.now ≡ opening self }
    {
        match self {
            FindingKind::UnknownPort => "the table has no port ",
            FindingKind::FitsAnother => "the ports fit another partition better: ",
            FindingKind::UndeclaredPort => "the table has a port that is not declared: ",
            FindingKind::WrongKind => "the service is for ports of the other kind than ",
            FindingKind::WrongDirection => "the service is for ports of the other direction than ",
            FindingKind::SmallArray => "messages may be longer than the array ",
            FindingKind::LongLength => "the length is above the words of a message: ",
            FindingKind::UnsetNumber => "nothing sets the variable ",
            FindingKind::BadIndex => "the index is beyond the array ",
            FindingKind::DivisionByZero => "the divisor is 0",
            FindingKind::EndlessLoop => "the loop has no end, and nothing in it waits",
            FindingKind::EndlessRecursion => "no call ends the recursion of ",
            FindingKind::NeverCreated => "nothing creates ",
            FindingKind::HandlerNeverCreated => "nothing creates the handler",
            FindingKind::NeverStarted => "nothing starts ",
            FindingKind::NeverSignalled => "nothing signals or sets ",
            FindingKind::NeverNormal => "INIT does not enter NORMAL",
            FindingKind::NoPeriodicWait => "nothing waits for the next release of ",
            FindingKind::LongCapacity => "the time capacity is above the period of ",
            FindingKind::NoErrorStatus => "the handler takes no error",
            FindingKind::WaitInInit => "INIT calls a service that waits: ",
            FindingKind::WaitWhileLocked => "preemption is locked at a service that waits: ",
            FindingKind::UnusedVariable => "no statement names the variable ",
            FindingKind::UnusedProcedure => "no statement calls the procedure ",
            FindingKind::UnusedParameter => "no statement names the parameter ",
            FindingKind::UnconnectedPort => "no channel leads to the port ",
            FindingKind::ShortRefresh => "the refresh is below the period of the sender: ",
            FindingKind::AboveCapacity => "the time capacity is below the cost of ",
            FindingKind::SmallStack => "the stack is too small for the calls in ",
        }
    }

    /// What to do about it.
    pub fn advice(self) -> &'static str
        ensures { result.now ≡ advice self }
    {
        match self {
            FindingKind::UnknownPort => "add it to the partition, or take the declaration out",
            FindingKind::FitsAnother =>
                "give the sources in the order of the partitions in the table",
            FindingKind::UndeclaredPort => "declare it, or take it out of the table",
            FindingKind::WrongKind => "call the service for its kind",
            FindingKind::WrongDirection => "send to a source port, receive from a destination port",
            FindingKind::SmallArray => "give it as many words as the messages have",
            FindingKind::LongLength => "send no more words than a message has",
            FindingKind::UnsetNumber =>
                "let the service that creates or finds the thing store its number there",
            FindingKind::BadIndex => "the indices of an array of n words are 0 to n - 1",
            FindingKind::DivisionByZero =>
                "a division by 0 is a NUMERIC_ERROR; divide by another number",
            FindingKind::EndlessLoop => "call a service that waits in each round",
            FindingKind::EndlessRecursion =>
                "return before it calls itself, after a test that comes true",
            FindingKind::NeverCreated => "create it in INIT, or take the declaration out",
            FindingKind::HandlerNeverCreated => "call CREATE_ERROR_HANDLER in INIT",
            FindingKind::NeverStarted => "start it in INIT, or take it out",
            FindingKind::NeverSignalled =>
                "call SIGNAL_SEMAPHORE or SET_EVENT, or take the waits out",
            FindingKind::NeverNormal => "call SET_PARTITION_MODE(3) at the end of INIT",
            FindingKind::NoPeriodicWait => "call PERIODIC_WAIT at the end of each round",
            FindingKind::LongCapacity =>
                "a deadline after the next release is no deadline; lower the time capacity",
            FindingKind::NoErrorStatus =>
                "call GET_ERROR_STATUS in the handler until no error is left",
            FindingKind::WaitInInit => "leave the wait to a process, or give the time-out 0",
            FindingKind::WaitWhileLocked =>
                "call UNLOCK_PREEMPTION before it, or give the time-out 0",
            FindingKind::UnusedVariable => "take it out",
            FindingKind::UnusedProcedure => "take it out",
            FindingKind::UnusedParameter => "take it out, and the arguments of its calls",
            FindingKind::UnconnectedPort => "add it to a channel, or take it out",
            FindingKind::ShortRefresh =>
                "each message is stale before the next one comes; raise the refresh",
            FindingKind::AboveCapacity => "raise the time capacity, or let the body do less",
            FindingKind::SmallStack => "raise it, or call less deeply",
        }
    }
}
