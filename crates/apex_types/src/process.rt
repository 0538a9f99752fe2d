//! The kernel's record of a process, and its actions on the processor that runs one.

use crate::codes::{Discipline, ErrorKind, ProcessState};
use crate::event::{Subject, Words};
use crate::identity::{ListKey, Priority, ProcessIndex, Runner, Ticks};
use crate::service::{ArrayPlace, Service};

/// What a waiting process waits for.
#[derive(Clone, Copy)]
pub enum Wait {
    /// It does not wait; if it is in the state WAITING, it is suspended.
    Nothing,
    /// It was started before normal mode, and starts there with this delay.
    NormalStart(Ticks),
    /// It is started, and its due time is its first release.
    FirstRelease,
    /// A service on time or a suspension, which ends at its due time or earlier.
    Service(Service),
    /// A service on an object or a port: it is in the waiting list of that object, and a receiver has
    /// this array.
    Object {
        service: Service,
        array: Option<ArrayPlace>,
    },
}

/// Where and how a process is to wait at an object or a port.
#[derive(Clone, Copy)]
pub struct Waiting {
    pub service: Service,
    /// The waiting list of the object.
    pub list: ListKey,
    pub discipline: Discipline,
    /// The array of a receiver.
    pub array: Option<ArrayPlace>,
}

/// What happens at the due time of a process.
#[derive(Clone, Copy)]
pub enum Due {
    /// A release point: its deadline counts from here.
    Release(Ticks),
    /// The end of a delay.
    Delay(Ticks),
    /// The end of a wait in vain.
    TimeOut(Ticks),
}

/// The kernel's record of INIT, of the error handler or of a process.
#[derive(Clone, Copy)]
pub struct ProcessStatus {
    pub who: Subject,
    pub base_priority: Priority,
    /// Ticks from one release to the next; `None` for an aperiodic process.
    pub period: Option<Ticks>,
    /// Ticks from a release to its deadline; `None` for no limit.
    pub capacity: Option<Ticks>,
    pub created: bool,
    pub state: ProcessState,
    pub current_priority: Priority,
    pub suspended: bool,
    pub wait: Wait,
    pub due: Option<Due>,
    /// The last release point.
    pub release: Ticks,
    pub deadline: Option<Ticks>,
}

/// A process in a list of ready or waiting processes, with its priority when it joined the list.
#[derive(Clone, Copy, Default)]
pub struct Entry {
    pub process: ProcessIndex,
    pub priority: Priority,
}

/// The preemption lock of a partition.
#[derive(Clone, Copy, PartialEq, Eq)]
pub enum Lock {
    /// Its level is 0, and no process holds it.
    Free,
    /// Its level is above 0.
    Held { level: u8, holder: ProcessIndex },
}

/// An error that waits for the error handler: its kind, its process, and the message of an error
/// that the process raised.
#[derive(Drop)]
pub struct WaitingError {
    pub kind: ErrorKind,
    pub process: ProcessIndex,
    pub words: Words,
}

/// An action of a step of the kernel, on the processor, on the partition's data or on its error
/// queue, without the words of its reply or message.
#[derive(Clone, Copy)]
pub enum ActionKind {
    /// The process begins its body afresh.
    Begin(Runner),
    /// The process has nothing left to do.
    Stop(Runner),
    /// No process has anything left to do.
    StopAll,
    /// The reply to a service call, whose words are the code, then the outputs.
    Reply(Runner),
    /// The data becomes the initial data.
    Restore,
    /// The words go into the data, from this place on.
    Write(i64),
    /// The error of a process waits for the error handler, with these words.
    Queue(ErrorKind, ProcessIndex),
}
