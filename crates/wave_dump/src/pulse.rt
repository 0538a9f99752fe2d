//! The events of a single tick: messages, reports and errors.

use apex_types::{ErrorKind, EventKind, Name, Subject};
use std::fmt::{self, Display, Formatter, Write};
use trace_stays::{is_same_subject, subject_word};

/// The event that a pulse shows.
#[derive(Clone, Copy)]
pub enum Pulse {
    /// A message left this source port.
    Move(Name),
    /// A message reached this destination port.
    Arrive(Name),
    /// A message found this destination port full.
    Lost(Name),
    /// A message left the module by this channel.
    Out(Name),
    /// An application message of this process.
    Report(Subject),
    /// An error of this kind.
    Error(ErrorKind),
}

/// The groups in which viewers list pulses, in the order in which a dump lists them.
#[derive(Clone, Copy, PartialEq, Eq)]
pub enum Group {
    Messages,
    Reports,
    Errors,
}

impl Group {
    /// The name of the group's scope. Names of a trace have lower-case letters, so none is like it.
    pub fn word(self) -> &'static str {
        match self {
            Group::Messages => "MESSAGES",
            Group::Reports => "REPORTS",
            Group::Errors => "ERRORS",
        }
    }
}

/// The pulses of one kind, of one partition or, without one, of the module.
#[derive(Clone, Copy)]
pub struct PulseLane {
    pub partition: Option<usize>,
    pub pulse: Pulse,
}

impl PulseLane {
    /// Returns true if these are pulses of this group and of this partition or, without one, of the
    /// module.
    pub fn is_in(&self, group: Group, owner: Option<usize>) -> bool {
        self.partition == owner && self.pulse.group() == group
    }
}

impl Pulse {
    /// The pulse of an event; none for a state, a mode and the end of a service.
    pub fn of(kind: &EventKind) -> Option<Pulse> {
        match kind {
            EventKind::Move(port, _) => Some(Pulse::Move(*port)),
            EventKind::Arrive(port, _) => Some(Pulse::Arrive(*port)),
            EventKind::Lost(port, _) => Some(Pulse::Lost(*port)),
            EventKind::Out(channel, _) => Some(Pulse::Out(*channel)),
            EventKind::Report(who, _) => Some(Pulse::Report(*who)),
            EventKind::Error(error, _, _) => Some(Pulse::Error(*error)),
            EventKind::State(_, _) | EventKind::Return(_, _, _) | EventKind::Mode(_) => None,
        }
    }

    /// The group to which this pulse belongs.
    pub fn group(&self) -> Group {
        match self {
            Pulse::Move(_) | Pulse::Arrive(_) | Pulse::Lost(_) | Pulse::Out(_) => Group::Messages,
            Pulse::Report(_) => Group::Reports,
            Pulse::Error(_) => Group::Errors,
        }
    }
}

/// Returns true if both are pulses of one kind, port, channel or process.
pub fn is_same_pulse(one: &Pulse, other: &Pulse) -> bool {
    match (one, other) {
        (Pulse::Move(one), Pulse::Move(other))
        | (Pulse::Arrive(one), Pulse::Arrive(other))
        | (Pulse::Lost(one), Pulse::Lost(other))
        | (Pulse::Out(one), Pulse::Out(other)) => one.as_bytes() == other.as_bytes(),
        (Pulse::Report(one), Pulse::Report(other)) => is_same_subject(one, other),
        (Pulse::Error(one), Pulse::Error(other)) => *one == *other,
        _ => false,
    }
}

/// The name of the variable within its group.
impl Display for Pulse {
    fn fmt<W: Write>(&self, f: &mut Formatter<W>) -> fmt::Result {
        match self {
            Pulse::Move(port) => write!(f, "{}_MOVE", port.as_str()),
            Pulse::Arrive(port) => write!(f, "{}_ARRIVE", port.as_str()),
            Pulse::Lost(port) => write!(f, "{}_LOST", port.as_str()),
            Pulse::Out(channel) => write!(f, "{}_OUT", channel.as_str()),
            Pulse::Report(who) => f.write_str(subject_word(who)),
            Pulse::Error(error) => f.write_str(error.word()),
        }
    }
}
