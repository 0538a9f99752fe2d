//! The parts of a trace.

ghost use Rattle.std.specs.Prelude.{◌≡◌, ◌≤◌, length};
ghost use Rattle.apex_types.specs.Output.{event_of, words_of};
ghost use Rattle.apex_types.specs.Limits.{MOST_WORDS};

use crate::codes::{ErrorKind, Mode, ProcessState, Response, ReturnCode};
use crate::identity::Ticks;
use crate::limits::{MOST_EVENTS, MOST_WORDS};
use crate::name::Name;
use crate::service::Service;
use arrayvec::ArrayVec;

/// The words of one message.
pub type Words = ArrayVec<i64, MOST_WORDS>;

/// The events of one phase, in order.
pub type Events = ArrayVec<Event, MOST_EVENTS>;

/// The subject of an event of a process.
#[derive(Clone, Copy)]
pub enum Subject {
    /// The initialisation of the partition.
    Init,
    /// The partition's error handler.
    Handler,
    Process(Name),
}

/// What happened.
#[derive(Drop)]
pub enum EventKind {
    /// A process changed its state.
    State(Subject, ProcessState),
    /// A service ended, with this code.
    Return(Subject, Service, ReturnCode),
    /// The partition entered a mode.
    Mode(Mode),
    /// An error, its subject (none for a device fault), and the response.
    Error(ErrorKind, Option<Subject>, Response),
    /// An application message.
    Report(Subject, Words),
    /// A message left a source port.
    Move(Name, Words),
    /// A message reached a destination port.
    Arrive(Name, Words),
    /// A message found its destination port full.
    Lost(Name, Words),
    /// A message left the module by a channel.
    Out(Name, Words),
}

/// What a line says, without the words of its message.
#[derive(Clone, Copy)]
pub enum LineKind {
    State(Subject, ProcessState),
    Return(Subject, Service, ReturnCode),
    Mode(Mode),
    Error(ErrorKind, Option<Subject>, Response),
    Report(Subject),
    Move(Name),
    Arrive(Name),
    Lost(Name),
    Out(Name),
}

/// A copy of the message.
pub fn copied(message: &Words) -> Words
    ensures { result ≡ message.now }
{
    let mut copy = Words::new();
    copy.try_extend_from_slice(message.as_slice()).unwrap();
    copy
}

/// Replaces the words of a message. Writes exactly the words that the message gets.
pub fn refill(message: &mut Words, words: &Words)
    ensures { message.new ≡ words.now }
{
    message.clear();
    message.try_extend_from_slice(words.as_slice()).unwrap();
}

/// A message of these words.
pub fn message_of(words: &[i64]) -> Words
    requires { length words.now ≤ MOST_WORDS }
    ensures { result.items ≡ words.now }
{
    let mut message = Words::new();
    message.try_extend_from_slice(words).unwrap();
    message
}

impl LineKind {
    /// The event of a line whose message has these words.
    pub fn with_words(&self, words: &[i64]) -> EventKind
        requires { length words.now ≤ MOST_WORDS }
        ensures { result ≡ event_of self.now words.now }
    {
        match *self {
            LineKind::State(who, state) => EventKind::State(who, state),
            LineKind::Return(who, service, code) => EventKind::Return(who, service, code),
            LineKind::Mode(mode) => EventKind::Mode(mode),
            LineKind::Error(error, who, response) => EventKind::Error(error, who, response),
            LineKind::Report(who) => EventKind::Report(who, message_of(words)),
            LineKind::Move(port) => EventKind::Move(port, message_of(words)),
            LineKind::Arrive(port) => EventKind::Arrive(port, message_of(words)),
            LineKind::Lost(port) => EventKind::Lost(port, message_of(words)),
            LineKind::Out(channel) => EventKind::Out(channel, message_of(words)),
        }
    }
}

impl EventKind {
    /// The line of the event, without the words of its message.
    pub fn line(&self) -> LineKind
        ensures { event_of result (words_of self.now) ≡ self.now }
    {
        match *self {
            EventKind::State(who, state) => LineKind::State(who, state),
            EventKind::Return(who, service, code) => LineKind::Return(who, service, code),
            EventKind::Mode(mode) => LineKind::Mode(mode),
            EventKind::Error(error, who, response) => LineKind::Error(error, who, response),
            EventKind::Report(who, _) => LineKind::Report(who),
            EventKind::Move(port, _) => LineKind::Move(port),
            EventKind::Arrive(port, _) => LineKind::Arrive(port),
            EventKind::Lost(port, _) => LineKind::Lost(port),
            EventKind::Out(channel, _) => LineKind::Out(channel),
        }
    }

    /// The words of its message; none if it has no message.
    pub fn words(&self) -> &[i64]
        ensures words { result.now ≡ words_of self.now }
        ensures few { length result.now ≤ MOST_WORDS }
    {
        match self {
            EventKind::Report(_, words)
            | EventKind::Move(_, words)
            | EventKind::Arrive(_, words)
            | EventKind::Lost(_, words)
            | EventKind::Out(_, words) => words.as_slice(),
            _ => &[],
        }
    }
}

/// One line of a trace: its tick, its partition (none for the module itself), and the event.
#[derive(Drop)]
pub struct Event {
    pub tick: Ticks,
    pub partition: Option<Name>,
    pub kind: EventKind,
}

impl Default for EventKind {
    fn default() -> EventKind {
        EventKind::Mode(Mode::Idle)
    }
}

impl Default for Event {
    fn default() -> Event {
        Event {
            tick: Ticks(0),
            partition: None,
            kind: EventKind::default(),
        }
    }
}
