//! The contents of a picture.

use apex_types::{ErrorKind, Name, Response, Subject, Ticks, Words};
use trace_stays::{ModeStay, Stay};

/// The most bars, arrows, flags and marks of a picture.
pub const MOST_SHAPES: usize = 5_000;

/// The start or the end of the way of a message.
#[derive(Clone, Copy)]
pub enum Stop {
    /// Outside the module, which it comes from.
    Device,
    /// Outside the module, which it leaves by this channel.
    Channel(Name),
    /// A port of the partition at this place.
    Port(usize, Name),
}

/// The beginning of the way of the message that moved last.
#[derive(Clone, Copy)]
pub struct Way {
    pub tick: Ticks,
    pub from: Stop,
    /// The number of messages of this tick before it.
    pub beside: u64,
}

/// A message that moved.
#[derive(Drop)]
pub struct Message {
    pub tick: Ticks,
    /// The number of messages of this tick before it.
    pub beside: u64,
    pub from: Stop,
    pub to: Stop,
    pub lost: bool,
    pub words: Words,
}

/// The row of a flag or a mark.
#[derive(Clone, Copy, PartialEq, Eq)]
pub enum Owner {
    /// The module itself.
    Module,
    /// The partition at this place.
    Partition(usize),
    /// The process at this place.
    Process(usize),
}

/// An error, and how it is handled.
#[derive(Drop)]
pub struct Flag {
    pub tick: Ticks,
    pub owner: Owner,
    pub error: ErrorKind,
    pub who: Option<Subject>,
    pub response: Response,
}

/// An application message.
#[derive(Drop)]
pub struct Report {
    pub tick: Ticks,
    pub process: usize,
    pub words: Words,
}

/// A bar, an arrow, a flag or a mark.
#[derive(Drop)]
pub enum Shape {
    /// The partition at this place is in a mode.
    Mode(usize, ModeStay),
    /// The process at this place is in a state.
    State(usize, Stay),
    Message(Message),
    Flag(Flag),
    Report(Report),
}
