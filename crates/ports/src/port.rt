//! One port, with its messages.

ghost use Rattle.std.specs.Prelude.{◌≡◌, ◌<◌, ◌≤◌, ◌^◌, [], length, nat_le, pos, slice_get, IfOk, IsNone, if◌then◌else◌, true};
ghost use Rattle.apex_types.specs.Limits.{MOST_TICKS};
ghost use Rattle.kernel_meaning.specs.Objects as meaning;
ghost use Rattle.kernel_meaning.specs.PortServices as services;
ghost use Rattle.ports.specs.Status.{port_status, without_first};

use apex_types::{Discipline, Moment, PortDirection, PortKind, PortRow, Ticks, Words, copied};
use circular_buffer::HeapCircularBuffer;
use std::alloc::{AllocError, Global};
use std::marker::Model;
use sync_objects_base::append;

/// A port, with memory for its messages. A contract sees it as the port of the definitions.
#[derive(Drop)]
pub struct Port {
    row: PortRow,
    created: bool,
    messages: HeapCircularBuffer<Words>,
    arrival: Ticks,
    valid: bool,
    overflowed: bool,
}

impl Model for Port {
    ghost use Rattle.kernel_meaning.specs.Objects as meaning;

    ghost Value = { meaning.Port };

    ghost use Rattle.ports.specs.View.{port_of, HasRing};

    ghost view = { port_of };

    ghost invariant = { HasRing };
}

/// The status of a port, without its messages.
#[derive(Clone, Copy)]
pub struct PortStatus {
    pub row: PortRow,
    pub created: bool,
    /// How many messages it holds.
    pub messages: u8,
    /// Whether the last message read was valid.
    pub valid: bool,
}

/// The number of messages that a port of this kind has room for.
fn depth_of(kind: PortKind) -> u8
    ensures { result ≡ meaning.depth_of kind }
{
    match kind {
        PortKind::Sampling { .. } => 1,
        PortKind::Queuing { depth, .. } => depth,
    }
}

/// For how many ticks after its arrival a message is valid.
fn refresh_of(kind: PortKind) -> u64
    ensures { result ≡ meaning.refresh_of kind }
{
    match kind {
        PortKind::Sampling { refresh } => refresh,
        PortKind::Queuing { .. } => 0,
    }
}

/// The order of the waiting processes.
fn discipline_of(kind: PortKind) -> Discipline
    ensures { result ≡ meaning.discipline_of kind }
{
    match kind {
        PortKind::Sampling { .. } => Discipline::Fifo,
        PortKind::Queuing { discipline, .. } => discipline,
    }
}

fn is_sampling_kind(kind: PortKind) -> bool
    ensures { result ≡ meaning.is_sampling_kind kind }
{
    match kind {
        PortKind::Sampling { .. } => true,
        PortKind::Queuing { .. } => false,
    }
}

fn is_source_direction(direction: PortDirection) -> bool
    ensures { result ≡ meaning.is_source_direction direction }
{
    match direction {
        PortDirection::Source => true,
        PortDirection::Destination => false,
    }
}

/// Invalid 0, valid 1.
pub(crate) fn validity_number(valid: bool) -> i64
    ensures { result ≡ pos (services.validity_number valid) }
{
    match valid {
        false => 0,
        true => 1,
    }
}

impl PortStatus {
    /// Whether it is a sampling port.
    pub(crate) fn is_sampling(&self) -> bool
        ensures { result ≡ meaning.is_sampling_kind self.now.row.kind }
    {
        is_sampling_kind(self.row.kind)
    }

    /// Whether it is a source.
    pub(crate) fn is_source(&self) -> bool
        ensures { result ≡ meaning.is_source_direction self.now.row.direction }
    {
        is_source_direction(self.row.direction)
    }

    /// Source 0, destination 1.
    pub(crate) fn direction_number(&self) -> i64
        ensures { result
            ≡ pos (if meaning.is_source_direction self.now.row.direction then 0 else 1) }
    {
        if self.is_source() { 0 } else { 1 }
    }

    /// Whether there is no room for another message.
    pub(crate) fn is_full(&self) -> bool
        ensures { result ≡ nat_le (meaning.depth_of self.now.row.kind) self.now.messages }
    {
        depth_of(self.row.kind) <= self.messages
    }

    /// The number of messages that it has room for.
    pub(crate) fn depth(&self) -> u8
        ensures { result ≡ meaning.depth_of self.now.row.kind }
    {
        depth_of(self.row.kind)
    }

    /// Its refresh period in ticks.
    pub(crate) fn refresh(&self) -> u64
        ensures { result ≡ meaning.refresh_of self.now.row.kind }
    {
        refresh_of(self.row.kind)
    }

    /// The order of the waiting processes.
    pub(crate) fn discipline(&self) -> Discipline
        ensures { result ≡ meaning.discipline_of self.now.row.kind }
    {
        discipline_of(self.row.kind)
    }
}

impl Port {
    /// A port before it is created, with memory for its messages.
    pub(crate) fn fresh(alloc: Global, row: PortRow) -> Result<Port, AllocError>
        requires { meaning.refresh_of row.kind ≤ MOST_TICKS }
        ensures { IfOk result (λ port. port ≡ meaning.fresh_port row) }
    {
        let messages = HeapCircularBuffer::with_capacity(alloc, usize::from(depth_of(row.kind)))?;
        Ok(Port {
            row,
            created: false,
            messages,
            arrival: Ticks(0),
            valid: false,
            overflowed: false,
        })
    }

    /// Resets the port: it is not created, and holds no message.
    pub(crate) fn clear(&mut self)
        ensures { self.new ≡ meaning.cleared_port self.old }
    {
        self.created = false;
        self.messages.clear();
        self.arrival = Ticks(0);
        self.valid = false;
        self.overflowed = false;
    }

    /// Creates the port.
    pub(crate) fn create(&mut self)
        ensures { self.new ≡ record self.old { created = true } }
    {
        self.created = true;
    }

    /// Replaces the message of the port.
    pub(crate) fn put_sample(&mut self, message: &Words)
        requires { 1 ≤ meaning.depth_of self.old.row.kind }
        ensures { self.new ≡ meaning.with_sample self.old message.now }
    {
        self.messages.clear();
        append(&mut self.messages, message);
    }

    /// Sets the tick in which its message arrived.
    pub(crate) fn set_arrival(&mut self, arrival: Ticks)
        ensures { self.new ≡ record self.old { arrival = arrival } }
    {
        self.arrival = arrival;
    }

    /// Records whether the last message read was valid.
    pub(crate) fn set_valid(&mut self, valid: bool)
        ensures { self.new ≡ record self.old { valid = valid } }
    {
        self.valid = valid;
    }

    /// Records whether a message was lost.
    pub(crate) fn set_overflowed(&mut self, overflowed: bool)
        ensures { self.new ≡ record self.old { overflowed = overflowed } }
    {
        self.overflowed = overflowed;
    }

    /// The tick in which its message arrived.
    pub fn arrival(&self) -> Ticks
        ensures { result ≡ self.now.arrival }
    {
        self.arrival
    }

    /// Whether a message was lost since the last receive.
    pub fn overflowed(&self) -> bool
        ensures { result ≡ self.now.overflowed }
    {
        self.overflowed
    }

    /// Appends a message.
    pub(crate) fn push(&mut self, message: &Words)
        requires { length self.old.messages < meaning.depth_of self.old.row.kind }
        ensures { self.new ≡ meaning.with_message self.old message.now }
    {
        append(&mut self.messages, message);
    }

    /// Takes the first message.
    pub(crate) fn pop(&mut self) -> Option<Words>
        ensures first { result ≡ slice_get self.old.messages 0 }
        ensures rest { self.new ≡ without_first self.old }
        ensures empty { IsNone result → self.new ≡ self.old }
    {
        self.messages.pop_front()
    }

    /// A copy of the first message.
    pub(crate) fn first(&self) -> Option<Words>
        ensures { result ≡ slice_get self.now.messages 0 }
    {
        match self.messages.front() {
            Some(message) => Some(copied(message)),
            None => None,
        }
    }

    /// A copy of the message that has `before` messages before it.
    pub fn message_behind(&self, before: u8) -> Option<Words>
        ensures { result ≡ slice_get self.now.messages before }
    {
        match self.messages.get(usize::from(before)) {
            Some(message) => Some(copied(message)),
            None => None,
        }
    }

    /// Whether its message arrived at most its refresh period ago.
    pub(crate) fn is_valid(&self, moment: Moment) -> bool
        ensures { result ≡ services.is_valid moment.at self.now }
    {
        moment.at.now.0.saturating_sub(self.arrival.0) <= refresh_of(self.row.kind)
    }

    /// Removes its messages.
    pub(crate) fn empty(&mut self)
        ensures { self.new ≡ record self.old { messages = [] } }
    {
        self.messages.clear();
    }

    /// Its status.
    pub fn status(&self) -> PortStatus
        ensures status { result ≡ port_status self.now }
        ensures short { meaning.refresh_of result.row.kind ≤ MOST_TICKS }
    {
        let messages = self.messages.len();
        prove!(messages <= usize::from(depth_of(self.row.kind)));
        PortStatus {
            row: self.row,
            created: self.created,
            messages: messages as u8,
            valid: self.valid,
        }
    }
}
