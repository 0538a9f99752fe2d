//! The rows of the module table and of an image: what is fixed before a run.

use crate::codes::{Discipline, PartitionAction};
use crate::identity::{PartitionId, PortId, Priority};
use crate::name::Name;

/// The actions that a partition's health table sets for the errors at partition level.
#[derive(Clone, Copy)]
pub struct HealthTable {
    pub deadline_missed: PartitionAction,
    pub application_error: PartitionAction,
    pub numeric_error: PartitionAction,
    pub illegal_request: PartitionAction,
    pub stack_overflow: PartitionAction,
    pub memory_violation: PartitionAction,
    pub hardware_fault: PartitionAction,
}

#[derive(Clone, Copy, PartialEq, Eq)]
pub enum PortDirection {
    Source = 0,
    Destination = 1,
}

/// The kind of a port, with the fields that only this kind has.
#[derive(Clone, Copy)]
pub enum PortKind {
    /// A message that is read is valid for this many ticks after its arrival.
    Sampling { refresh: u64 },
    /// Room for this many messages, and the order of the waiting processes.
    Queuing { depth: u8, discipline: Discipline },
}

/// A port of a partition: messages of at most `words` words.
#[derive(Clone, Copy)]
pub struct PortRow {
    pub name: Name,
    pub kind: PortKind,
    pub direction: PortDirection,
    pub words: u8,
}

/// A window of the major frame: the partition runs from `offset` on for `length` ticks. A periodic
/// process that was started is first released at the start of a window marked release; its later
/// releases follow a period apart.
#[derive(Clone, Copy)]
pub struct WindowRow {
    pub partition: PartitionId,
    pub offset: u32,
    pub length: u32,
    pub release: bool,
}

/// One end of a channel.
#[derive(Clone, Copy)]
pub enum ChannelEnd {
    Device,
    Port(PartitionId, PortId),
}

#[derive(Clone, Copy)]
pub struct SemaphoreRow {
    pub value: u32,
    pub maximum: u32,
    pub discipline: Discipline,
}

#[derive(Clone, Copy)]
pub struct BufferRow {
    pub words: u8,
    pub depth: u8,
    pub discipline: Discipline,
}

#[derive(Clone, Copy)]
pub struct BlackboardRow {
    pub words: u8,
}

/// A procedure in the code: its first instruction, its parameters, its slots (parameters and
/// locals) and the words of stack that it needs.
#[derive(Clone, Copy)]
pub struct RoutineRow {
    pub entry: u32,
    pub parameters: u8,
    pub slots: u16,
    pub frame: u32,
}

/// The body of INIT, of the handler or of a process: its stack in words, its first instruction,
/// its slots and the words of stack that it needs.
#[derive(Clone, Copy)]
pub struct BodyRow {
    pub stack: u16,
    pub entry: u32,
    pub slots: u16,
    pub frame: u32,
}

/// A process: without a period it is aperiodic, without a time capacity it has no deadline.
#[derive(Clone, Copy)]
pub struct ProcessRow {
    pub name: Name,
    pub priority: Priority,
    pub period: Option<u64>,
    pub capacity: Option<u64>,
    pub body: BodyRow,
}

/// The result of compiling a partition's source: its initial data, its objects, its bodies and its
/// code. An instruction is 16 bytes, little endian.
#[derive(Drop)]
pub struct Section {
    pub initial: Vec<i64>,
    pub semaphores: Vec<SemaphoreRow>,
    /// The number of events.
    pub events: u8,
    pub buffers: Vec<BufferRow>,
    pub blackboards: Vec<BlackboardRow>,
    pub routines: Vec<RoutineRow>,
    pub processes: Vec<ProcessRow>,
    pub init: BodyRow,
    pub handler: Option<BodyRow>,
    pub code: Vec<[u8; 16]>,
}
