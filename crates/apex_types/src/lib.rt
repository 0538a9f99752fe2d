//! The words of the system: codes, modes, states, names, services, instructions, events and their text.
//!
//! Names and numbers are those of ARINC 653 Part 1 (APEX, required services).
#![tactic(auto)]

pub mod call;
pub mod codes;
pub mod cost;
pub mod denotation;
pub mod device;
pub mod event;
pub mod identity;
pub mod instruction;
pub mod limits;
pub mod log;
pub mod name;
pub mod out;
pub mod place;
pub mod process;
pub mod row;
pub mod service;
pub mod shape;
pub mod sink;
pub mod text;
pub mod version;

pub use call::{array_of, call_of, services_are_numbered};
pub use codes::{
    Discipline, ErrorKind, ErrorLevel, Mode, ModuleAction, PartitionAction, ProcessState, Response,
    ReturnCode, StartCondition,
};
pub use cost::{COST_KEYS, Costs, TickCost, UNKNOWN_COST};
pub use denotation::{Denotation, ObjectKind};
pub use device::{DeviceFault, DeviceInput, DeviceLine};
pub use event::{Event, EventKind, Events, LineKind, Subject, Words, copied, message_of, refill};
pub use identity::{
    At, ChannelIndex, ListKey, Moment, PartitionId, PortId, Priority, ProcessIndex, Runner, Ticks,
};
pub use instruction::{BinaryOperator, Instr, UnaryOperator};
pub use limits::{MOST_COST, MOST_ERRORS, MOST_OBJECTS, MOST_PROCESSES, MOST_RUNNERS, MOST_TICKS};
pub use log::EventLog;
pub use name::Name;
pub use out::Out;
pub use place::Place;
pub use process::{ActionKind, Due, Entry, Lock, ProcessStatus, Wait, Waiting, WaitingError};
pub use row::{
    BlackboardRow, BodyRow, BufferRow, ChannelEnd, HealthTable, PortDirection, PortKind, PortRow,
    ProcessRow, RoutineRow, Section, SemaphoreRow, WindowRow,
};
pub use service::{ArrayPlace, Call, ObjectCall, PortCall, SERVICES, Service};
pub use shape::{ArgumentKind, ServiceClass, Shape};
pub use sink::{Sink, SinkFault, WriterSink, put_all};
pub use text::{TraceBuffer, write_event};
pub use version::{FIRST_VERSION, ImageVersion, Limits, MAGIC, SECOND_VERSION, THIRD_VERSION};
