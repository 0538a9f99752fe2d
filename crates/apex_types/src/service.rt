//! The services of the standard and their calls.

ghost use Rattle.std.specs.Prelude.{◌≡◌, ◌<◌, ◌↔◌, ◌⊎◌, length, slice_get, IfSome, IsNone};

/// A service by its name in the standard, with this profile's number.
#[derive(Clone, Copy, PartialEq, Eq)]
pub enum Service {
    GetPartitionStatus = 1,
    SetPartitionMode = 2,
    GetProcessId = 3,
    GetProcessStatus = 4,
    CreateProcess = 5,
    SetPriority = 6,
    SuspendSelf = 7,
    Suspend = 8,
    Resume = 9,
    StopSelf = 10,
    Stop = 11,
    Start = 12,
    DelayedStart = 13,
    LockPreemption = 14,
    UnlockPreemption = 15,
    GetMyId = 16,
    TimedWait = 17,
    PeriodicWait = 18,
    GetTime = 19,
    Replenish = 20,
    CreateBuffer = 21,
    SendBuffer = 22,
    ReceiveBuffer = 23,
    GetBufferId = 24,
    GetBufferStatus = 25,
    CreateBlackboard = 26,
    DisplayBlackboard = 27,
    ReadBlackboard = 28,
    ClearBlackboard = 29,
    GetBlackboardId = 30,
    GetBlackboardStatus = 31,
    CreateSemaphore = 32,
    WaitSemaphore = 33,
    SignalSemaphore = 34,
    GetSemaphoreId = 35,
    GetSemaphoreStatus = 36,
    CreateEvent = 37,
    SetEvent = 38,
    ResetEvent = 39,
    WaitEvent = 40,
    GetEventId = 41,
    GetEventStatus = 42,
    CreateSamplingPort = 43,
    WriteSamplingMessage = 44,
    ReadSamplingMessage = 45,
    GetSamplingPortId = 46,
    GetSamplingPortStatus = 47,
    CreateQueuingPort = 48,
    SendQueuingMessage = 49,
    ReceiveQueuingMessage = 50,
    GetQueuingPortId = 51,
    GetQueuingPortStatus = 52,
    ClearQueuingPort = 53,
    ReportApplicationMessage = 54,
    CreateErrorHandler = 55,
    GetErrorStatus = 56,
    RaiseApplicationError = 57,
}

/// All services, in the order of their numbers.
pub static SERVICES: [Service; 57] = [
    Service::GetPartitionStatus,
    Service::SetPartitionMode,
    Service::GetProcessId,
    Service::GetProcessStatus,
    Service::CreateProcess,
    Service::SetPriority,
    Service::SuspendSelf,
    Service::Suspend,
    Service::Resume,
    Service::StopSelf,
    Service::Stop,
    Service::Start,
    Service::DelayedStart,
    Service::LockPreemption,
    Service::UnlockPreemption,
    Service::GetMyId,
    Service::TimedWait,
    Service::PeriodicWait,
    Service::GetTime,
    Service::Replenish,
    Service::CreateBuffer,
    Service::SendBuffer,
    Service::ReceiveBuffer,
    Service::GetBufferId,
    Service::GetBufferStatus,
    Service::CreateBlackboard,
    Service::DisplayBlackboard,
    Service::ReadBlackboard,
    Service::ClearBlackboard,
    Service::GetBlackboardId,
    Service::GetBlackboardStatus,
    Service::CreateSemaphore,
    Service::WaitSemaphore,
    Service::SignalSemaphore,
    Service::GetSemaphoreId,
    Service::GetSemaphoreStatus,
    Service::CreateEvent,
    Service::SetEvent,
    Service::ResetEvent,
    Service::WaitEvent,
    Service::GetEventId,
    Service::GetEventStatus,
    Service::CreateSamplingPort,
    Service::WriteSamplingMessage,
    Service::ReadSamplingMessage,
    Service::GetSamplingPortId,
    Service::GetSamplingPortStatus,
    Service::CreateQueuingPort,
    Service::SendQueuingMessage,
    Service::ReceiveQueuingMessage,
    Service::GetQueuingPortId,
    Service::GetQueuingPortStatus,
    Service::ClearQueuingPort,
    Service::ReportApplicationMessage,
    Service::CreateErrorHandler,
    Service::GetErrorStatus,
    Service::RaiseApplicationError,
];

/// The service at an index; `None` past the end.
fn service_at(services: &[Service], index: usize) -> Option<Service>
    ensures { result ≡ slice_get services.now index }
{
    services.get(index).copied()
}

impl Service {
    ghost use Rattle.apex_types.specs.ServiceShape.{services, number_of, service_of};

    /// The number of this service, from 1 on.
    pub fn number(self) -> u32
        ensures { result ≡ number_of self }
    {
        self as u32
    }

    /// The service with this number; `None` if no service has it.
    #[tactic(auto, using(crate::proofs::Numbers::service_of_above, crate::proofs::Numbers::service_of_positive, crate::proofs::Numbers::number_of_service))]
    pub fn from_number(number: u32) -> Option<Service>
        ensures service { result ≡ service_of number }
        ensures number { IfSome result (λ s. number_of s ≡ number) }
        ensures none { IsNone result ↔ (number ≡ 0) ⊎ (length services < number) }
    {
        if number == 0 {
            return None;
        }
        service_at(&SERVICES, number as usize - 1)
    }
}

/// An array argument of a call: the place of its first word in the partition's data, and its size.
#[derive(Clone, Copy)]
pub struct ArrayPlace {
    pub base: i64,
    pub size: i64,
}

/// A service call with its arguments, as words of the calling process: names and identifiers
/// are numbers, a time is a count of ticks or -1.
#[derive(Clone, Copy)]
pub enum Call {
    GetPartitionStatus,
    SetPartitionMode {
        mode: i64,
    },
    GetProcessId {
        name: i64,
    },
    GetProcessStatus {
        process: i64,
    },
    CreateProcess {
        name: i64,
    },
    SetPriority {
        process: i64,
        priority: i64,
    },
    SuspendSelf {
        timeout: i64,
    },
    Suspend {
        process: i64,
    },
    Resume {
        process: i64,
    },
    StopSelf,
    Stop {
        process: i64,
    },
    Start {
        process: i64,
    },
    DelayedStart {
        process: i64,
        delay: i64,
    },
    LockPreemption,
    UnlockPreemption,
    GetMyId,
    TimedWait {
        delay: i64,
    },
    PeriodicWait,
    GetTime,
    Replenish {
        budget: i64,
    },
    ReportApplicationMessage {
        array: ArrayPlace,
        length: i64,
    },
    CreateErrorHandler,
    GetErrorStatus {
        array: ArrayPlace,
    },
    RaiseApplicationError {
        error: i64,
        array: ArrayPlace,
        length: i64,
    },
    /// A call on a semaphore, an event, a buffer or a blackboard.
    Object(ObjectCall),
    /// A call on a port.
    Port(PortCall),
}

/// A call of a service on semaphores, events, buffers or blackboards, with its arguments.
#[derive(Clone, Copy)]
pub enum ObjectCall {
    CreateBuffer {
        name: i64,
    },
    SendBuffer {
        buffer: i64,
        array: ArrayPlace,
        length: i64,
        timeout: i64,
    },
    ReceiveBuffer {
        buffer: i64,
        array: ArrayPlace,
        timeout: i64,
    },
    GetBufferId {
        name: i64,
    },
    GetBufferStatus {
        buffer: i64,
    },
    CreateBlackboard {
        name: i64,
    },
    DisplayBlackboard {
        blackboard: i64,
        array: ArrayPlace,
        length: i64,
    },
    ReadBlackboard {
        blackboard: i64,
        array: ArrayPlace,
        timeout: i64,
    },
    ClearBlackboard {
        blackboard: i64,
    },
    GetBlackboardId {
        name: i64,
    },
    GetBlackboardStatus {
        blackboard: i64,
    },
    CreateSemaphore {
        name: i64,
    },
    WaitSemaphore {
        semaphore: i64,
        timeout: i64,
    },
    SignalSemaphore {
        semaphore: i64,
    },
    GetSemaphoreId {
        name: i64,
    },
    GetSemaphoreStatus {
        semaphore: i64,
    },
    CreateEvent {
        name: i64,
    },
    SetEvent {
        event: i64,
    },
    ResetEvent {
        event: i64,
    },
    WaitEvent {
        event: i64,
        timeout: i64,
    },
    GetEventId {
        name: i64,
    },
    GetEventStatus {
        event: i64,
    },
}

/// A call of a service on ports, with its arguments.
#[derive(Clone, Copy)]
pub enum PortCall {
    CreateSamplingPort {
        name: i64,
    },
    WriteSamplingMessage {
        port: i64,
        array: ArrayPlace,
        length: i64,
    },
    ReadSamplingMessage {
        port: i64,
        array: ArrayPlace,
    },
    GetSamplingPortId {
        name: i64,
    },
    GetSamplingPortStatus {
        port: i64,
    },
    CreateQueuingPort {
        name: i64,
    },
    SendQueuingMessage {
        port: i64,
        array: ArrayPlace,
        length: i64,
        timeout: i64,
    },
    ReceiveQueuingMessage {
        port: i64,
        array: ArrayPlace,
        timeout: i64,
    },
    GetQueuingPortId {
        name: i64,
    },
    GetQueuingPortStatus {
        port: i64,
    },
    ClearQueuingPort {
        port: i64,
    },
}
