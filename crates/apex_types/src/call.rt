//! The call of a service from the words of its arguments.

ghost use Rattle.std.specs.Prelude.{◌≡◌, ◌<◌, length, None, Some, ℕ};
ghost use Rattle.apex_types.specs.declared.service.Service.{Service};
ghost use Rattle.apex_types.specs.ServiceShape.{services, number_of, service_of};
ghost use Rattle.apex_types.specs.ServiceCalls.{argument, array_argument, call_of, array_of, array_of_object, array_of_port};

use crate::service::{ArrayPlace, Call, ObjectCall, PortCall, Service};

/// The argument at an index.
fn argument(words: &[i64], index: usize) -> i64
    ensures { result ≡ argument words.now index }
{
    words.get(index).copied().unwrap_or(0)
}

/// The array argument at an index: its place and its size.
fn array_argument(words: &[i64], index: usize) -> ArrayPlace
    requires { index < 8 }
    ensures { result ≡ array_argument words.now index }
{
    ArrayPlace {
        base: argument(words, index),
        size: argument(words, index + 1),
    }
}

/// The call of a service with these words as its arguments, the first pushed first.
pub fn call_of(service: Service, words: &[i64]) -> Call
    ensures { result ≡ call_of service words.now }
{
    match service {
        Service::GetPartitionStatus => Call::GetPartitionStatus,
        Service::SetPartitionMode => Call::SetPartitionMode {
            mode: argument(words, 0),
        },
        Service::GetProcessId => Call::GetProcessId {
            name: argument(words, 0),
        },
        Service::GetProcessStatus => Call::GetProcessStatus {
            process: argument(words, 0),
        },
        Service::CreateProcess => Call::CreateProcess {
            name: argument(words, 0),
        },
        Service::SetPriority => Call::SetPriority {
            process: argument(words, 0),
            priority: argument(words, 1),
        },
        Service::SuspendSelf => Call::SuspendSelf {
            timeout: argument(words, 0),
        },
        Service::Suspend => Call::Suspend {
            process: argument(words, 0),
        },
        Service::Resume => Call::Resume {
            process: argument(words, 0),
        },
        Service::StopSelf => Call::StopSelf,
        Service::Stop => Call::Stop {
            process: argument(words, 0),
        },
        Service::Start => Call::Start {
            process: argument(words, 0),
        },
        Service::DelayedStart => Call::DelayedStart {
            process: argument(words, 0),
            delay: argument(words, 1),
        },
        Service::LockPreemption => Call::LockPreemption,
        Service::UnlockPreemption => Call::UnlockPreemption,
        Service::GetMyId => Call::GetMyId,
        Service::TimedWait => Call::TimedWait {
            delay: argument(words, 0),
        },
        Service::PeriodicWait => Call::PeriodicWait,
        Service::GetTime => Call::GetTime,
        Service::Replenish => Call::Replenish {
            budget: argument(words, 0),
        },
        Service::CreateBuffer => Call::Object(ObjectCall::CreateBuffer {
            name: argument(words, 0),
        }),
        Service::SendBuffer => Call::Object(ObjectCall::SendBuffer {
            buffer: argument(words, 0),
            array: array_argument(words, 1),
            length: argument(words, 3),
            timeout: argument(words, 4),
        }),
        Service::ReceiveBuffer => Call::Object(ObjectCall::ReceiveBuffer {
            buffer: argument(words, 0),
            array: array_argument(words, 1),
            timeout: argument(words, 3),
        }),
        Service::GetBufferId => Call::Object(ObjectCall::GetBufferId {
            name: argument(words, 0),
        }),
        Service::GetBufferStatus => Call::Object(ObjectCall::GetBufferStatus {
            buffer: argument(words, 0),
        }),
        Service::CreateBlackboard => Call::Object(ObjectCall::CreateBlackboard {
            name: argument(words, 0),
        }),
        Service::DisplayBlackboard => Call::Object(ObjectCall::DisplayBlackboard {
            blackboard: argument(words, 0),
            array: array_argument(words, 1),
            length: argument(words, 3),
        }),
        Service::ReadBlackboard => Call::Object(ObjectCall::ReadBlackboard {
            blackboard: argument(words, 0),
            array: array_argument(words, 1),
            timeout: argument(words, 3),
        }),
        Service::ClearBlackboard => Call::Object(ObjectCall::ClearBlackboard {
            blackboard: argument(words, 0),
        }),
        Service::GetBlackboardId => Call::Object(ObjectCall::GetBlackboardId {
            name: argument(words, 0),
        }),
        Service::GetBlackboardStatus => Call::Object(ObjectCall::GetBlackboardStatus {
            blackboard: argument(words, 0),
        }),
        Service::CreateSemaphore => Call::Object(ObjectCall::CreateSemaphore {
            name: argument(words, 0),
        }),
        Service::WaitSemaphore => Call::Object(ObjectCall::WaitSemaphore {
            semaphore: argument(words, 0),
            timeout: argument(words, 1),
        }),
        Service::SignalSemaphore => Call::Object(ObjectCall::SignalSemaphore {
            semaphore: argument(words, 0),
        }),
        Service::GetSemaphoreId => Call::Object(ObjectCall::GetSemaphoreId {
            name: argument(words, 0),
        }),
        Service::GetSemaphoreStatus => Call::Object(ObjectCall::GetSemaphoreStatus {
            semaphore: argument(words, 0),
        }),
        Service::CreateEvent => Call::Object(ObjectCall::CreateEvent {
            name: argument(words, 0),
        }),
        Service::SetEvent => Call::Object(ObjectCall::SetEvent {
            event: argument(words, 0),
        }),
        Service::ResetEvent => Call::Object(ObjectCall::ResetEvent {
            event: argument(words, 0),
        }),
        Service::WaitEvent => Call::Object(ObjectCall::WaitEvent {
            event: argument(words, 0),
            timeout: argument(words, 1),
        }),
        Service::GetEventId => Call::Object(ObjectCall::GetEventId {
            name: argument(words, 0),
        }),
        Service::GetEventStatus => Call::Object(ObjectCall::GetEventStatus {
            event: argument(words, 0),
        }),
        Service::CreateSamplingPort => Call::Port(PortCall::CreateSamplingPort {
            name: argument(words, 0),
        }),
        Service::WriteSamplingMessage => Call::Port(PortCall::WriteSamplingMessage {
            port: argument(words, 0),
            array: array_argument(words, 1),
            length: argument(words, 3),
        }),
        Service::ReadSamplingMessage => Call::Port(PortCall::ReadSamplingMessage {
            port: argument(words, 0),
            array: array_argument(words, 1),
        }),
        Service::GetSamplingPortId => Call::Port(PortCall::GetSamplingPortId {
            name: argument(words, 0),
        }),
        Service::GetSamplingPortStatus => Call::Port(PortCall::GetSamplingPortStatus {
            port: argument(words, 0),
        }),
        Service::CreateQueuingPort => Call::Port(PortCall::CreateQueuingPort {
            name: argument(words, 0),
        }),
        Service::SendQueuingMessage => Call::Port(PortCall::SendQueuingMessage {
            port: argument(words, 0),
            array: array_argument(words, 1),
            length: argument(words, 3),
            timeout: argument(words, 4),
        }),
        Service::ReceiveQueuingMessage => Call::Port(PortCall::ReceiveQueuingMessage {
            port: argument(words, 0),
            array: array_argument(words, 1),
            timeout: argument(words, 3),
        }),
        Service::GetQueuingPortId => Call::Port(PortCall::GetQueuingPortId {
            name: argument(words, 0),
        }),
        Service::GetQueuingPortStatus => Call::Port(PortCall::GetQueuingPortStatus {
            port: argument(words, 0),
        }),
        Service::ClearQueuingPort => Call::Port(PortCall::ClearQueuingPort {
            port: argument(words, 0),
        }),
        Service::ReportApplicationMessage => Call::ReportApplicationMessage {
            array: array_argument(words, 0),
            length: argument(words, 2),
        },
        Service::CreateErrorHandler => Call::CreateErrorHandler,
        Service::GetErrorStatus => Call::GetErrorStatus {
            array: array_argument(words, 0),
        },
        Service::RaiseApplicationError => Call::RaiseApplicationError {
            error: argument(words, 0),
            array: array_argument(words, 1),
            length: argument(words, 3),
        },
    }
}

/// The array argument of a call, if it has one.
#[inline(always)]
pub fn array_of(call: Call) -> Option<ArrayPlace>
    ensures { result ≡ array_of call }
{
    match call {
        Call::Object(call) => array_of_object(call),
        Call::Port(call) => array_of_port(call),
        Call::ReportApplicationMessage { array, .. }
        | Call::GetErrorStatus { array }
        | Call::RaiseApplicationError { array, .. } => Some(array),
        _ => None,
    }
}

#[inline(always)]
fn array_of_object(call: ObjectCall) -> Option<ArrayPlace>
    ensures { result ≡ array_of_object call }
{
    match call {
        ObjectCall::SendBuffer { array, .. }
        | ObjectCall::ReceiveBuffer { array, .. }
        | ObjectCall::DisplayBlackboard { array, .. }
        | ObjectCall::ReadBlackboard { array, .. } => Some(array),
        _ => None,
    }
}

#[inline(always)]
fn array_of_port(call: PortCall) -> Option<ArrayPlace>
    ensures { result ≡ array_of_port call }
{
    match call {
        PortCall::WriteSamplingMessage { array, .. }
        | PortCall::ReadSamplingMessage { array, .. }
        | PortCall::SendQueuingMessage { array, .. }
        | PortCall::ReceiveQueuingMessage { array, .. } => Some(array),
        _ => None,
    }
}

/// Services are numbered from 1 on, each with its own number; no number above the count of services
/// names one.
pub fn services_are_numbered()
    ensures each { (service : Service) → service_of (number_of service) ≡ Some service }
    ensures others { (number : ℕ) → length services < number → service_of number ≡ None }
{}
