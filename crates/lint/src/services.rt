//! What services do, as far as their names show it.

ghost use Rattle.std.specs.Prelude.{◌≡◌};
ghost use Rattle.lint.specs.Services as meant;

use apex_types::{ObjectKind, PortDirection, Service};

/// The kind of what a service creates, where it is declared by name.
pub fn created_kind(service: Service) -> Option<ObjectKind>
    ensures { result ≡ meant.created_kind service }
{
    match service {
        Service::CreateProcess => Some(ObjectKind::Process),
        Service::CreateBuffer => Some(ObjectKind::Buffer),
        Service::CreateBlackboard => Some(ObjectKind::Blackboard),
        Service::CreateSemaphore => Some(ObjectKind::Semaphore),
        Service::CreateEvent => Some(ObjectKind::Event),
        Service::CreateSamplingPort => Some(ObjectKind::Port),
        Service::CreateQueuingPort => Some(ObjectKind::Port),
        _ => None,
    }
}

/// The kind of the thing whose number a service returns: it creates it, or finds it by its name.
pub fn numbered_kind(service: Service) -> Option<ObjectKind>
    ensures { result ≡ meant.numbered_kind service }
{
    match service {
        Service::GetProcessId => Some(ObjectKind::Process),
        Service::GetBufferId => Some(ObjectKind::Buffer),
        Service::GetBlackboardId => Some(ObjectKind::Blackboard),
        Service::GetSemaphoreId => Some(ObjectKind::Semaphore),
        Service::GetEventId => Some(ObjectKind::Event),
        Service::GetSamplingPortId => Some(ObjectKind::Port),
        Service::GetQueuingPortId => Some(ObjectKind::Port),
        _ => created_kind(service),
    }
}

/// The kind of what the message comes from that a service stores in its array.
pub fn stored_kind(service: Service) -> Option<ObjectKind>
    ensures { result ≡ meant.stored_kind service }
{
    match service {
        Service::ReceiveBuffer => Some(ObjectKind::Buffer),
        Service::ReadBlackboard => Some(ObjectKind::Blackboard),
        Service::ReadSamplingMessage | Service::ReceiveQueuingMessage => Some(ObjectKind::Port),
        _ => None,
    }
}

/// The kind of what takes the message that a service sends from its array.
pub fn sent_kind(service: Service) -> Option<ObjectKind>
    ensures { result ≡ meant.sent_kind service }
{
    match service {
        Service::SendBuffer => Some(ObjectKind::Buffer),
        Service::DisplayBlackboard => Some(ObjectKind::Blackboard),
        Service::WriteSamplingMessage | Service::SendQueuingMessage => Some(ObjectKind::Port),
        _ => None,
    }
}

/// The kind of what a process waits for that another process signals or sets.
pub fn awaited_kind(service: Service) -> Option<ObjectKind>
    ensures { result ≡ meant.awaited_kind service }
{
    match service {
        Service::WaitSemaphore => Some(ObjectKind::Semaphore),
        Service::WaitEvent => Some(ObjectKind::Event),
        _ => None,
    }
}

/// The kind of what a service signals or sets.
pub fn signalled_kind(service: Service) -> Option<ObjectKind>
    ensures { result ≡ meant.signalled_kind service }
{
    match service {
        Service::SignalSemaphore => Some(ObjectKind::Semaphore),
        Service::SetEvent => Some(ObjectKind::Event),
        _ => None,
    }
}

/// Returns true if the first argument of a service is the number of an object, a port or a process.
pub fn takes_number(service: Service) -> bool
    ensures { result ≡ meant.takes_number service }
{
    match service {
        Service::GetProcessStatus
        | Service::SetPriority
        | Service::Suspend
        | Service::Resume
        | Service::Stop
        | Service::Start
        | Service::DelayedStart => true,
        Service::SendBuffer
        | Service::ReceiveBuffer
        | Service::GetBufferStatus
        | Service::DisplayBlackboard
        | Service::ReadBlackboard
        | Service::ClearBlackboard
        | Service::GetBlackboardStatus => true,
        Service::WaitSemaphore
        | Service::SignalSemaphore
        | Service::GetSemaphoreStatus
        | Service::SetEvent
        | Service::ResetEvent
        | Service::WaitEvent
        | Service::GetEventStatus => true,
        Service::WriteSamplingMessage
        | Service::ReadSamplingMessage
        | Service::GetSamplingPortStatus
        | Service::SendQueuingMessage
        | Service::ReceiveQueuingMessage
        | Service::GetQueuingPortStatus
        | Service::ClearQueuingPort => true,
        _ => false,
    }
}

/// Returns true if a service starts the process of a number.
pub fn is_start(service: Service) -> bool
    ensures { result ≡ meant.is_start service }
{
    matches!(service, Service::Start | Service::DelayedStart)
}

/// Returns true if a service sets the mode of the partition.
pub fn is_set_mode(service: Service) -> bool
    ensures { result ≡ meant.is_set_mode service }
{
    matches!(service, Service::SetPartitionMode)
}

/// Returns true if a service waits for the next release.
pub fn is_periodic_wait(service: Service) -> bool
    ensures { result ≡ meant.is_periodic_wait service }
{
    matches!(service, Service::PeriodicWait)
}

/// Returns true if a service creates the error handler.
pub fn is_handler_creation(service: Service) -> bool
    ensures { result ≡ meant.is_handler_creation service }
{
    matches!(service, Service::CreateErrorHandler)
}

/// Returns true if a service takes an error.
pub fn is_error_status(service: Service) -> bool
    ensures { result ≡ meant.is_error_status service }
{
    matches!(service, Service::GetErrorStatus)
}

/// Returns true if who asks for a service ends, or may end.
pub fn ends_caller(service: Service) -> bool
    ensures { result ≡ meant.ends_caller service }
{
    matches!(service, Service::StopSelf | Service::SetPartitionMode)
}

/// Returns true if the caller of a service waits, whatever its arguments are.
pub fn always_waits(service: Service) -> bool
    ensures { result ≡ meant.always_waits service }
{
    matches!(
        service,
        Service::TimedWait | Service::PeriodicWait | Service::SuspendSelf
    )
}

/// Returns true if the last argument of a service says how long to wait.
pub fn has_time_out(service: Service) -> bool
    ensures { result ≡ meant.has_time_out service }
{
    matches!(
        service,
        Service::SendBuffer
            | Service::ReceiveBuffer
            | Service::ReadBlackboard
            | Service::WaitSemaphore
            | Service::WaitEvent
            | Service::SendQueuingMessage
            | Service::ReceiveQueuingMessage
    )
}

/// Whether the ports that a service is for are queuing ports; none for a service that is for no port.
pub fn port_kind(service: Service) -> Option<bool>
    ensures { result ≡ meant.port_kind service }
{
    match service {
        Service::CreateSamplingPort
        | Service::WriteSamplingMessage
        | Service::ReadSamplingMessage
        | Service::GetSamplingPortId
        | Service::GetSamplingPortStatus => Some(false),
        Service::CreateQueuingPort
        | Service::SendQueuingMessage
        | Service::ReceiveQueuingMessage
        | Service::GetQueuingPortId
        | Service::GetQueuingPortStatus
        | Service::ClearQueuingPort => Some(true),
        _ => None,
    }
}

/// The direction of the ports that a service is for; none if it is for both.
pub fn port_direction(service: Service) -> Option<PortDirection>
    ensures { result ≡ meant.port_direction service }
{
    match service {
        Service::WriteSamplingMessage | Service::SendQueuingMessage => Some(PortDirection::Source),
        Service::ReadSamplingMessage | Service::ReceiveQueuingMessage | Service::ClearQueuingPort =>
            Some(PortDirection::Destination),
        _ => None,
    }
}
