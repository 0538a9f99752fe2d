//! The shape of each service: its name, its arguments, its outputs, and its cost.

ghost use Rattle.std.specs.Prelude.{◌≡◌, ◌≤◌, length};
ghost use Rattle.apex_types.specs.ServiceShape as rows;
ghost use Rattle.apex_types.specs.ShapeView.{seen};

use crate::cost::Costs;
use crate::denotation::ObjectKind;
use crate::service::Service;

/// The services that cost the same.
#[derive(Clone, Copy, PartialEq, Eq)]
pub enum ServiceClass {
    /// It creates an object, a port, a process or the handler.
    Creation,
    /// It has an array argument.
    WithArray,
    Other,
}

impl ServiceClass {
    ghost use Rattle.apex_types.specs.ServiceShape.{cost_of_class};

    /// The cost of a service of this class in ticks.
    pub fn cost(self, costs: &Costs) -> u32
        ensures { result ≡ cost_of_class costs.now self }
    {
        match self {
            ServiceClass::Creation => costs.create.ticks,
            ServiceClass::WithArray => costs.message.ticks,
            ServiceClass::Other => costs.service.ticks,
        }
    }
}

/// The kind that an argument of a service must have.
#[derive(Clone, Copy, PartialEq, Eq)]
pub enum ArgumentKind {
    /// An expression.
    Word,
    /// The name of an array.
    Array,
    /// The name of an object, a port or a process of that kind.
    Object(ObjectKind),
}

impl ArgumentKind {
    ghost use Rattle.apex_types.specs.ServiceShape.{words_of_kind};

    /// The number of words that such an argument takes: an array takes two, its place and its size.
    pub fn words(self) -> u32
        ensures words { result ≡ words_of_kind self }
        ensures few { result ≤ 2 }
    {
        match self {
            ArgumentKind::Array => 2,
            ArgumentKind::Word | ArgumentKind::Object(_) => 1,
        }
    }
}

/// The row of a service: its number, its name, its arguments, and its outputs.
#[derive(Clone, Copy)]
pub struct Shape {
    /// Its number in this profile, from 1 on.
    pub number: u8,
    /// Its name in the standard, as traces and source texts have it.
    pub word: &'static str,
    /// The kinds of its arguments, in order.
    pub arguments: &'static [ArgumentKind],
    /// The number of its outputs, without the code.
    pub outputs: u8,
    /// Whether it creates an object, a port, a process or the handler.
    pub creates: bool,
}

const WORD: ArgumentKind = ArgumentKind::Word;

const ARRAY: ArgumentKind = ArgumentKind::Array;

const PROCESS: ArgumentKind = ArgumentKind::Object(ObjectKind::Process);

const BUFFER: ArgumentKind = ArgumentKind::Object(ObjectKind::Buffer);

const BLACKBOARD: ArgumentKind = ArgumentKind::Object(ObjectKind::Blackboard);

const SEMAPHORE: ArgumentKind = ArgumentKind::Object(ObjectKind::Semaphore);

const EVENT: ArgumentKind = ArgumentKind::Object(ObjectKind::Event);

const PORT: ArgumentKind = ArgumentKind::Object(ObjectKind::Port);

/// The row of a service that creates nothing.
#[inline(always)]
fn row(number: u8, word: &'static str, arguments: &'static [ArgumentKind], outputs: u8) -> Shape
    ensures { seen result ≡ rows.row number word.now arguments.now outputs }
{
    Shape {
        number,
        word,
        arguments,
        outputs,
        creates: false,
    }
}

/// The row of a service that creates an object, a port, a process or the handler.
#[inline(always)]
fn creation(
    number: u8,
    word: &'static str,
    arguments: &'static [ArgumentKind],
    outputs: u8,
) -> Shape
    ensures { seen result ≡ rows.creation number word.now arguments.now outputs }
{
    Shape {
        number,
        word,
        arguments,
        outputs,
        creates: true,
    }
}

impl Service {
    ghost use Rattle.apex_types.specs.ServiceShape.{shape, service_word, arguments_of, argument_words};
    ghost use Rattle.apex_types.specs.ServiceShape.{answer_words, class_of, cost_of_service};

    /// The row of this service.
    #[inline(always)]
    pub fn shape(self) -> Shape
        ensures { seen result ≡ shape self }
    {
        match self {
            Self::GetPartitionStatus => row(1, "GET_PARTITION_STATUS", &[], 6),
            Self::SetPartitionMode => row(2, "SET_PARTITION_MODE", &[WORD], 0),
            Self::GetProcessId => row(3, "GET_PROCESS_ID", &[PROCESS], 1),
            Self::GetProcessStatus => row(4, "GET_PROCESS_STATUS", &[WORD], 3),
            Self::CreateProcess => creation(5, "CREATE_PROCESS", &[PROCESS], 1),
            Self::SetPriority => row(6, "SET_PRIORITY", &[WORD, WORD], 0),
            Self::SuspendSelf => row(7, "SUSPEND_SELF", &[WORD], 0),
            Self::Suspend => row(8, "SUSPEND", &[WORD], 0),
            Self::Resume => row(9, "RESUME", &[WORD], 0),
            Self::StopSelf => row(10, "STOP_SELF", &[], 0),
            Self::Stop => row(11, "STOP", &[WORD], 0),
            Self::Start => row(12, "START", &[WORD], 0),
            Self::DelayedStart => row(13, "DELAYED_START", &[WORD, WORD], 0),
            Self::LockPreemption => row(14, "LOCK_PREEMPTION", &[], 1),
            Self::UnlockPreemption => row(15, "UNLOCK_PREEMPTION", &[], 1),
            Self::GetMyId => row(16, "GET_MY_ID", &[], 1),
            Self::TimedWait => row(17, "TIMED_WAIT", &[WORD], 0),
            Self::PeriodicWait => row(18, "PERIODIC_WAIT", &[], 0),
            Self::GetTime => row(19, "GET_TIME", &[], 1),
            Self::Replenish => row(20, "REPLENISH", &[WORD], 0),
            Self::CreateBuffer => creation(21, "CREATE_BUFFER", &[BUFFER], 1),
            Self::SendBuffer => row(22, "SEND_BUFFER", &[WORD, ARRAY, WORD, WORD], 0),
            Self::ReceiveBuffer => row(23, "RECEIVE_BUFFER", &[WORD, ARRAY, WORD], 1),
            Self::GetBufferId => row(24, "GET_BUFFER_ID", &[BUFFER], 1),
            Self::GetBufferStatus => row(25, "GET_BUFFER_STATUS", &[WORD], 4),
            Self::CreateBlackboard => creation(26, "CREATE_BLACKBOARD", &[BLACKBOARD], 1),
            Self::DisplayBlackboard => row(27, "DISPLAY_BLACKBOARD", &[WORD, ARRAY, WORD], 0),
            Self::ReadBlackboard => row(28, "READ_BLACKBOARD", &[WORD, ARRAY, WORD], 1),
            Self::ClearBlackboard => row(29, "CLEAR_BLACKBOARD", &[WORD], 0),
            Self::GetBlackboardId => row(30, "GET_BLACKBOARD_ID", &[BLACKBOARD], 1),
            Self::GetBlackboardStatus => row(31, "GET_BLACKBOARD_STATUS", &[WORD], 3),
            Self::CreateSemaphore => creation(32, "CREATE_SEMAPHORE", &[SEMAPHORE], 1),
            Self::WaitSemaphore => row(33, "WAIT_SEMAPHORE", &[WORD, WORD], 0),
            Self::SignalSemaphore => row(34, "SIGNAL_SEMAPHORE", &[WORD], 0),
            Self::GetSemaphoreId => row(35, "GET_SEMAPHORE_ID", &[SEMAPHORE], 1),
            Self::GetSemaphoreStatus => row(36, "GET_SEMAPHORE_STATUS", &[WORD], 3),
            Self::CreateEvent => creation(37, "CREATE_EVENT", &[EVENT], 1),
            Self::SetEvent => row(38, "SET_EVENT", &[WORD], 0),
            Self::ResetEvent => row(39, "RESET_EVENT", &[WORD], 0),
            Self::WaitEvent => row(40, "WAIT_EVENT", &[WORD, WORD], 0),
            Self::GetEventId => row(41, "GET_EVENT_ID", &[EVENT], 1),
            Self::GetEventStatus => row(42, "GET_EVENT_STATUS", &[WORD], 2),
            Self::CreateSamplingPort => creation(43, "CREATE_SAMPLING_PORT", &[PORT], 1),
            Self::WriteSamplingMessage => row(
                44,
                "WRITE_SAMPLING_MESSAGE",
                &[WORD, ARRAY, WORD],
                0,
            ),
            Self::ReadSamplingMessage => row(45, "READ_SAMPLING_MESSAGE", &[WORD, ARRAY], 2),
            Self::GetSamplingPortId => row(46, "GET_SAMPLING_PORT_ID", &[PORT], 1),
            Self::GetSamplingPortStatus => row(47, "GET_SAMPLING_PORT_STATUS", &[WORD], 4),
            Self::CreateQueuingPort => creation(48, "CREATE_QUEUING_PORT", &[PORT], 1),
            Self::SendQueuingMessage => row(
                49,
                "SEND_QUEUING_MESSAGE",
                &[WORD, ARRAY, WORD, WORD],
                0,
            ),
            Self::ReceiveQueuingMessage => row(
                50,
                "RECEIVE_QUEUING_MESSAGE",
                &[WORD, ARRAY, WORD],
                1,
            ),
            Self::GetQueuingPortId => row(51, "GET_QUEUING_PORT_ID", &[PORT], 1),
            Self::GetQueuingPortStatus => row(52, "GET_QUEUING_PORT_STATUS", &[WORD], 5),
            Self::ClearQueuingPort => row(53, "CLEAR_QUEUING_PORT", &[WORD], 0),
            Self::ReportApplicationMessage => row(
                54,
                "REPORT_APPLICATION_MESSAGE",
                &[ARRAY, WORD],
                0,
            ),
            Self::CreateErrorHandler => creation(55, "CREATE_ERROR_HANDLER", &[], 0),
            Self::GetErrorStatus => row(56, "GET_ERROR_STATUS", &[ARRAY], 3),
            Self::RaiseApplicationError => row(
                57,
                "RAISE_APPLICATION_ERROR",
                &[WORD, ARRAY, WORD],
                0,
            ),
        }
    }

    /// The name of this service in the standard, as traces and source texts have it.
    #[inline(always)]
    pub fn word(self) -> &'static str
        ensures word { result.now ≡ service_word self }
        ensures short { length result.now ≤ 26 }
    {
        self.shape().word
    }

    /// The kinds of the arguments of this service, in order.
    #[inline(always)]
    pub fn arguments(self) -> &'static [ArgumentKind]
        ensures kinds { result.now ≡ arguments_of self }
        ensures few { length result.now ≤ 4 }
    {
        self.shape().arguments
    }

    /// The number of words of this service's arguments: an array argument takes two, its place and
    /// its size.
    #[inline(always)]
    pub fn argument_words(self) -> u32
        ensures { result ≡ argument_words self }
    {
        self.arguments().iter().map(|kind| kind.words()).sum()
    }

    /// The number of words that this service returns: the code and the outputs; STOP_SELF returns
    /// none.
    #[inline(always)]
    pub fn answer_words(self) -> u8
        ensures words { result ≡ answer_words self }
        ensures few { result ≤ 7 }
    {
        match self {
            Service::StopSelf => 0,
            _ => 1 + self.shape().outputs,
        }
    }

    /// The class of this service: services that create, services with an array argument, and all
    /// others.
    pub fn class(self) -> ServiceClass
        ensures { result ≡ class_of self }
    {
        let shape = self.shape();
        if shape.creates {
            ServiceClass::Creation
        } else if shape.arguments.contains(&ARRAY) {
            ServiceClass::WithArray
        } else {
            ServiceClass::Other
        }
    }

    /// The cost of this service in ticks.
    pub fn cost(self, costs: &Costs) -> u32
        ensures { result ≡ cost_of_service costs.now self }
    {
        self.class().cost(costs)
    }
}
