//! The fields of a line: each is a word, a name or a number.

ghost use Rattle.std.specs.Prelude.{◌≡◌};
ghost use Rattle.trace_text.specs.Reading as meant;

use apex_types::limits::MOST_TICKS;
use apex_types::{
    ErrorKind, Mode, ModuleAction, Name, PartitionAction, ProcessState, Response, ReturnCode,
    SERVICES, Service, Subject, Ticks,
};
use text_lines::{are_digits, number_at_most, plain_number};

/// The digits of a tick.
const TICK_DIGITS: usize = 13;

/// The last tick that a run can have.
const LAST_TICK: u64 = MOST_TICKS - 1;

static MODES: [Mode; 4] = [Mode::Idle, Mode::ColdStart, Mode::WarmStart, Mode::Normal];

static STATES: [ProcessState; 4] = [
    ProcessState::Dormant,
    ProcessState::Ready,
    ProcessState::Running,
    ProcessState::Waiting,
];

static RETURN_CODES: [ReturnCode; 7] = [
    ReturnCode::NoError,
    ReturnCode::NoAction,
    ReturnCode::NotAvailable,
    ReturnCode::InvalidParam,
    ReturnCode::InvalidConfig,
    ReturnCode::InvalidMode,
    ReturnCode::TimedOut,
];

static ERRORS: [ErrorKind; 7] = [
    ErrorKind::DeadlineMissed,
    ErrorKind::ApplicationError,
    ErrorKind::NumericError,
    ErrorKind::IllegalRequest,
    ErrorKind::StackOverflow,
    ErrorKind::MemoryViolation,
    ErrorKind::HardwareFault,
];

static RESPONSES: [Response; 8] = [
    Response::Handler,
    Response::Partition(PartitionAction::Ignore),
    Response::Partition(PartitionAction::Idle),
    Response::Partition(PartitionAction::WarmStart),
    Response::Partition(PartitionAction::ColdStart),
    Response::Module(ModuleAction::Ignore),
    Response::Module(ModuleAction::Shutdown),
    Response::Module(ModuleAction::Reset),
];

/// The tick of these 13 digits; none if no run has it.
pub fn tick_of(text: &[u8]) -> Option<Ticks>
    ensures { result ≡ meant.tick_of text.now }
{
    if text.len() == TICK_DIGITS && are_digits(text) {
        Some(Ticks(number_at_most(LAST_TICK, text)?))
    } else {
        None
    }
}

/// The name with this text.
pub fn name_of(text: &[u8]) -> Option<Name>
    ensures { result ≡ meant.name_of text.now }
{
    Name::new(text)
}

/// The partition of this name; `-` means the module itself.
pub fn partition_of(text: &[u8]) -> Option<Option<Name>>
    ensures { result ≡ meant.partition_of text.now }
{
    if text == b"-".as_slice() {
        Some(None)
    } else {
        Some(Some(name_of(text)?))
    }
}

/// The initialisation, the error handler, or the process of this name.
pub fn subject_of(text: &[u8]) -> Option<Subject>
    ensures { result ≡ meant.subject_of text.now }
{
    if text == b"INIT".as_slice() {
        Some(Subject::Init)
    } else if text == b"HANDLER".as_slice() {
        Some(Subject::Handler)
    } else {
        Some(Subject::Process(name_of(text)?))
    }
}

/// The process that an error belongs to; `-` for an error that belongs to no process.
pub fn culprit_of(text: &[u8]) -> Option<Option<Subject>>
    ensures { result ≡ meant.culprit_of text.now }
{
    if text == b"-".as_slice() {
        Some(None)
    } else {
        Some(Some(subject_of(text)?))
    }
}

pub fn mode_of(text: &[u8]) -> Option<Mode>
    ensures { result ≡ meant.mode_of text.now }
{
    MODES
        .iter()
        .copied()
        .find(|mode| mode.word().as_bytes() == text)
}

pub fn state_of(text: &[u8]) -> Option<ProcessState>
    ensures { result ≡ meant.state_of text.now }
{
    STATES
        .iter()
        .copied()
        .find(|state| state.word().as_bytes() == text)
}

pub fn service_of(text: &[u8]) -> Option<Service>
    ensures { result ≡ meant.service_of text.now }
{
    SERVICES
        .iter()
        .copied()
        .find(|service| service.word().as_bytes() == text)
}

pub fn error_of(text: &[u8]) -> Option<ErrorKind>
    ensures { result ≡ meant.error_of text.now }
{
    ERRORS
        .iter()
        .copied()
        .find(|error| error.word().as_bytes() == text)
}

/// The return code with this number.
pub fn code_of(text: &[u8]) -> Option<ReturnCode>
    ensures { result ≡ meant.code_of text.now }
{
    let number = plain_number(6, text)?;
    RETURN_CODES.get(number as usize).copied()
}

/// The response to an error, by the words of its level and its action.
pub fn response_of(level: &[u8], action: &[u8]) -> Option<Response>
    ensures { result ≡ meant.response_of level.now action.now }
{
    RESPONSES.iter().copied().find(|response| {
        response.level().word().as_bytes() == level && response.action_word().as_bytes() == action
    })
}
