//! The enumerations of the standard, with its numbers.

ghost use Rattle.std.specs.Prelude.{◌≡◌, ◌≤◌, length};

/// The return code of a service (`RETURN_CODE_TYPE`). Its number is what a program's target
/// receives.
#[derive(Clone, Copy, PartialEq, Eq)]
pub enum ReturnCode {
    NoError = 0,
    NoAction = 1,
    NotAvailable = 2,
    InvalidParam = 3,
    InvalidConfig = 4,
    InvalidMode = 5,
    TimedOut = 6,
}

impl ReturnCode {
    ghost use Rattle.apex_types.specs.CodeWords.{return_code_number};

    /// The number of this code, 0 to 6.
    pub fn number(self) -> u8
        ensures { result ≡ return_code_number self }
    {
        self as u8
    }
}

/// The operating mode of a partition (`OPERATING_MODE_TYPE`).
#[derive(Clone, Copy, PartialEq, Eq)]
pub enum Mode {
    Idle = 0,
    ColdStart = 1,
    WarmStart = 2,
    Normal = 3,
}

impl Mode {
    ghost use Rattle.apex_types.specs.CodeWords.{mode_word};

    /// The word of this mode in a trace.
    pub fn word(self) -> &'static str
        ensures word { result.now ≡ mode_word self }
        ensures short { length result.now ≤ 10 }
    {
        match self {
            Mode::Idle => "IDLE",
            Mode::ColdStart => "COLD_START",
            Mode::WarmStart => "WARM_START",
            Mode::Normal => "NORMAL",
        }
    }
}

/// The state of a process (`PROCESS_STATE_TYPE`).
#[derive(Clone, Copy, PartialEq, Eq)]
pub enum ProcessState {
    Dormant = 0,
    Ready = 1,
    Running = 2,
    Waiting = 3,
}

impl ProcessState {
    ghost use Rattle.apex_types.specs.CodeWords.{state_word};

    /// The word of this state in a trace.
    pub fn word(self) -> &'static str
        ensures word { result.now ≡ state_word self }
        ensures short { length result.now ≤ 7 }
    {
        match self {
            ProcessState::Dormant => "DORMANT",
            ProcessState::Ready => "READY",
            ProcessState::Running => "RUNNING",
            ProcessState::Waiting => "WAITING",
        }
    }
}

/// An error that health monitoring treats (`ERROR_CODE_TYPE`).
#[derive(Clone, Copy, PartialEq, Eq)]
pub enum ErrorKind {
    DeadlineMissed = 0,
    ApplicationError = 1,
    NumericError = 2,
    IllegalRequest = 3,
    StackOverflow = 4,
    MemoryViolation = 5,
    HardwareFault = 6,
}

impl ErrorKind {
    ghost use Rattle.apex_types.specs.CodeWords.{error_word};

    /// The word of this error in a trace and in a table.
    pub fn word(self) -> &'static str
        ensures word { result.now ≡ error_word self }
        ensures short { length result.now ≤ 17 }
    {
        match self {
            ErrorKind::DeadlineMissed => "DEADLINE_MISSED",
            ErrorKind::ApplicationError => "APPLICATION_ERROR",
            ErrorKind::NumericError => "NUMERIC_ERROR",
            ErrorKind::IllegalRequest => "ILLEGAL_REQUEST",
            ErrorKind::StackOverflow => "STACK_OVERFLOW",
            ErrorKind::MemoryViolation => "MEMORY_VIOLATION",
            ErrorKind::HardwareFault => "HARDWARE_FAULT",
        }
    }
}

/// The reason for a partition's last start (`START_CONDITION_TYPE`).
#[derive(Clone, Copy, PartialEq, Eq)]
pub enum StartCondition {
    NormalStart = 0,
    PartitionRestart = 1,
    HmModuleRestart = 2,
    HmPartitionRestart = 3,
}

/// The level at which an error is handled.
#[derive(Clone, Copy, PartialEq, Eq)]
pub enum ErrorLevel {
    Process,
    Partition,
    Module,
}

impl ErrorLevel {
    ghost use Rattle.apex_types.specs.CodeWords.{level_word};

    /// The word of this level in a trace.
    pub fn word(self) -> &'static str
        ensures word { result.now ≡ level_word self }
        ensures short { length result.now ≤ 9 }
    {
        match self {
            ErrorLevel::Process => "PROCESS",
            ErrorLevel::Partition => "PARTITION",
            ErrorLevel::Module => "MODULE",
        }
    }
}

/// The action that a partition's health table sets for an error.
#[derive(Clone, Copy, PartialEq, Eq)]
pub enum PartitionAction {
    Ignore = 0,
    Idle = 1,
    WarmStart = 2,
    ColdStart = 3,
}

impl PartitionAction {
    ghost use Rattle.apex_types.specs.CodeWords.{partition_action_word};

    /// The word of this action in a trace and in a table.
    pub fn word(self) -> &'static str
        ensures word { result.now ≡ partition_action_word self }
        ensures short { length result.now ≤ 10 }
    {
        match self {
            PartitionAction::Ignore => "IGNORE",
            PartitionAction::Idle => "IDLE",
            PartitionAction::WarmStart => "WARM_START",
            PartitionAction::ColdStart => "COLD_START",
        }
    }
}

/// The action that the module table sets for a module fault.
#[derive(Clone, Copy, PartialEq, Eq)]
pub enum ModuleAction {
    Ignore = 0,
    Shutdown = 1,
    Reset = 2,
}

impl ModuleAction {
    ghost use Rattle.apex_types.specs.CodeWords.{module_action_word};

    /// The word of this action in a trace and in a table.
    pub fn word(self) -> &'static str
        ensures word { result.now ≡ module_action_word self }
        ensures short { length result.now ≤ 8 }
    {
        match self {
            ModuleAction::Ignore => "IGNORE",
            ModuleAction::Shutdown => "SHUTDOWN",
            ModuleAction::Reset => "RESET",
        }
    }
}

/// The response to an error: its level, and the action of that level. At process level the action
/// is always the partition's error handler.
#[derive(Clone, Copy, PartialEq, Eq)]
pub enum Response {
    Handler,
    Partition(PartitionAction),
    Module(ModuleAction),
}

impl Response {
    ghost use Rattle.apex_types.specs.CodeWords.{action_word, level_of_response};

    /// The level at which the error is handled.
    pub fn level(self) -> ErrorLevel
        ensures { result ≡ level_of_response self }
    {
        match self {
            Response::Handler => ErrorLevel::Process,
            Response::Partition(_) => ErrorLevel::Partition,
            Response::Module(_) => ErrorLevel::Module,
        }
    }

    /// The word of the action in a trace.
    pub fn action_word(self) -> &'static str
        ensures word { result.now ≡ action_word self }
        ensures short { length result.now ≤ 10 }
    {
        match self {
            Response::Handler => "HANDLER",
            Response::Partition(action) => action.word(),
            Response::Module(action) => action.word(),
        }
    }
}

/// The order in which the processes that wait for an object are released
/// (`QUEUING_DISCIPLINE_TYPE`).
#[derive(Clone, Copy, PartialEq, Eq)]
pub enum Discipline {
    Fifo = 0,
    Priority = 1,
}
