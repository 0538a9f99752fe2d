//! The limits of a module, of its programs and of a run, and what follows from them.
//!
//! Code uses each limit from here. The definitions have their own numbers (`specs/Limits`), and the
//! law [`limits_are_as_defined`] says that they are the same.

ghost use Rattle.std.specs.Prelude.{◌≡◌};
ghost use Rattle.apex_types.specs.Limits as defined;

/// The most partitions of a module with an image of version 1 or 2.
pub const FIRST_MOST_PARTITIONS: u8 = 16;

/// The most processes of a partition in an image of version 1 or 2.
pub const FIRST_MOST_PROCESSES: u8 = 31;

/// The most words of a message in a module with an image of version 1 or 2.
pub const FIRST_MOST_WORDS: u8 = 16;

/// The most ticks of a run. No tick, duration, period, time capacity, delay, time-out or refresh period
/// is greater.
pub const MOST_TICKS: u64 = 1 << 40;

/// The latest tick of a release point, which is at most a major frame after a tick of the run.
pub const LATEST_RELEASE_POINT: u64 = 2 * MOST_TICKS;

/// The most ticks of a major frame.
pub const MOST_FRAME_TICKS: u32 = 1 << 24;

/// The most bytes of a name.
pub const MOST_NAME_BYTES: usize = 30;

/// The most partitions of a module.
pub const MOST_PARTITIONS: u8 = 32;

/// The most windows of a major frame.
pub const MOST_WINDOWS: u8 = 64;

/// The most channels of a module.
pub const MOST_CHANNELS: u8 = 64;

/// The most destinations of a channel.
pub const MOST_DESTINATIONS: u8 = 16;

/// The most ports of a partition.
pub const MOST_PORTS: u8 = 16;

/// The most processes of a partition, without INIT and the error handler.
pub const MOST_PROCESSES: u8 = 63;

/// The most runners of a partition: INIT, the error handler and the processes.
pub const MOST_RUNNERS: u8 = MOST_PROCESSES + 2;

/// The most objects of a kind in a partition.
pub const MOST_OBJECTS: u8 = 16;

/// The greatest priority of a process; the least is 1.
pub const GREATEST_PRIORITY: u8 = 239;

/// The most levels of priority for which ready processes are listed: all that a byte numbers.
pub const PRIORITY_LEVELS: u16 = 256;

/// The bits of a word of marks, one for each level of priority or for each process.
pub const MARK_BITS: u8 = 64;

/// The greatest level of the preemption lock.
pub const MOST_LOCK_LEVEL: u8 = 16;

/// The most errors that wait for an error handler.
pub const MOST_ERRORS: u8 = 64;

/// The most words of a message.
pub const MOST_WORDS: usize = 64;

/// The most words of the arguments of a service.
pub const MOST_ARGUMENT_WORDS: usize = 5;

/// The most messages that a buffer or a queuing port holds.
pub const MOST_DEPTH: u8 = 32;

/// The greatest value of a semaphore.
pub const MOST_SEMAPHORE_VALUE: u32 = 1_000_000;

/// The fewest words of a stack.
pub const LEAST_STACK_WORDS: u16 = 16;

/// The most words of a stack, and so of a frame on it.
pub const MOST_STACK_WORDS: u16 = 4_096;

/// The most parameters of a procedure.
pub const MOST_PARAMETERS: u8 = 8;

/// The most locals of a body.
pub const MOST_LOCALS: u8 = 64;

/// The most slots of a frame: its parameters and its locals.
pub const MOST_SLOTS: u16 = MOST_PARAMETERS as u16 + MOST_LOCALS as u16;

/// The most procedures of a program.
pub const MOST_PROCEDURES: u16 = 256;

/// The most instructions of a program.
pub const MOST_INSTRUCTIONS: u32 = 65_536;

/// The most words of a program's data.
pub const MOST_DATA_WORDS: u32 = 65_536;

/// The most ticks of a `work` statement.
pub const MOST_WORK_TICKS: u32 = 1_000_000;

/// The most ticks that a construct may cost; the least is 1.
pub const MOST_COST: u32 = 1_000;

/// The most bytes of a source.
pub const MOST_SOURCE_BYTES: u32 = 1_048_576;

/// The most levels of expressions, statements and argument lists that are open together in a
/// source.
pub const MOST_LEVELS: u32 = 64;

/// The most lines of a device text or of a replay text.
pub const MOST_DEVICE_LINES: u32 = 65_536;

/// The most words of an application message, and of the message of an error.
pub const MOST_REPORT_WORDS: u8 = 16;

/// The most events of a phase of a tick, and the most lines of a step: each process may be
/// released, miss its deadline and change its state once, and the choice and the end of a service
/// add a few more.
pub const MOST_EVENTS: usize = 512;

/// The most actions of a phase of a tick, on the processor, the data and the error queue: the words
/// of a message and a reply for each process, the reply to a call, and the three of a Clear.
pub const MOST_ACTIONS: usize = 2 * MOST_PROCESSES as usize + 4;

/// The most words of the lines and the actions of a step.
pub const MOST_OUT_WORDS: usize = MOST_WORDS * (MOST_EVENTS + MOST_ACTIONS);

/// The bytes of an instruction in an image.
pub const INSTRUCTION_BYTES: usize = 16;

/// The most bytes of a word in a line: its digits, its sign and the space before it.
pub const MOST_WORD_BYTES: usize = 21;

/// The most bytes of an event, without the words of its message.
pub const MOST_KIND_BYTES: usize = 64;

/// The most bytes of a line, without the words of a message: a tick, two names, and the event.
pub const MOST_HEAD_BYTES: usize = 176;

/// The most bytes of a line of a trace.
pub const MOST_LINE_BYTES: usize = MOST_HEAD_BYTES + MOST_WORD_BYTES * MOST_WORDS;

/// The most bytes of the lines of a step.
pub const MOST_STEP_BYTES: usize = MOST_EVENTS * MOST_LINE_BYTES;

/// Law: each limit of the code is the number that the definitions have for it.
pub fn limits_are_as_defined()
    ensures most_ticks { MOST_TICKS ≡ defined.MOST_TICKS }
    ensures most_frame_ticks { MOST_FRAME_TICKS ≡ defined.MOST_FRAME_TICKS }
    ensures most_name_bytes { MOST_NAME_BYTES ≡ defined.MOST_NAME_BYTES }
    ensures most_partitions { MOST_PARTITIONS ≡ defined.MOST_PARTITIONS }
    ensures most_windows { MOST_WINDOWS ≡ defined.MOST_WINDOWS }
    ensures most_channels { MOST_CHANNELS ≡ defined.MOST_CHANNELS }
    ensures most_destinations { MOST_DESTINATIONS ≡ defined.MOST_DESTINATIONS }
    ensures most_ports { MOST_PORTS ≡ defined.MOST_PORTS }
    ensures most_processes { MOST_PROCESSES ≡ defined.MOST_PROCESSES }
    ensures most_objects { MOST_OBJECTS ≡ defined.MOST_OBJECTS }
    ensures greatest_priority { GREATEST_PRIORITY ≡ defined.GREATEST_PRIORITY }
    ensures most_lock_level { MOST_LOCK_LEVEL ≡ defined.MOST_LOCK_LEVEL }
    ensures most_errors { MOST_ERRORS ≡ defined.MOST_ERRORS }
    ensures most_words { MOST_WORDS ≡ defined.MOST_WORDS }
    ensures most_depth { MOST_DEPTH ≡ defined.MOST_DEPTH }
    ensures most_semaphore_value { MOST_SEMAPHORE_VALUE ≡ defined.MOST_SEMAPHORE_VALUE }
    ensures least_stack_words { LEAST_STACK_WORDS ≡ defined.LEAST_STACK_WORDS }
    ensures most_stack_words { MOST_STACK_WORDS ≡ defined.MOST_STACK_WORDS }
    ensures most_parameters { MOST_PARAMETERS ≡ defined.MOST_PARAMETERS }
    ensures most_locals { MOST_LOCALS ≡ defined.MOST_LOCALS }
    ensures most_slots { MOST_SLOTS ≡ defined.MOST_SLOTS }
    ensures most_procedures { MOST_PROCEDURES ≡ defined.MOST_PROCEDURES }
    ensures most_instructions { MOST_INSTRUCTIONS ≡ defined.MOST_INSTRUCTIONS }
    ensures most_data_words { MOST_DATA_WORDS ≡ defined.MOST_DATA_WORDS }
    ensures most_work_ticks { MOST_WORK_TICKS ≡ defined.MOST_WORK_TICKS }
    ensures most_cost { MOST_COST ≡ defined.MOST_COST }
    ensures most_source_bytes { MOST_SOURCE_BYTES ≡ defined.MOST_SOURCE_BYTES }
    ensures most_levels { MOST_LEVELS ≡ defined.MOST_LEVELS }
    ensures most_device_lines { MOST_DEVICE_LINES ≡ defined.MOST_DEVICE_LINES }
    ensures most_report_words { MOST_REPORT_WORDS ≡ defined.MOST_REPORT_WORDS }
    ensures instruction_bytes { INSTRUCTION_BYTES ≡ defined.INSTRUCTION_BYTES }
{}
