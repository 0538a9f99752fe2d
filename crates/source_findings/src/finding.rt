//! What is wrong at a place of a source.

use crate::roles::Role;
use apex_types::Service;

/// A number that a program gives.
#[derive(Clone, Copy)]
pub enum Thing {
    Stack,
    Priority,
    Period,
    Capacity,
    /// The ticks after `work`.
    Work,
    /// The first value of a semaphore.
    First,
    /// The greatest value of a semaphore.
    Maximum,
    /// The words of a message of a buffer or a blackboard.
    Words,
    /// The messages of a buffer.
    Messages,
}

/// What a program has many of.
#[derive(Clone, Copy)]
pub enum Many {
    Locals,
    Parameters,
    /// First values of an array, which has that many words.
    Values,
    /// Words of variables and arrays.
    Words,
    Semaphores,
    Events,
    Buffers,
    Blackboards,
    Ports,
    Procedures,
    Processes,
    /// Words of the frame of a procedure.
    FrameWords,
}

/// What is wrong.
#[derive(Clone, Copy)]
pub enum What<'a> {
    /// A byte that is not ASCII.
    NoAscii(u8),
    /// More bytes than a source may have.
    TooLong,
    /// The name is not declared. The nearest one that is may be known.
    Unknown {
        name: &'a str,
        near: Option<&'a str>,
    },
    /// The name is declared before.
    Again(&'a str),
    /// The name means something other than what is wanted.
    Other {
        name: &'a str,
        found: Role,
        wanted: Role,
    },
    /// There is an expression where the name of this is wanted.
    NoName(Role),
    /// The number of arguments that the service is given.
    Arguments {
        service: Service,
        given: usize,
    },
    /// The number of targets that the service is given.
    Targets {
        service: Service,
        given: usize,
    },
    /// A `return` outside a procedure.
    Return,
    /// The name is too long.
    Long(&'a str),
    /// The number is above 2^63 - 1.
    TooLarge,
    /// The number is not between two limits.
    Outside {
        thing: Thing,
        number: u64,
        low: u64,
        high: u64,
    },
    /// The number is neither -1 nor a number of ticks.
    NoTime {
        thing: Thing,
        negative: bool,
        number: u64,
    },
    /// The number of them, which is more than there may be.
    TooMany {
        thing: Many,
        number: u64,
        most: u64,
    },
    /// The frame of a body is larger than its stack.
    Frame {
        words: u64,
        stack: u64,
    },
    /// The period of a process is no multiple of that of the partition.
    Odd {
        period: u64,
        partition: u32,
    },
    /// The instructions of the program, and those of this body.
    Instructions {
        number: u64,
        here: u64,
    },
}

/// What is wrong, and how many bytes are left at the place where it is.
#[derive(Clone, Copy)]
pub struct Wrong<'a> {
    pub left: usize,
    pub what: What<'a>,
}
