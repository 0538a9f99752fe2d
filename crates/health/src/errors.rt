//! The errors that wait for the error handler of a partition.

ghost use Rattle.std.specs.Prelude.{◌≡◌, ◌≤◌, ◌-◌, drop, length, option_map, slice_get, IfOk, IsNone};
ghost use Rattle.apex_types.specs.Limits.{MOST_ERRORS, MOST_WORDS};
ghost use Rattle.kernel_meaning.specs.Kernel as meaning;
ghost use Rattle.kernel_meaning.specs.HealthServices.{is_waiting};
ghost use Rattle.kernel_meaning.specs.Step.{message};

use apex_types::{ErrorKind, MOST_ERRORS, ProcessIndex, WaitingError, message_of};
use circular_buffer::HeapCircularBuffer;
use std::alloc::{AllocError, Global};
use std::marker::Model;

/// The number of errors that the memory holds.
const PLACES: usize = MOST_ERRORS as usize;

/// The error handler of a partition, and the errors that wait for it, at most 64. A contract sees it
/// as the errors of the definitions.
#[derive(Drop)]
pub struct Errors {
    has_handler: bool,
    waiting: HeapCircularBuffer<WaitingError>,
}

impl Model for Errors {
    ghost use Rattle.kernel_meaning.specs.Kernel as meaning;

    ghost Value = { meaning.Errors };

    ghost use Rattle.health.specs.View.{errors_of, HasRing};

    ghost view = { errors_of };

    ghost invariant = { HasRing };
}

impl Errors {
    /// Makes an empty queue of errors, with memory for 64; no other call allocates. `has_handler`
    /// says whether the partition's source has an error handler. `AllocError`: out of memory.
    pub fn new(alloc: Global, has_handler: bool) -> Result<Errors, AllocError>
        ensures { IfOk result (λ errors. errors ≡ meaning.fresh_errors has_handler) }
    {
        let waiting = HeapCircularBuffer::with_capacity(alloc, PLACES)?;
        Ok(Errors {
            has_handler,
            waiting,
        })
    }

    /// Queues an error of a process, with the words of its message, after the others. If 64 wait,
    /// it is lost.
    pub fn queue(&mut self, kind: ErrorKind, process: ProcessIndex, words: &[i64])
        requires { length words.now ≤ MOST_WORDS }
        ensures { self.new
            ≡ meaning.queued self.old
            (record { kind = kind; process = process; words = message words.now }) }
    {
        if self.waiting.len() < PLACES {
            let _ = self.waiting.try_push_back(WaitingError {
                kind,
                process,
                words: message_of(words),
            });
        }
    }

    /// Removes all waiting errors.
    pub fn clear(&mut self)
        ensures { self.new ≡ meaning.emptied_errors self.old }
    {
        self.waiting.clear();
    }

    /// Whether the partition's source has an error handler.
    pub fn has_handler(&self) -> bool
        ensures { result ≡ self.now.has_handler }
    {
        self.has_handler
    }

    /// The number of waiting errors.
    pub fn count(&self) -> usize
        ensures { result ≡ length self.now.waiting }
    {
        self.waiting.len()
    }

    /// The waiting error that has `before` errors before it.
    pub fn waiting_after(&self, before: usize) -> Option<&WaitingError>
        ensures { option_map (λ error. error.now) result ≡ slice_get self.now.waiting before }
    {
        self.waiting.get(before)
    }

    /// Whether an error waits.
    pub(crate) fn is_waiting(&self) -> bool
        ensures { result ≡ is_waiting self.now.waiting }
    {
        self.waiting.front().is_some()
    }

    /// The number of further errors that may wait.
    pub(crate) fn free_places(&self) -> u8
        ensures { result ≡ MOST_ERRORS - length self.now.waiting }
    {
        let waiting = self.waiting.len();
        prove!(waiting <= PLACES);
        MOST_ERRORS - waiting as u8
    }

    /// Takes the error that has waited longest.
    pub(crate) fn pop(&mut self) -> Option<WaitingError>
        ensures first { result ≡ slice_get self.old.waiting 0 }
        ensures rest { self.new ≡ record self.old { waiting = drop 1 self.old.waiting } }
        ensures empty { IsNone result → self.new ≡ self.old }
    {
        self.waiting.pop_front()
    }
}
