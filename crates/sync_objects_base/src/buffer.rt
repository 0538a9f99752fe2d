//! Buffers of messages.

ghost use Rattle.std.specs.Prelude.{◌≡◌, ◌<◌, ◌≤◌, ◌++◌, [], ◌∷◌, drop, length, option_map, slice_get, true, IfOk, IsNone, OnSome};
ghost use Rattle.kernel_meaning.specs.Objects as meaning;
ghost use Rattle.sync_objects_base.specs.Status.{buffer_status};

use crate::messages::append;
use apex_types::{BufferRow, Words};
use circular_buffer::HeapCircularBuffer;
use std::alloc::{AllocError, Global};
use std::marker::Model;

/// A buffer of messages. A contract sees it as the buffer of the definitions.
#[derive(Drop)]
pub struct Buffer {
    row: BufferRow,
    created: bool,
    messages: HeapCircularBuffer<Words>,
}

impl Model for Buffer {
    ghost use Rattle.kernel_meaning.specs.Objects as meaning;

    ghost Value = { meaning.Buffer };

    ghost use Rattle.sync_objects_base.specs.View.{buffer_of, HasRing};

    ghost view = { buffer_of };

    ghost invariant = { HasRing };
}

/// The status of a buffer, without its messages.
#[derive(Clone, Copy)]
pub struct BufferStatus {
    pub row: BufferRow,
    pub created: bool,
    /// How many messages it holds.
    pub messages: u8,
}

impl Buffer {
    /// A buffer before it is created, with memory for its messages.
    pub(crate) fn fresh(alloc: Global, row: BufferRow) -> Result<Buffer, AllocError>
        ensures { IfOk result (λ buffer. buffer ≡ meaning.fresh_buffer row) }
    {
        let messages = HeapCircularBuffer::with_capacity(alloc, usize::from(row.depth))?;
        Ok(Buffer {
            row,
            created: false,
            messages,
        })
    }

    /// Resets the buffer: it is not created, and holds no message.
    pub(crate) fn clear(&mut self)
        ensures { self.new ≡ meaning.cleared_buffer self.old }
    {
        self.created = false;
        self.messages.clear();
    }

    /// Creates the buffer.
    pub(crate) fn create(&mut self)
        ensures { self.new ≡ record self.old { created = true } }
    {
        self.created = true;
    }

    /// Appends a message.
    pub(crate) fn push(&mut self, message: &Words)
        requires { length self.old.messages < self.old.row.depth }
        ensures { self.new ≡ record self.old { messages = self.old.messages ++ message.now ∷ [] } }
    {
        append(&mut self.messages, message);
    }

    /// Takes the first message.
    pub(crate) fn pop(&mut self) -> Option<Words>
        ensures first { result ≡ slice_get self.old.messages 0 }
        ensures rest { self.new ≡ record self.old { messages = drop 1 self.old.messages } }
        ensures empty { IsNone result → self.new ≡ self.old }
        ensures room { OnSome result (length self.new.messages < self.new.row.depth) }
    {
        self.messages.pop_front()
    }

    /// The message that has `before` messages before it.
    pub fn message_after(&self, before: usize) -> Option<&Words>
        ensures { option_map (λ message. message.now) result ≡ slice_get self.now.messages before }
    {
        self.messages.get(before)
    }

    /// Its status.
    pub fn status(&self) -> BufferStatus
        ensures status { result ≡ buffer_status self.now }
        ensures within { result.messages ≤ result.row.depth }
    {
        let messages = self.messages.len();
        prove!(messages <= usize::from(self.row.depth));
        BufferStatus {
            row: self.row,
            created: self.created,
            messages: messages as u8,
        }
    }
}
