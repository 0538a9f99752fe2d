//! A writer of the standard library as a stream, trusted to count its failures and to flush it.

ghost use Rattle.std.specs.Prelude.{◌≡◌, true};

use crate::names::{Reason, reason_of};
use crate::stream::Stream;
use apex_types::{Sink, SinkFault};
use std::io::Write;

/// A writer, with its failures so far and the reason for the last one, and whether all that it took
/// was flushed.
#[derive(Drop)]
pub struct WriterStream<W: Write> {
    writer: W,
    failures: u64,
    reason: Reason,
    is_flushed: bool,
}

impl<W: Write> WriterStream<W> {
    /// A stream over the writer, without a failure so far.
    pub fn new(writer: W) -> Self
        ensures { (result.writer ≡ writer) × (result.failures ≡ 0) × (result.is_flushed ≡ true) }
    {
        WriterStream {
            writer,
            failures: 0,
            reason: Reason::Other,
            is_flushed: true,
        }
    }
}

impl<W: Write> Sink for WriterStream<W> {
    ghost taken = { λ s. W.contents s.writer };

    ghost failures = { λ s. s.failures };

    fn put(&mut self, bytes: &[u8]) -> Result<usize, SinkFault> {
        self.is_flushed = false;
        match self.writer.write(bytes) {
            Ok(0) if !bytes.is_empty() => {
                self.failures += 1;
                Ok(0)
            }
            Ok(count) => Ok(count),
            Err(error) => {
                self.reason = reason_of(error.kind());
                self.failures += 1;
                Err(SinkFault)
            }
        }
    }
}

impl<W: Write> Stream for WriterStream<W> {
    ghost is_flushed = { λ s. s.is_flushed };

    fn put_text<D: std::fmt::Display + Drop>(&mut self, text: D) -> Result<(), SinkFault> {
        self.is_flushed = false;
        match write!(self.writer, "{text}") {
            Ok(()) => Ok(()),
            Err(error) => {
                self.reason = reason_of(error.kind());
                self.failures += 1;
                Err(SinkFault)
            }
        }
    }

    fn flush(&mut self) -> Result<(), SinkFault> {
        match self.writer.flush() {
            Ok(()) => {
                self.is_flushed = true;
                Ok(())
            }
            Err(error) => {
                self.is_flushed = false;
                self.reason = reason_of(error.kind());
                self.failures += 1;
                Err(SinkFault)
            }
        }
    }

    fn reason(&self) -> Reason {
        self.reason
    }
}
