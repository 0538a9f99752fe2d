//! A stream whose bytes go out soon.

ghost use Rattle.std.specs.Prelude.{◌≡◌, ◌+◌, ◌-◌, ◌^◌, ◌<◌, OnErr, OnOk};
ghost use Rattle.std.specs.Io.KnownBytes.{Keeps};

use crate::{Reason, Stream};
use apex_types::{Sink, SinkFault};
use std::fmt::Display;
use std::time::{Clock, Duration, Instant};

/// The milliseconds, at the least, between two flushes that no caller asks for.
const LEAST_APART: u64 = 50;

/// A stream that is flushed without being asked. An offer of no bytes looks at the clock, and if
/// the last flush of this kind is 0.05 seconds ago, what is kept back goes out. Offers of bytes do
/// not look: many of them fill what keeps them back, which then goes out.
#[derive(Drop)]
pub struct PromptStream<'a, S: Stream, C: Clock> {
    stream: S,
    clock: &'a C,
    flushed: Option<Instant>,
}

impl<'a, S: Stream, C: Clock> PromptStream<'a, S, C> {
    /// The stream, with a clock.
    pub fn new(stream: S, clock: &'a C) -> Self
        ensures { result.stream ≡ stream }
    {
        PromptStream {
            stream,
            clock,
            flushed: None,
        }
    }

    /// Looks at the clock, and flushes what has been kept back for long. If the clock cannot be
    /// read, all is flushed.
    fn look(&mut self) -> Result<(), SinkFault>
        requires { S.failures self.old.stream < 2 ^ 64 - 1 }
        ensures kept { Keeps (S.taken self.old.stream) (S.taken self.new.stream) }
        ensures quiet { OnOk result
            (S.failures self.new.stream ≡ S.failures self.old.stream) }
        ensures failed { OnErr result
            (S.failures self.new.stream ≡ S.failures self.old.stream + 1) }
    {
        let now = Instant::now(self.clock).ok();
        if is_soon(self.flushed, now) {
            return Ok(());
        }
        self.flushed = now;
        self.flush()
    }
}

/// Whether both times are known, and the second comes soon after the first.
fn is_soon(flushed: Option<Instant>, now: Option<Instant>) -> bool {
    match (flushed, now) {
        (Some(flushed), Some(now)) => {
            now.duration_since(flushed) < Duration::from_millis(LEAST_APART)
        }
        _ => false,
    }
}

impl<'a, S: Stream, C: Clock> Sink for PromptStream<'a, S, C> {
    ghost taken = { λ s. S.taken s.stream };

    ghost failures = { λ s. S.failures s.stream };

    fn put(&mut self, bytes: &[u8]) -> Result<usize, SinkFault> {
        if bytes.is_empty() {
            self.look()?;
            return Ok(0);
        }
        self.stream.put(bytes)
    }
}

impl<'a, S: Stream, C: Clock> Stream for PromptStream<'a, S, C> {
    ghost is_flushed = { λ s. S.is_flushed s.stream };

    fn put_text<D: Display + Drop>(&mut self, text: D) -> Result<(), SinkFault> {
        self.stream.put_text(text)
    }

    fn flush(&mut self) -> Result<(), SinkFault> {
        self.stream.flush()
    }

    fn reason(&self) -> Reason {
        self.stream.reason()
    }
}
